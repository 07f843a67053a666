//! The attributes of the target that was scraped.
ghost use Rattle.std.specs.Prelude.{◌≡◌, ◌++◌, ◌∷◌, [], IfOk, OnOk};
ghost use Rattle.target_core.specs.Trees as trees;
ghost use Rattle.otlp_tree.specs.declared.tree.AttributeValue.TheVariants.{Str, Int};

use bridge_ports::Target;
use label_sets::{Label, LabelSet, List, Memory, Text};
use otlp_tree::{Attribute, AttributeValue};
use std::alloc::Global;

/// An attribute with a text.
fn text_attribute(alloc: Global, key: &str, value: Text) -> Result<Attribute, Memory>
    ensures { IfOk result (λ a. a ≡ record { key = key.now; value = Str value }) }
{
    Ok(Attribute {
        key: Text::from_str(alloc, key)?,
        value: AttributeValue::Str(value),
    })
}

/// An attribute with a whole number.
fn number_attribute(alloc: Global, key: &str, value: u64) -> Result<Attribute, Memory>
    ensures { IfOk result (λ a. a ≡ record { key = key.now; value = Int value }) }
{
    Ok(Attribute {
        key: Text::from_str(alloc, key)?,
        value: AttributeValue::Int(value),
    })
}

/// A label as an attribute; its texts are shared.
fn label_attribute(label: &Label) -> Result<Attribute, Memory>
    ensures { IfOk result (λ a. a ≡ record { key = label.now.name; value = Str label.now.value }) }
{
    let key = label.name.copy()?.into_text();
    let value = label.value.copy()?;
    Ok(Attribute {
        key,
        value: AttributeValue::Str(value),
    })
}

/// Adds an attribute with a text behind the others.
fn push_text(
    alloc: Global,
    attributes: &mut Vec<Attribute>,
    key: &str,
    value: Text,
) -> Result<(), Memory>
    ensures { OnOk result (attributes.new.items ≡ attributes.old.items ++ record { key = key.now; value = Str value } ∷ []) }
{
    attributes.push(text_attribute(alloc, key, value)?)?;
    Ok(())
}

/// Adds an attribute with a whole number behind the others.
fn push_number(
    alloc: Global,
    attributes: &mut Vec<Attribute>,
    key: &str,
    value: u64,
) -> Result<(), Memory>
    ensures { OnOk result (attributes.new.items ≡ attributes.old.items ++ record { key = key.now; value = Int value } ∷ []) }
{
    attributes.push(number_attribute(alloc, key, value)?)?;
    Ok(())
}

/// Puts labels, as attributes, behind the others.
fn push_labels(attributes: &mut Vec<Attribute>, labels: &LabelSet) -> Result<(), Memory>
    ensures { OnOk result (attributes.new.items ≡ attributes.old.items ++ trees.label_attributes labels.now) }
{
    for label in labels.labels() {
        attributes.push(label_attribute(label)?)?;
    }
    Ok(())
}

/// Puts the attributes that every target has behind the others.
#[tactic(auto, unfolding(crate::specs::Trees::own_attributes))]
fn push_own(alloc: Global, attributes: &mut Vec<Attribute>, target: &Target) -> Result<(), Memory>
    ensures { OnOk result (attributes.new.items ≡ attributes.old.items ++ trees.own_attributes target.now) }
{
    let address = target.address();
    push_text(alloc, attributes, "service.name", target.job().copy()?)?;
    let instance = target.instance().copy()?;
    push_text(alloc, attributes, "service.instance.id", instance)?;
    let host = Text::from_utf8(alloc, address.host.as_slice())?;
    push_text(alloc, attributes, "server.address", host)?;
    push_number(alloc, attributes, "server.port", u64::from(address.port))?;
    let scheme = Text::from_str(alloc, "http")?;
    push_text(alloc, attributes, "url.scheme", scheme)
}

/// The attributes of the target that was scraped, and behind them those that its pages give it.
#[tactic(auto, unfolding(crate::specs::Trees::resource_of, crate::specs::Trees::own_attributes))]
pub(crate) fn resource(
    alloc: Global,
    target: &Target,
    attributes: &LabelSet,
) -> Result<List<Attribute>, Memory>
    ensures { IfOk result (λ all. all ≡ trees.resource_of target.now attributes.now) }
{
    let mut all = Vec::with_capacity(alloc, attributes.len().saturating_add(5))?;
    push_own(alloc, &mut all, target)?;
    push_labels(&mut all, attributes)?;
    List::from_vec(all)
}
