//! Labels with those of their target (Prometheus, "Federation").
ghost use Rattle.std.specs.Prelude.{◌≡◌, ◌≤◌, not, length, IfOk, OnOk};
ghost use Rattle.std.specs.List.{prefix_len};
ghost use Rattle.label_sets.specs.Labels.{label_inserted, name_before};
ghost use Rattle.federation_page.specs.Candidates.{AreFreeLabels, HasNames, with_target};

use label_sets::{Label, LabelSet, Memory, Name, Text};
use page_model::Shown;
use std::alloc::Global;

/// How many labels at the front don't stand behind one of this name.
fn place_of(labels: &[Label], name: &Name) -> usize
    ensures within { result ≤ length labels.now }
    ensures is { result ≡ prefix_len (λ label. not (name_before name.now label.name)) labels.now }
{
    let mut place = 0;
    while place < labels.len() {
        if *name < labels[place].name {
            return place;
        }
        place += 1;
    }
    labels.len()
}

/// Copies of labels, with room for those of a target.
fn copies(alloc: Global, labels: &[Label]) -> Result<Vec<Label>, Memory>
    ensures { IfOk result (λ copies. copies.items ≡ labels.now) }
{
    let mut copies = Vec::with_capacity(alloc, labels.len().saturating_add(2))?;
    for label in labels {
        copies.push(label.copy()?)?;
    }
    Ok(copies)
}

/// Puts a label in its place.
fn insert(labels: &mut Vec<Label>, label: Label) -> Result<(), Memory>
    ensures { OnOk result (labels.new.items ≡ label_inserted label labels.old.items) }
{
    let place = place_of(labels.as_slice(), &label.name);
    labels.insert(place, label)?;
    Ok(())
}

/// Puts a label of this name and value in its place.
fn put(alloc: Global, labels: &mut Vec<Label>, name: &str, value: &Text) -> Result<(), Memory>
    ensures { OnOk result (labels.new.items ≡ label_inserted (record { name = name.now; value = value.now }) labels.old.items) }
{
    let label = Label {
        name: Name::from_str(alloc, name)?,
        value: value.copy()?,
    };
    insert(labels, label)?;
    Ok(())
}

/// A page's labels with those of their target.
pub(crate) fn with_target(
    alloc: Global,
    shown: &Shown,
    labels: &LabelSet,
) -> Result<LabelSet, Memory>
    requires named { HasNames shown.now }
    requires free { AreFreeLabels labels.now }
    ensures { IfOk result (λ set. set ≡ with_target shown.now.job shown.now.instance labels.now) }
{
    let mut all = copies(alloc, labels.labels())?;
    put(alloc, &mut all, "job", &shown.job)?;
    put(alloc, &mut all, "instance", &shown.instance)?;
    LabelSet::from_sorted(all)
}
