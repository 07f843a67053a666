//! The line that is printed of a fault.
ghost use Rattle.std.specs.Prelude.{◌≡◌, ◌++◌, OnOk};
ghost use Rattle.std.specs.Fmt.{decimal};
ghost use Rattle.bridge_config.specs.ConfigLines as spec;

use crate::fault::{ConfigFault, Product};
use label_sets::{Memory, Text};

/// The word of a product.
fn product_word(product: Product) -> &'static [u8]
    ensures { result.now ≡ spec.product_word product }
{
    match product {
        Product::Samples => b"samples",
        Product::Pages => b"pages",
        Product::Held => b"held",
    }
}

/// Puts a word and a key.
fn push_key(text: &mut Vec<u8>, word: &[u8], key: &Text) -> Result<(), Memory>
    ensures { OnOk result (text.new.items ≡ text.old.items ++ (word.now ++ key.now)) }
{
    text.extend_from_slice(word)?;
    text.extend_from_slice(key.as_bytes())
}

/// Puts a word and a number.
fn push_number(text: &mut Vec<u8>, word: &[u8], number: u32) -> Result<(), Memory>
    ensures { OnOk result (text.new.items ≡ text.old.items ++ (word.now ++ decimal number)) }
{
    let mut digits = itoa::Buffer::new();
    text.extend_from_slice(word)?;
    text.extend_from_slice(digits.format(number).as_bytes())
}

/// Puts what a fault's line says.
#[tactic(auto, unfolding(crate::specs::ConfigLines::fault_words))]
fn push_words(text: &mut Vec<u8>, fault: &ConfigFault) -> Result<(), Memory>
    ensures { OnOk result (text.new.items ≡ text.old.items ++ spec.fault_words fault.now) }
{
    match fault {
        ConfigFault::Toml => text.extend_from_slice(b"toml"),
        ConfigFault::Unknown(key) => push_key(text, b"unknown ", key),
        ConfigFault::Kind(key) => push_key(text, b"kind ", key),
        ConfigFault::Missing(key) => push_key(text, b"missing ", key),
        ConfigFault::Range(key) => push_key(text, b"range ", key),
        ConfigFault::Address(number) => push_number(text, b"address ", *number),
        ConfigFault::Twice(number) => push_number(text, b"twice ", *number),
        ConfigFault::Product(product) => {
            text.extend_from_slice(b"product ")?;
            text.extend_from_slice(product_word(*product))
        }
        ConfigFault::Memory => text.extend_from_slice(b"memory"),
    }
}

/// Puts the line of a fault behind a text. Want of memory has no line of its own; its word is put.
///
/// # Errors
///
/// Want of memory.
pub fn push_line(text: &mut Vec<u8>, fault: &ConfigFault) -> Result<(), Memory>
    ensures { OnOk result (text.new.items ≡ text.old.items ++ spec.config_line fault.now) }
{
    text.extend_from_slice(b"config: ")?;
    push_words(text, fault)?;
    text.extend_from_slice(b"\n")
}
