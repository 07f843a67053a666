//! What is printed where a command stops.
ghost use Rattle.std.specs.Prelude.{◌≡◌, IfOk, OnErr};
ghost use Rattle.std.specs.Cow.{cow_slice_items};
ghost use Rattle.bridge_config.specs.ConfigLines.{config_line};
ghost use Rattle.program_words.specs.Stops as spec;
ghost use Rattle.program_words.specs.Stops.{TakesMemory};

use crate::digits::push_number;
use crate::stop::Stop;
use bridge_config::{ConfigFault, push_line};
use page_model::Rule;
use std::alloc::{AllocError, Global};
use std::borrow::CowSlice;

/// The line of a page with a fault.
#[tactic(auto, unfolding(crate::specs::Stops::refused_text))]
fn refused_text(alloc: Global, line: u32, rule: Rule) -> Result<Vec<u8>, AllocError>
    ensures { IfOk result (λ text. text.items ≡ spec.refused_text line rule) }
{
    let mut text = Vec::new(alloc);
    text.extend_from_slice(b"refused line ")?;
    push_number(&mut text, u64::from(line))?;
    text.extend_from_slice(b" rule ")?;
    push_number(&mut text, u64::from(rule.number()))?;
    text.extend_from_slice(b" ")?;
    text.extend_from_slice(rule.name().as_bytes())?;
    text.extend_from_slice(b"\n")?;
    Ok(text)
}

/// The line of a script with a fault.
#[tactic(auto, unfolding(crate::specs::Stops::script_text))]
fn script_text(alloc: Global, line: u64) -> Result<Vec<u8>, AllocError>
    ensures { IfOk result (λ text. text.items ≡ spec.script_text line) }
{
    let mut text = Vec::new(alloc);
    text.extend_from_slice(b"script line ")?;
    push_number(&mut text, line)?;
    text.extend_from_slice(b"\n")?;
    Ok(text)
}

/// The line of a configuration with a fault.
fn config_text(alloc: Global, fault: &ConfigFault) -> Result<Vec<u8>, AllocError>
    ensures { IfOk result (λ text. text.items ≡ config_line fault.now) }
{
    let mut text = Vec::new(alloc);
    push_line(&mut text, fault)?;
    Ok(text)
}

/// What is printed where a command stops. Only a fault's line takes memory.
///
/// # Errors
///
/// Want of memory.
#[tactic(auto, unfolding(crate::specs::Stops::too_long_text))]
pub fn stop_text(alloc: Global, stop: &Stop) -> Result<CowSlice<'static, u8>, AllocError>
    ensures text { IfOk result (λ text. cow_slice_items text ≡ spec.stop_text stop.now) }
    ensures memory { OnErr result (TakesMemory stop.now) }
{
    match stop {
        Stop::Refused { line, rule } => Ok(CowSlice::Owned(refused_text(alloc, *line, *rule)?)),
        Stop::BadScript { line } => Ok(CowSlice::Owned(script_text(alloc, *line)?)),
        Stop::BadConfig(fault) => Ok(CowSlice::Owned(config_text(alloc, fault)?)),
        Stop::TooLong => Ok(CowSlice::Borrowed(b"input too long\n")),
        Stop::Read => Ok(CowSlice::Borrowed(b"")),
        Stop::Memory => Ok(CowSlice::Borrowed(b"")),
    }
}
