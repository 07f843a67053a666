//! The target of a target line.
ghost use Rattle.std.specs.Prelude.{◌≡◌, ◌++◌, true, codes, IfOk, IsUtf8};
ghost use Rattle.std.specs.Fmt.{decimal};
ghost use Rattle.replay_script.specs.ScriptRules as rules;
ghost use Rattle.replay_script.specs.ScriptContents.{line_address, line_target};
ghost use Rattle.replay_script.specs.Progresses.{words_found_as};

use crate::parts::TargetWords;
use crate::script::ScriptTarget;
use bridge_ports::{Address, Target};
use label_sets::{Bytes, Text};
use plain_words::is_visible_word;
use std::alloc::{AllocError, Global};

/// The most bytes of a job, of a host and of a path.
const MOST_WORD_BYTES: usize = 256;

/// Whether the words are those of a target: a job, a host with a port, and a path that begins with a slash.
pub(crate) fn is_target_line(words: &TargetWords<'_>) -> bool
    ensures { result ≡ rules.is_target_line (words_found_as words.now) }
{
    is_visible_word(MOST_WORD_BYTES, words.job)
        && is_visible_word(MOST_WORD_BYTES, words.host)
        && words.port >= 1
        && is_visible_word(MOST_WORD_BYTES, words.path)
        && words.path.starts_with(b"/")
}

/// Whether one of these targets has the job and the instance of this one.
pub(crate) fn has_namesake(targets: &[ScriptTarget], target: &Target) -> bool
    ensures { result ≡ rules.has_namesake targets.now target.now }
{
    for other in targets {
        if target.has_names_of(&other.target) {
            return true;
        }
    }
    false
}

/// Host, colon and port.
fn instance_of(alloc: Global, host: &[u8], port: u16) -> Result<Vec<u8>, AllocError>
    ensures { IfOk result (λ text. text.items ≡ host.now ++ (codes ":" ++ decimal port)) }
{
    let mut digits = itoa::Buffer::new();
    let mut text = Vec::new(alloc);
    text.extend_from_slice(host)?;
    text.extend_from_slice(b":")?;
    text.extend_from_slice(digits.format(port).as_bytes())?;
    Ok(text)
}

/// The instance of a host and a port, as a text.
fn instance_text(alloc: Global, host: &[u8], port: u16) -> Result<Text, AllocError>
    requires { IsUtf8 (host.now ++ (codes ":" ++ decimal port)) }
    ensures { IfOk result (λ text. text ≡ host.now ++ (codes ":" ++ decimal port)) }
{
    let instance = instance_of(alloc, host, port)?;
    let text = Text::from_utf8(alloc, instance.as_slice())?;
    Ok(text)
}

/// The address of a target line.
fn address(alloc: Global, words: &TargetWords<'_>) -> Result<Address, AllocError>
    ensures { IfOk result (λ a. a ≡ line_address (words_found_as words.now)) }
{
    let host = Bytes::from_slice(alloc, words.host)?;
    let path = Bytes::from_slice(alloc, words.path)?;
    Ok(Address {
        host,
        port: words.port,
        path,
    })
}

/// The target of a target line; `honor` says whether times of its pages are taken for those of the points.
///
/// # Errors
///
/// Want of memory.
pub fn target(alloc: Global, words: &TargetWords<'_>, honor: bool) -> Result<Target, AllocError>
    requires { rules.is_target_line (words_found_as words.now) ≡ true }
    ensures { IfOk result (λ t. t ≡ line_target honor (words_found_as words.now)) }
{
    let job = Text::from_utf8(alloc, words.job)?;
    let instance = instance_text(alloc, words.host, words.port)?;
    let address = address(alloc, words)?;
    Ok(Target::new(job, instance, address, honor))
}
