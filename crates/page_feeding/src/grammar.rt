//! What a reader of pages asks of a format (Prometheus text format 0.0.4, "Text format details"; OpenMetrics 1.0,
//! "ABNF").
ghost use Rattle.std.specs.Prelude.{◌≡◌, ◌≤◌, length, IfOk, IsUtf8};
ghost use Rattle.page_model.specs.declared.format.Format.{Format as AnyFormat};
ghost use Rattle.page_model.specs.PageReading.{written_of};
ghost use Rattle.page_model.specs.Written.{line_limit};
ghost use Rattle.line_scan.specs.LineReading.{Reads, IsRead};

use label_sets::Memory;
use line_scan::{LineRead, LineRoom};
use page_model::{Format, Rule, Treatment};
use std::alloc::Global;

/// The lines of one format.
pub trait Grammar {
    ghost format: { AnyFormat };

    /// The format.
    fn format() -> Format
        ensures { result ≡ format };

    /// The item of a line of UTF-8 without its line feed, or the least rule that the line breaks by what it says.
    /// `room` lends the room in which the labels are gathered; the labels that it holds are lost.
    fn read_text(
        alloc: Global,
        treatment: Treatment,
        line: &[u8],
        room: &mut LineRoom,
    ) -> Result<LineRead, Memory>
        requires { IsUtf8 line.now }
        ensures { IfOk result (Reads format treatment (written_of format line.now)) };
}

/// The item of a line without its line feed, or the least rule that the line alone breaks.
pub(crate) fn read_line<G: Grammar>(
    alloc: Global,
    treatment: Treatment,
    line: &[u8],
    room: &mut LineRoom,
) -> Result<LineRead, Memory>
    requires { length line.now ≤ line_limit treatment }
    ensures { IfOk result (IsRead G.format treatment line.now) }
{
    match std::str::from_utf8(line) {
        Ok(_) => G::read_text(alloc, treatment, line, room),
        Err(_) => Ok(LineRead::Refused(Rule::Utf8)),
    }
}
