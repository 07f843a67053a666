//! The head of a sample line, cut off: its name and its labels (Prometheus text format 0.0.4, "Line format"; OpenMetrics
//! 1.0, "ABNF": sample).
ghost use Rattle.std.specs.Prelude.{◌≡◌, [], option_map, IfOk, IfSome, IsUtf8, MatchOption, None};
ghost use Rattle.std.specs.Option.{option_copied};
ghost use Rattle.page_model.specs.LineHeads.{head_of, labels_behind};
ghost use Rattle.page_model.specs.declared.format.Format.{Format as AnyFormat};
ghost use Rattle.line_scan.specs.LineHeads.{IsHead};
ghost use Rattle.line_scan.specs.LineRooms.{IsHeadIn};

use crate::chars::MetricChar;
use crate::line_room::LineRoom;
use crate::scan::cut_name;
use label_sets::{Label, Memory};
use page_model::Format;
use std::alloc::Global;

/// The head of a sample line.
#[derive(Clone, Copy)]
pub struct Head<'a> {
    /// The name of the metric.
    pub name: &'a [u8],
    /// The name with the labels as they are written.
    pub front: &'a [u8],
    /// What stands behind them.
    pub rest: &'a [u8],
}

/// How labels follow the name of a sample in one format.
pub trait SampleLabels {
    ghost format: { AnyFormat };

    /// The format.
    fn format() -> Format
        ensures { result ≡ format };

    /// Adds the labels behind a name, and answers what stands behind them.
    fn labels_behind<'a>(
        alloc: Global,
        bytes: &'a [u8],
        labels: &mut Vec<Label>,
    ) -> Result<Option<&'a [u8]>, Memory>
        requires text { IsUtf8 bytes.now }
        requires none { labels.old.items ≡ [] }
        ensures labels { IfOk result (λ rest. option_map (λ cs. (labels.new.items, cs)) (option_copied rest) ≡ labels_behind format bytes.now) }
        ensures utf8 { IfOk result (λ rest. IfSome rest (λ behind. IsUtf8 behind.now)) };
}

/// Reads the head of a sample line, and adds its labels.
fn read_head<'a, L: SampleLabels>(
    alloc: Global,
    bytes: &'a [u8],
    labels: &mut Vec<Label>,
) -> Result<Option<Head<'a>>, Memory>
    requires text { IsUtf8 bytes.now }
    requires none { labels.old.items ≡ [] }
    ensures { IfOk result (λ head. MatchOption head (head_of L.format bytes.now ≡ None) (IsHead L.format bytes.now labels.new.items)) }
{
    let Some(name) = cut_name::<MetricChar>(bytes) else {
        return Ok(None);
    };
    let Some(rest) = L::labels_behind(alloc, name.rest, labels)? else {
        return Ok(None);
    };
    Ok(Some(Head {
        name: name.front,
        front: &bytes[..bytes.len() - rest.len()],
        rest,
    }))
}

/// The head of a sample line, whose labels are read into the room; nothing where none is there. Where the line begins
/// with a front that is known, its labels are not read again.
///
/// # Errors
///
/// Want of memory.
pub fn head_at<'a, L: SampleLabels>(
    alloc: Global,
    bytes: &'a [u8],
    room: &mut LineRoom,
) -> Result<Option<Head<'a>>, Memory>
    requires { IsUtf8 bytes.now }
    ensures { IfOk result (λ head. MatchOption head (head_of L.format bytes.now ≡ None) (IsHeadIn L.format bytes.now room.new)) }
{
    // A line that was refused may have left some.
    room.set = None;
    room.labels.clear();
    match room.fronts.find(L::format(), bytes) {
        Ok(Some((head, set))) => {
            room.set = Some(set);
            Ok(Some(head))
        }
        Ok(None) => read_head::<L>(alloc, bytes, &mut room.labels),
        Err(memory) => Err(memory),
    }
}
