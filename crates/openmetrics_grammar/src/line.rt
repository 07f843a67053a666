//! What a line says (OpenMetrics 1.0, "ABNF": exposition).
ghost use Rattle.page_model.specs.declared.format.Format.TheVariants.{OpenMetrics};

use crate::descriptors::descriptor_line;
use crate::sample::{made_sample, sample_of};
use label_sets::Memory;
use line_scan::{LineRead, LineRoom, behind};
use page_feeding::Grammar;
use page_model::{Format, Rule, Treatment};
use std::alloc::Global;

/// The lines of OpenMetrics.
pub struct OpenLines;

impl Grammar for OpenLines {
    ghost format = { OpenMetrics };

    fn format() -> Format {
        Format::OpenMetrics
    }

    fn read_text(
        alloc: Global,
        treatment: Treatment,
        line: &[u8],
        room: &mut LineRoom,
    ) -> Result<LineRead, Memory> {
        if line.is_empty() {
            return Ok(LineRead::Refused(Rule::Syntax));
        }
        match behind(b'#', line) {
            Some(_) => descriptor_line(alloc, line),
            None => match sample_of(alloc, line, room)? {
                Some(read) => made_sample(alloc, treatment, read, room),
                None => Ok(LineRead::Refused(Rule::Syntax)),
            },
        }
    }
}
