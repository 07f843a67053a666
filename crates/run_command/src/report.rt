//! The report of a run.
ghost use Rattle.std.specs.Prelude.{◌≡◌, ◌++◌, IfOk};
ghost use Rattle.run_report.specs.Reports.{report_text, served_line};
ghost use Rattle.run_report.specs.Ends.{some_halted};

use label_sets::Memory;
use run_report::{push_report, push_served, some_halted};
use std::alloc::Global;
use world_run::RunEnd;

/// The report of a run.
#[derive(Drop)]
pub struct Report {
    /// A line for each target in the order of the configuration, one for all of them, and one for the pages that were
    /// served.
    pub text: Vec<u8>,
    /// Whether some target found no memory, so that visits of it are missing.
    pub halted: bool,
}

/// The lines of a report.
fn lines(alloc: Global, end: &RunEnd) -> Result<Vec<u8>, Memory>
    ensures { IfOk result (λ text. text.items ≡ report_text end.now.targets.items ++ served_line end.now.served) }
{
    let mut text = Vec::new(alloc);
    push_report(&mut text, end.targets.as_slice())?;
    push_served(&mut text, end.served)?;
    Ok(text)
}

/// The report of a run that is over.
pub(crate) fn report_of(alloc: Global, end: &RunEnd) -> Result<Report, Memory>
    ensures text { IfOk result (λ report. report.text.items ≡ report_text end.now.targets.items ++ served_line end.now.served) }
    ensures halted { IfOk result (λ report. report.halted ≡ some_halted end.now.targets.items) }
{
    let text = lines(alloc, end)?;
    Ok(Report {
        text,
        halted: some_halted(end.targets.as_slice()),
    })
}
