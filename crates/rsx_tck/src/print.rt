//! Writing a report as text.

ghost use Rattle.std.specs.Prelude.{◌≡◌, IfOk};
ghost use Rattle.std.specs.String.{string_bytes};
ghost use Rattle.rsx_tck.specs.Report.{IsReportText};

use crate::event::Stamped;
use crate::reports::report;
use rsx_types::NoMemory;
use std::alloc::Global;

/// What a trace says of each rule, as text: 43 lines in the order of the rules, each with its newline, as
/// `1.1 broken at 6`, `1.3 held` or `1.2 not judged: permits`. Its time is that of [`report`].
///
/// # Errors
///
/// `NoMemory` where a growth was refused, and only there.
pub fn print_report(alloc: Global, trace: &[Stamped]) -> Result<String, NoMemory>
    ensures { IfOk result (λ text. IsReportText trace.now (string_bytes text)) }
{
    let mut text = String::new(alloc);
    for (rule, verdict) in &report(trace) {
        writeln!(text, "{rule} {verdict}")?;
    }
    Ok(text)
}
