//! What answers a trace, or an expression that isn't run, as text.

ghost use Rattle.std.specs.Prelude.{◌≡◌, ◌++◌, OnOk, IfOk};
ghost use Rattle.std.specs.String.{string_bytes};
ghost use Rattle.rsx_drive.specs.Judged.{IsTraceAnswer, reason_text, refused_text, title_text};

use crate::judge::Style;
use rsx_model::BadExpr;
use rsx_tck::{Stamped, print_explained, print_report};
use rsx_types::NoMemory;
use std::alloc::Global;

/// Adds to the text what begins an answer that explains: what is answered, and the number of its first line.
///
/// # Errors
///
/// `NoMemory` where a growth was refused.
pub fn add_title(what: &str, number: u64, out: &mut String) -> Result<(), NoMemory>
    ensures { OnOk result (string_bytes out.new ≡ string_bytes out.old ++ title_text what.now number) }
{
    write!(out, "{what} at line {number}: ")?;
    Ok(())
}

/// Why an expression isn't run, in plain words.
fn reason(kind: BadExpr) -> &'static str
    ensures { result.now ≡ reason_text kind }
{
    match kind {
        BadExpr::Depth => "it is deeper than 32 nodes",
        BadExpr::Nodes => "it has more than 256 nodes",
        BadExpr::Inputs => "an operator has more than 16 inputs",
        BadExpr::Number => "a number is out of its limit",
        BadExpr::Chain => {
            "a chain has more than 8 operators, or one with a number out of its limit"
        }
        BadExpr::Hub => "it reads a hub, and none is there",
        BadExpr::Length => "a list has more than 1024 items",
    }
}

/// What answers the expression on the line with this number, which isn't run for this reason.
///
/// # Errors
///
/// `NoMemory` where a growth was refused.
pub fn refusal_text(
    alloc: Global,
    style: Style,
    number: u64,
    kind: BadExpr,
) -> Result<String, NoMemory>
    ensures { IfOk result (λ text. string_bytes text ≡ refused_text style number kind) }
{
    match style {
        Style::Plain => Ok(String::from_str(alloc, "refused M1\n")?),
        Style::Explained => explained_refusal(alloc, number, kind),
    }
}

/// The same where it is explained.
fn explained_refusal(alloc: Global, number: u64, kind: BadExpr) -> Result<String, NoMemory>
    ensures { IfOk result (λ text. string_bytes text ≡ refused_text Style.Explained number kind) }
{
    let mut text = String::new(alloc);
    add_title("expression", number, &mut text)?;
    let reason = reason(kind);
    write!(text, "refused M1, {reason}\n")?;
    Ok(text)
}

/// What answers a trace whose first line has this number.
///
/// # Errors
///
/// `NoMemory` where a growth was refused.
pub fn report_text(
    alloc: Global,
    style: Style,
    number: u64,
    trace: &[Stamped],
) -> Result<String, NoMemory>
    ensures { IfOk result (λ text. IsTraceAnswer style number trace.now (string_bytes text)) }
{
    match style {
        Style::Plain => print_report(alloc, trace),
        Style::Explained => explained_report(alloc, number, trace),
    }
}

/// The same where it is explained.
fn explained_report(alloc: Global, number: u64, trace: &[Stamped]) -> Result<String, NoMemory>
    ensures { IfOk result (λ text. IsTraceAnswer Style.Explained number trace.now (string_bytes text)) }
{
    let report = print_explained(alloc, trace, number)?;
    let mut text = String::new(alloc);
    add_title("trace", number, &mut text)?;
    text.push_str(report.as_str())?;
    Ok(text)
}
