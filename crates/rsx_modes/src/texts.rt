//! What answers an expression that was run, as text.

ghost use Rattle.std.specs.Prelude.{◌≡◌, IfOk};
ghost use Rattle.std.specs.String.{string_bytes};
ghost use Rattle.rsx_modes.specs.Judged.{summary_of_runs, verified_text};

use rsx_drive::{Style, add_title};
use rsx_tck::Summary;
use rsx_types::NoMemory;
use rsx_verify::{Line, print_lines};
use std::alloc::Global;

/// How many rules these lines on the runs of an expression find held, and how many they find broken.
fn summary_of_runs(lines: &[Line]) -> Summary
    ensures { result ≡ summary_of_runs lines.now }
{
    let held = lines.iter().filter(|line| line.verdict.is_held()).count();
    let broken = lines.iter().filter(|line| line.verdict.is_broken()).count();
    Summary {
        held: held as u64,
        broken: broken as u64,
    }
}

/// What answers the expression on the line with this number, of which these are the lines on its runs.
///
/// # Errors
///
/// `NoMemory` where a growth was refused.
pub fn runs_text(
    alloc: Global,
    style: Style,
    number: u64,
    lines: &[Line],
) -> Result<String, NoMemory>
    ensures { IfOk result (λ text. string_bytes text ≡ verified_text style number lines.now) }
{
    match style {
        Style::Plain => print_lines(alloc, lines),
        Style::Explained => explained_runs(alloc, number, lines),
    }
}

/// The same where it is explained.
fn explained_runs(alloc: Global, number: u64, lines: &[Line]) -> Result<String, NoMemory>
    ensures { IfOk result (λ text. string_bytes text ≡ verified_text Style.Explained number lines.now) }
{
    let mut text = String::new(alloc);
    add_title("expression", number, &mut text)?;
    summary_of_runs(lines).add_to(&mut text)?;
    Ok(text)
}
