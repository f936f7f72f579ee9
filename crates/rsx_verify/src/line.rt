//! The lines of a report on several runs.

ghost use Rattle.std.specs.Prelude.{◌≡◌, IfOk};
ghost use Rattle.std.specs.String.{string_bytes};
ghost use Rattle.rsx_verify.specs.Texts.{lines_text};

use rsx_tck::{Rule, Verdict};
use rsx_types::NoMemory;
use std::alloc::Global;
use std::fmt;

/// What several runs say of a rule.
#[derive(Clone, Copy, Debug, PartialEq, Eq)]
pub struct Line {
    /// The rule.
    pub rule: Rule,
    /// The number of the first run that breaks the rule, counted from 1; 0 where none does.
    pub run: u32,
    /// What that run says of the rule; what the first run says of it where none breaks it.
    pub verdict: Verdict,
}

/// `1.1 held`, `1.1 broken in run 2 at 5`, `1.2 not judged: permits`.
impl fmt::Display for Line {
    ghost use Rattle.std.specs.Prelude.{Some};
    ghost use Rattle.rsx_verify.specs.Texts.{line_text};

    ghost output = { λ line. Some (line_text line) };

    fn fmt<W: fmt::Write>(&self, f: &mut fmt::Formatter<W>) -> fmt::Result {
        let rule = self.rule;
        match self.verdict {
            Verdict::Held => write!(f, "{rule} held"),
            Verdict::Broken(position) => {
                let run = self.run;
                write!(f, "{rule} broken in run {run} at {position}")
            }
            Verdict::NotJudged(class) => write!(f, "{rule} not judged: {class}"),
        }
    }
}

/// These lines as text, each with its newline, as `1.3 held`, `1.1 broken in run 2 at 5` or `1.2 not judged: permits`.
///
/// # Errors
/// `NoMemory` where a growth was refused, and only there.
pub fn print_lines(alloc: Global, lines: &[Line]) -> Result<String, NoMemory>
    ensures { IfOk result (λ text. string_bytes text ≡ lines_text lines.now) }
{
    let mut text = String::new(alloc);
    for line in lines {
        writeln!(text, "{line}")?;
    }
    Ok(text)
}
