//! Answers an expression by what its runs say of the rules.

ghost use Rattle.std.specs.Prelude.{◌≡◌, OnOk, OnErr, IfOk, IfErr};
ghost use Rattle.std.specs.String.{string_bytes};
ghost use Rattle.rsx_drive.specs.Answered.{Grows};
ghost use Rattle.rsx_modes.specs.Judged.{IsExpressionAnswer, IsLineAnswer};

use crate::texts::runs_text;
use rsx_demo::{Demo, Val};
use rsx_drive::{AnswersExpressions, Style, refusal_text};
use rsx_model::Expr;
use rsx_script::{LineRefusal, parse_expr};
use rsx_types::NoMemory;
use rsx_verify::{VerifyRefusal, verify};
use std::alloc::Global;

/// What answers an expression, which stands on the line with this number.
fn answer_of(alloc: Global, style: Style, number: u64, expr: &Expr<Val>) -> Result<String, NoMemory>
    ensures { IfOk result (λ text. IsExpressionAnswer style number expr.now (string_bytes text)) }
{
    match verify(alloc, Demo, expr) {
        Ok(lines) => runs_text(alloc, style, number, &lines),
        Err(VerifyRefusal::BadExpr(kind)) => refusal_text(alloc, style, number, kind),
        Err(VerifyRefusal::NoMemory) => Err(NoMemory),
    }
}

/// Adds to the text what answers an expression, which stands on the line with this number: what its runs say of the rules, or,
/// where it goes past a limit or reads a hub, that it is refused.
///
/// # Errors
///
/// `NoMemory` where a growth was refused; the text is then as it was.
fn add_answer(
    alloc: Global,
    style: Style,
    number: u64,
    expr: &Expr<Val>,
    out: &mut String,
) -> Result<(), LineRefusal>
    ensures added { OnOk result (Grows (string_bytes out.old) (string_bytes out.new) (λ more. IsExpressionAnswer style number expr.now more)) }
    ensures same { OnErr result (string_bytes out.new ≡ string_bytes out.old) }
    ensures memory { IfErr result (λ refusal. refusal ≡ LineRefusal.NoMemory) }
{
    let Ok(text) = answer_of(alloc, style, number, expr) else {
        return Err(LineRefusal::NoMemory);
    };
    match out.push_str(text.as_str()) {
        Ok(()) => Ok(()),
        Err(_) => Err(LineRefusal::NoMemory),
    }
}

/// Answers an expression by what its runs say of the rules.
#[derive(Drop)]
pub(crate) struct Runs;

impl AnswersExpressions for Runs {
    ghost answers = { IsLineAnswer };

    fn answer(
        &self,
        alloc: Global,
        style: Style,
        number: u64,
        line: &[u8],
        out: &mut String,
    ) -> Result<(), LineRefusal> {
        match parse_expr(alloc, line) {
            Ok(expr) => match add_answer(alloc, style, number, &expr, out) {
                Ok(()) => Ok(()),
                Err(refusal) => Err(refusal),
            },
            Err(refusal) => Err(refusal),
        }
    }
}
