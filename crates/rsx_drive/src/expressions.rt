//! What answers the expressions of an input of expressions and traces.

ghost use Rattle.std.specs.Prelude.{◌≡◌, ◌⊎◌, ℕ, List, Err, OnOk, OnErr, IfErr};
ghost use Rattle.std.specs.String.{string_bytes};
ghost use Rattle.rsx_script.specs.Commands.{expression_of_line};
ghost use Rattle.rsx_drive.specs.Answered.{Grows};
ghost use Rattle.rsx_drive.specs.declared.judge.Style.{Style};

use crate::judge::Style;
use rsx_script::LineRefusal;
use std::alloc::Global;

/// Something that answers the expressions of an input of expressions and traces.
pub trait AnswersExpressions {
    /// The expression that the line with this number is was answered by this text.
    ghost answers: { (style : Style) (number : ℕ) (line text : List ℕ) → Type 0 };

    /// Adds to the text what answers the expression that the line with this number is.
    ///
    /// # Errors
    ///
    /// Why the line is no expression, or `NoMemory`; the text is then as it was.
    fn answer(
        &self,
        alloc: Global,
        style: Style,
        number: u64,
        line: &[u8],
        out: &mut String,
    ) -> Result<(), LineRefusal>
        ensures added { OnOk result (Grows (string_bytes out.old) (string_bytes out.new) (λ more. answers style number line.now more)) }
        ensures same { OnErr result (string_bytes out.new ≡ string_bytes out.old) }
        ensures bad { IfErr result (λ refusal. (refusal ≡ LineRefusal.NoMemory) ⊎ (expression_of_line line.now ≡ Err refusal)) };
}
