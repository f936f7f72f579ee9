//! What answers the lines of an input.

ghost use Rattle.std.specs.Prelude.{◌≡◌, ◌≤◌, ◌<◌, ℕ, List, [], ◌∷◌, ◌++◌, length, OnOk, OnErr, IfErr};
ghost use Rattle.std.specs.String.{string_bytes};
ghost use Rattle.rsx_script.specs.declared.words.LineRefusal.{LineRefusal};
ghost use Rattle.rsx_script.specs.declared.words.LineRefusal.TheVariants.{TooLong, NoMemory};
ghost use Rattle.rsx_drive.specs.Answered.{Grows};

use rsx_script::LineRefusal;
use std::alloc::Global;

/// Something that answers the lines of an input, one after the other.
pub trait Answers {
    /// The lines so far were answered by this text.
    ghost stands: { (state : Self) (lines : List (List ℕ)) (text : List ℕ) → Type 0 };

    /// An input of these lines is whole, and was answered by this text.
    ghost ends: { (lines : List (List ℕ)) (text : List ℕ) → Type 0 };

    /// After these lines, which were answered by this text, the others can't be read, for this reason.
    ghost refuses: { (lines : List (List ℕ)) (text : List ℕ) (others : List (List ℕ)) (refusal : LineRefusal) → Type 0 };

    /// Answers the next line, which stands without its newline, and adds the answer to `out`.
    ///
    /// # Errors
    ///
    /// Why the line can't be read, or `NoMemory`; `out` is then as it was, and no further line may be answered.
    fn answer(&mut self, alloc: Global, line: &[u8], out: &mut String) -> Result<(), LineRefusal>
        requires { length line.now ≤ 4096 }
        ensures answered { OnOk result ((lines : List (List ℕ)) (text : List ℕ) → stands self.old lines text →
            Grows (string_bytes out.old) (string_bytes out.new) (λ more. stands self.new (lines ++ line.now ∷ []) (text ++ more))) }
        ensures refused { IfErr result (λ refusal. (lines : List (List ℕ)) (text : List ℕ) (others : List (List ℕ)) →
            stands self.old lines text → refuses lines text (line.now ∷ others) refusal) }
        ensures same { OnErr result (string_bytes out.new ≡ string_bytes out.old) };

    /// Whether the input may end here.
    ///
    /// # Errors
    ///
    /// Why it may not.
    fn finish(&self) -> Result<(), LineRefusal>
        ensures ended { OnOk result ((lines : List (List ℕ)) (text : List ℕ) → stands self.now lines text → ends lines text) }
        ensures refused { IfErr result (λ refusal. (lines : List (List ℕ)) (text : List ℕ) →
            stands self.now lines text → refuses lines text [] refusal) };

    /// A line of more than 4,096 bytes is too long.
    ghost too_long: { (state : Self) (lines : List (List ℕ)) (text line : List ℕ) (others : List (List ℕ)) →
        4096 < length line → stands state lines text → refuses lines text (line ∷ others) TooLong };

    /// Memory may be wanted anywhere.
    ghost wanting: { (state : Self) (lines : List (List ℕ)) (text : List ℕ) (others : List (List ℕ)) →
        stands state lines text → refuses lines text others NoMemory };

    /// So it may be behind the last line.
    ghost wanting_last: { (lines : List (List ℕ)) (text : List ℕ) → ends lines text → refuses lines text [] NoMemory };
}
