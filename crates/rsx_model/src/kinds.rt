//! The kinds of notes that the nodes of an expression record.

ghost use Rattle.std.specs.Prelude.{◌≡◌, true, false, map, Some, option_copied};
ghost use Rattle.rsx_model.specs.Kinds.{is_of_kind, behind_all, behind_notes, AreNoted};
ghost use Rattle.rsx_model.specs.declared.expr.Expr.TheViews.{out-Expr};

use crate::{Below, Expr, below_of};
use rsx_types::Note;

/// Whether there are as many notes as nodes, each of the kind that its node records. It takes no memory.
pub(crate) fn are_noted<T>(expr: &Expr<T>, notes: &[Note]) -> bool
    ensures yes { result ≡ true → AreNoted expr.now notes.now }
    ensures no { AreNoted expr.now notes.now → result ≡ true }
{
    match notes_behind(expr, notes) {
        Some(rest) => rest.is_empty(),
        None => false,
    }
}

/// The notes behind those of the expression, which are the first; none where one is missing or of another kind.
#[cycle(notes)]
fn notes_behind<'n, T>(expr: &Expr<T>, notes: &'n [Note]) -> Option<&'n [Note]>
    ensures { option_copied result ≡ behind_notes expr.now notes.now }
{
    let (note, rest) = notes.split_first()?;
    if !records(expr, note) {
        return None;
    }
    match below_of(expr) {
        Below::One(input) => notes_behind(input, rest),
        Below::Inputs(inputs) => notes_behind_all(inputs, rest),
    }
}

/// The notes behind those of the inputs, one behind the other.
#[cycle(notes)]
fn notes_behind_all<'n, T>(inputs: &[Expr<T>], notes: &'n [Note]) -> Option<&'n [Note]>
    ensures { option_copied result ≡ behind_all (map behind_notes inputs.now) notes.now }
{
    let mut rest = notes;
    for input in inputs {
        rest = notes_behind(input, rest)?;
    }
    Some(rest)
}

/// Whether a note is of the kind that this node records.
fn records<T>(expr: &Expr<T>, note: &Note) -> bool
    ensures { result ≡ is_of_kind (out-Expr T expr.now) note.now }
{
    match expr {
        Expr::Items(_) | Expr::Range(_, _) | Expr::Hub(_) | Expr::Plain(_, _) | Expr::Concat(_) => {
            matches!(note, Note::Nothing)
        }
        Expr::Merge(_, _) | Expr::MergeDelay(_, _) => matches!(note, Note::Picks(_)),
        Expr::Latest(_, _) => matches!(note, Note::Picks(_)),
        Expr::Group(_, _, _) | Expr::Flat(_, _, _, _) => matches!(note, Note::Picks(_)),
        Expr::FlatDelay(_, _, _, _) => matches!(note, Note::Picks(_)),
        Expr::OnEager(_, _, _) => matches!(note, Note::Picks(_)),
        Expr::Zip(_, _) => matches!(note, Note::Ended(_)),
        Expr::Window(_, _, _) | Expr::On(_, _, _) => matches!(note, Note::Nothing),
    }
}
