//! The slow evaluator over the demonstration's items: the worked values, those under choices, and each refusal.

use rsx_demo::{Demo, Val};
use rsx_model::{BadExpr, Expr, ScratchRefusal, nodes_of, scratch};
use rsx_types::{Choices, NoMemory, Note, Stage, StreamValue};
use std::alloc::Global;
use std::test::Fail;

const INC: u16 = 1;

const DOUBLE: u16 = 2;

const POSITIVE: u16 = 2;

const LARGER: u16 = 2;

const MOD_3: u16 = 1;

/// A plain operator over an expression.
fn plain(alloc: Global, stage: Stage<Val>, below: Expr<Val>) -> Result<Expr<Val>, NoMemory> {
    Ok(Expr::Plain(stage, Box::new(alloc, below)?))
}

/// The list of these numbers.
fn numbers(alloc: Global, numbers: &[i64]) -> Result<Expr<Val>, NoMemory> {
    let mut items = Vec::new(alloc);
    for number in numbers {
        items.push(Val::Int(*number))?;
    }
    Ok(Expr::Items(items))
}

/// The value of an expression that reads no hub. Where a growth is refused, the evaluator is called once more.
fn value(alloc: Global, expr: &Expr<Val>) -> Result<StreamValue<Val>, Fail> {
    let notes = notes_of(alloc, false, nodes_of(expr))?;
    match scratch(alloc, &Demo, expr, &[], &[], notes.as_slice()) {
        Err(ScratchRefusal::NoMemory) => {
            Ok(scratch(alloc, &Demo, expr, &[], &[], notes.as_slice())?)
        }
        answer => Ok(answer?),
    }
}

/// Whether the value of an expression is printed as this text: its items, and how it ends.
fn has_value(alloc: Global, expr: &Expr<Val>, text: &str) -> Result<bool, Fail> {
    let value = value(alloc, expr)?;
    let shown = format!(in alloc; "{:?} {:?}", value.items(), value.ending())?;
    Ok(shown.as_str() == text)
}

/// An operator, with the number of its function, its size or its seed.
#[derive(Clone, Copy)]
enum Operator {
    Map(u16),
    Filter(u16),
    Take(u64),
    Scan(u16, i64),
    Buffer(u64),
    Distinct(u16),
}

impl Operator {
    fn stage(self) -> Stage<Val> {
        match self {
            Operator::Map(f) => Stage::Map(f),
            Operator::Filter(f) => Stage::Filter(f),
            Operator::Take(count) => Stage::Take(count),
            Operator::Scan(f, seed) => Stage::Scan(f, Val::Int(seed)),
            Operator::Buffer(size) => Stage::Buffer(size),
            Operator::Distinct(f) => Stage::Distinct(f),
        }
    }
}

/// Operators, the first one innermost, over these numbers, with the text of the value. What `inc` makes of the numbers of the last rows is
/// 1 and 2, and then a failure.
const VALUES: [(&[Operator], &[i64], &str); 16] = [
    (&[Operator::Map(DOUBLE)], &[1, 2, 3], "[2, 4, 6] Done"),
    (
        &[Operator::Map(INC)],
        &[1, i64::MAX, 3],
        "[2] Failed(Function(1))",
    ),
    (&[Operator::Filter(POSITIVE)], &[-1, 0, 7], "[7] Done"),
    (&[Operator::Take(0)], &[4, 1], "[] Done"),
    (&[Operator::Take(2)], &[4, 1, 2], "[4, 1] Done"),
    (
        &[Operator::Buffer(2)],
        &[4, 1, 2, 7, 3],
        "[[4 1], [2 7], [3]] Done",
    ),
    (
        &[Operator::Distinct(MOD_3)],
        &[4, 1, 2, 7, 3],
        "[4, 2, 3] Done",
    ),
    (&[Operator::Distinct(9)], &[4], "[] Failed(Function(4))"),
    (
        &[Operator::Scan(LARGER, 2)],
        &[4, 1, 7],
        "[2, 4, 4, 7] Done",
    ),
    (&[Operator::Scan(9, 100)], &[4], "[100] Failed(Function(4))"),
    (
        &[Operator::Map(INC), Operator::Scan(LARGER, 5)],
        &[0, 1, i64::MAX],
        "[5, 5, 5] Failed(Function(1))",
    ),
    (
        &[Operator::Map(INC), Operator::Take(2)],
        &[0, 1, i64::MAX],
        "[1, 2] Done",
    ),
    (
        &[Operator::Map(INC), Operator::Take(3)],
        &[0, 1, i64::MAX],
        "[1, 2] Failed(Function(1))",
    ),
    (
        &[Operator::Map(INC), Operator::Buffer(2)],
        &[0, 1, i64::MAX],
        "[[1 2]] Failed(Function(1))",
    ),
    (
        &[Operator::Map(INC), Operator::Buffer(3)],
        &[0, 1, i64::MAX],
        "[] Failed(Function(1))",
    ),
    (
        &[Operator::Map(INC), Operator::Distinct(MOD_3)],
        &[0, 1, i64::MAX],
        "[1, 2] Failed(Function(1))",
    ),
];

/// These operators, the first one innermost, over these numbers.
fn over(alloc: Global, operators: &[Operator], items: &[i64]) -> Result<Expr<Val>, NoMemory> {
    let mut expr = numbers(alloc, items)?;
    for operator in operators {
        expr = plain(alloc, operator.stage(), expr)?;
    }
    Ok(expr)
}

#[test]
fn gives_the_worked_values(rt: HostRuntime) -> Result<(), Fail> {
    let alloc = rt.alloc();
    for (operators, items, text) in &VALUES {
        let expr = over(alloc, operators, items)?;
        assert!(rt; has_value(alloc, &expr, text)?, "{text}");
    }
    let largest = "[9223372036854775806, 9223372036854775807] Done";
    assert!(rt; has_value(alloc, &Expr::Range(i64::MAX - 1, 2), largest)?);
    Ok(())
}

/// Whether an expression has no value with these joins and notes, and the refusal is printed as this text.
fn is_refused(
    alloc: Global,
    expr: &Expr<Val>,
    joins: &[u64],
    notes: &[Note],
    text: &str,
) -> Result<bool, NoMemory> {
    let Err(refusal) = scratch(alloc, &Demo, expr, &[], joins, notes) else {
        return Ok(false);
    };
    let shown = format!(in alloc; "{}: {refusal}", refusal.name())?;
    Ok(shown.as_str() == text)
}

/// The length of a range, how many joins and how many empty notes of picks and of nothing are given for it, and why it has no value.
const REFUSALS: [(u64, &[u64], bool, u64, &str); 4] = [
    (5, &[], true, 0, UNFIT),
    (5, &[], false, 0, UNFIT),
    (5, &[0], false, 1, UNFIT),
    (
        1_000_001,
        &[],
        false,
        0,
        "M1: bad expression: a number is out of its limit",
    ),
];

const UNFIT: &str = "M2: the notes or the joins do not fit the expression";

/// A note of no picks, if that is asked for, and so many notes of nothing.
fn notes_of(alloc: Global, has_picks: bool, count: u64) -> Result<Vec<Note>, NoMemory> {
    let mut notes = Vec::new(alloc);
    if has_picks {
        notes.push(Note::Picks(Choices::new(Vec::new(alloc))))?;
    }
    for _ in 0..count {
        notes.push(Note::Nothing)?;
    }
    Ok(notes)
}

#[test]
fn names_each_refusal(rt: HostRuntime) -> Result<(), Fail> {
    let alloc = rt.alloc();
    for (length, joins, has_picks, count, text) in &REFUSALS {
        let notes = notes_of(alloc, *has_picks, *count)?;
        let range = Expr::Range(1, *length);
        assert!(rt; is_refused(alloc, &range, joins, &notes, text)?, "{length}");
    }
    Ok(())
}

/// `publishOnEager` over 2, 3 and a failure.
fn eager(alloc: Global) -> Result<Expr<Val>, NoMemory> {
    let items = numbers(alloc, &[1, 2, i64::MAX])?;
    let failing = plain(alloc, Stage::Map(INC), items)?;
    Ok(Expr::OnEager(0, 4, Box::new(alloc, failing)?))
}

/// Whether the value of one of these under these choices is printed as this text, or the name of the refusal is.
fn is_chosen(
    alloc: Global,
    expr: &Expr<Val>,
    choices: &[u64],
    text: &str,
) -> Result<bool, NoMemory> {
    let mut picks = Vec::new(alloc);
    for choice in choices {
        picks.push(*choice)?;
    }
    let mut notes = Vec::new(alloc);
    notes.push(Note::Picks(Choices::new(picks)))?;
    notes.push(Note::Nothing)?;
    notes.push(Note::Nothing)?;
    let shown = match scratch(alloc, &Demo, expr, &[], &[], notes.as_slice()) {
        Ok(value) => format!(in alloc; "{:?} {:?}", value.items(), value.ending())?,
        Err(refusal) => format!(in alloc; "{}", refusal.name())?,
    };
    Ok(shown.as_str() == text)
}

/// `merge` of 1 and 2, and of 3.
fn merged(alloc: Global) -> Result<Expr<Val>, NoMemory> {
    let mut inputs = Vec::new(alloc);
    inputs.push(numbers(alloc, &[1, 2])?)?;
    inputs.push(numbers(alloc, &[3])?)?;
    Ok(Expr::Merge(4, inputs))
}

/// `combineLatest` of 1 and 2, and of no item.
fn latest(alloc: Global) -> Result<Expr<Val>, NoMemory> {
    let mut inputs = Vec::new(alloc);
    inputs.push(numbers(alloc, &[1, 2])?)?;
    inputs.push(numbers(alloc, &[])?)?;
    Ok(Expr::Latest(4, inputs))
}

/// Choices of a `publishOnEager`, with the text of the value under them.
const EAGER: [(&[u64], &str); 10] = [
    (&[], "[2, 3] Failed(Function(1))"),
    (&[0], "[2, 3] Failed(Function(1))"),
    (&[0, 0], "[2, 3] Failed(Function(1))"),
    (&[1], "[] Failed(Function(1))"),
    (&[0, 1], "[2] Failed(Function(1))"),
    (&[0, 0, 1], "[2, 3] Failed(Function(1))"),
    (&[0, 0, 0], "M2"),
    (&[1, 0], "M2"),
    (&[0, 1, 1], "M2"),
    (&[2], "M2"),
];

/// Choices of a `merge`. The second input has no third signal, and there is no third input.
const MERGED: [(&[u64], &str); 4] = [
    (&[1, 0], "[3, 1, 2] Done"),
    (&[], "[1, 2, 3] Done"),
    (&[1, 1, 1], "M2"),
    (&[2], "M2"),
];

/// Choices of a `combineLatest`. The completion of the second input ends the rows, and a choice behind it has only to find a signal:
/// the first input has three.
const LATEST: [(&[u64], &str); 6] = [
    (&[], "[] Done"),
    (&[1], "[] Done"),
    (&[0, 1, 0], "[] Done"),
    (&[1, 0, 0, 0], "[] Done"),
    (&[1, 0, 0, 0, 0], "M2"),
    (&[1, 1], "M2"),
];

#[test]
fn values_follow_choices(rt: HostRuntime) -> Result<(), Fail> {
    let alloc = rt.alloc();
    let expr = eager(alloc)?;
    for (choices, text) in &EAGER {
        assert!(rt; is_chosen(alloc, &expr, choices, text)?, "{text}");
    }
    let expr = merged(alloc)?;
    for (choices, text) in &MERGED {
        assert!(rt; is_chosen(alloc, &expr, choices, text)?, "{text}");
    }
    let expr = latest(alloc)?;
    for (choices, text) in &LATEST {
        assert!(rt; is_chosen(alloc, &expr, choices, text)?, "{text}");
    }
    Ok(())
}

/// Whether a kind of bad expression has this number and this text.
fn is_kind(alloc: Global, kind: BadExpr, text: &str) -> Result<bool, NoMemory> {
    let shown = format!(in alloc; "{}: {kind}", kind.number())?;
    Ok(shown.as_str() == text)
}

/// The kinds of bad expressions, with the number and the text of each.
const LIMITS: [(BadExpr, &str); 6] = [
    (BadExpr::Depth, "1: the expression is deeper than 32 nodes"),
    (BadExpr::Nodes, "2: the expression has more than 256 nodes"),
    (BadExpr::Inputs, "3: a node has no inputs, or more than 16"),
    (BadExpr::Number, "4: a number is out of its limit"),
    (BadExpr::Hub, "6: no such hub"),
    (BadExpr::Length, "7: a list has more than 1024 items"),
];

#[test]
fn prints_each_limit(rt: HostRuntime) -> Result<(), Fail> {
    for (kind, text) in &LIMITS {
        assert!(rt; is_kind(rt.alloc(), *kind, text)?, "{text}");
    }
    Ok(())
}
