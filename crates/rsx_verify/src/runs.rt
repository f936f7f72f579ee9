//! The runs by which an expression is verified.

ghost use Rattle.std.specs.Prelude.{◌≡◌, None, IfOk, IfErr, OnOk};
ghost use Rattle.rsx_model.specs.Check.{refusal};
ghost use Rattle.rsx_verify.specs.Kept.{AreKept};
ghost use Rattle.rsx_verify.specs.Refusals.{IsVerifyRefusal};
ghost use Rattle.rsx_verify.specs.Reports.{AreUnbroken, AreVerified, publisher_acts, cancel_acts, bad_request_acts, processor_acts};
ghost use Rattle.rsx_verify.specs.Runs.{IsProcessed, IsRecorded};

use crate::act::Act;
use crate::line::Line;
use crate::recording::{process, record};
use crate::refusal::VerifyRefusal;
use crate::reports::judge_runs;
use rsx_model::Expr;
use rsx_tck::Stamped;
use rsx_types::{Ops, SubId};
use std::alloc::Global;

/// The first subscriber of a run.
const FIRST: SubId = SubId(0);

/// The second one.
const SECOND: SubId = SubId(1);

/// The events of the first run: the subscriber requests one item, and then all that there are.
///
/// # Errors
/// Those of [`record`].
pub fn publisher_run<O: Ops>(
    alloc: Global,
    ops: O,
    expr: &Expr<O::Item>,
) -> Result<Vec<Stamped>, VerifyRefusal>
    ensures admitted { OnOk result (refusal 0 expr.now ≡ None) }
    ensures recorded { IfOk result (λ events. IsRecorded (O.meaning ops) expr.now publisher_acts events.items) }
    ensures kept { IfOk result (λ events. AreKept events.items) }
    ensures err { IfErr result (λ r. IsVerifyRefusal expr.now r) }
{
    let acts = [
        Act::Request(FIRST, 1),
        Act::Pump,
        Act::Request(FIRST, i64::MAX),
        Act::Pump,
    ];
    record(alloc, ops, expr, &acts)
}

/// The events of the second run: the subscriber requests one item, cancels, and then requests five.
///
/// # Errors
/// Those of [`record`].
pub fn cancel_run<O: Ops>(
    alloc: Global,
    ops: O,
    expr: &Expr<O::Item>,
) -> Result<Vec<Stamped>, VerifyRefusal>
    ensures recorded { IfOk result (λ events. IsRecorded (O.meaning ops) expr.now cancel_acts events.items) }
    ensures kept { IfOk result (λ events. AreKept events.items) }
    ensures err { IfErr result (λ r. IsVerifyRefusal expr.now r) }
{
    let acts = [
        Act::Request(FIRST, 1),
        Act::Pump,
        Act::Cancel(FIRST),
        Act::Request(FIRST, 5),
        Act::Pump,
    ];
    record(alloc, ops, expr, &acts)
}

/// The events of the third run: the subscriber requests 0 items, and then -1.
///
/// # Errors
/// Those of [`record`].
pub fn bad_request_run<O: Ops>(
    alloc: Global,
    ops: O,
    expr: &Expr<O::Item>,
) -> Result<Vec<Stamped>, VerifyRefusal>
    ensures recorded { IfOk result (λ events. IsRecorded (O.meaning ops) expr.now bad_request_acts events.items) }
    ensures kept { IfOk result (λ events. AreKept events.items) }
    ensures err { IfErr result (λ r. IsVerifyRefusal expr.now r) }
{
    let acts = [
        Act::Request(FIRST, 0),
        Act::Pump,
        Act::Request(FIRST, -1),
        Act::Pump,
    ];
    record(alloc, ops, expr, &acts)
}

/// The events of the fourth run, of two subscribers of a hub that the expression feeds: each requests three items, the first cancels,
/// and the second requests all that there are.
///
/// # Errors
/// Those of [`record`].
pub fn processor_run<O: Ops>(
    alloc: Global,
    ops: O,
    expr: &Expr<O::Item>,
) -> Result<Vec<Stamped>, VerifyRefusal>
    ensures recorded { IfOk result (λ events. IsProcessed (O.meaning ops) expr.now processor_acts events.items) }
    ensures kept { IfOk result (λ events. AreKept events.items) }
    ensures err { IfErr result (λ r. IsVerifyRefusal expr.now r) }
{
    let acts = [
        Act::Request(FIRST, 3),
        Act::Request(SECOND, 3),
        Act::Pump,
        Act::Cancel(FIRST),
        Act::Request(SECOND, i64::MAX),
        Act::Pump,
    ];
    process(alloc, ops, expr, &acts)
}

/// What the four runs of an expression say of the rules: a line for each of the 43, in their order. A line has the number
/// of the first run that breaks the rule and what that run says of it, or 0 and what the first run says of it. None of the
/// lines is broken: each has the number 0, and the 13 rules that are judged are held.
///
/// # Errors
/// M1 exactly where the expression goes past a limit or reads a hub, else M3 where a growth was refused.
pub fn verify<O: Ops>(
    alloc: Global,
    ops: O,
    expr: &Expr<O::Item>,
) -> Result<[Line; 43], VerifyRefusal>
    ensures admitted { OnOk result (refusal 0 expr.now ≡ None) }
    ensures verified { IfOk result (λ lines. AreVerified (O.meaning ops) expr.now lines) }
    ensures unbroken { IfOk result (λ lines. AreUnbroken lines) }
    ensures err { IfErr result (λ r. IsVerifyRefusal expr.now r) }
{
    let publisher = publisher_run(alloc, ops, expr)?;
    let cancel = cancel_run(alloc, ops, expr)?;
    let bad_request = bad_request_run(alloc, ops, expr)?;
    let processor = processor_run(alloc, ops, expr)?;
    Ok(judge_runs(&publisher, &cancel, &bad_request, &processor))
}
