//! The texts of what callers get back, and the example of a rule table.

use rsx_demo::{Demo, Val};
use rsx_rules::example::{Effect, Touch, Turnstile, turn};
use rsx_subscription::Refusal::{AfterEnd, OutOfTurn, Overrun, Twice};
use rsx_types::{Ending, Fault, NoMemory, Ops, StreamValue};
use std::alloc::Global;
use std::test::Fail;

/// Whether the completed value of a list in a list is printed as this text, and the list by `{}` as that one.
fn is_shown(alloc: Global, text: &str, list: &str) -> Result<bool, NoMemory> {
    let tagged = Demo.tag(alloc, u64::MAX, &Demo.from_i64(alloc, 3)?)?;
    let whole = Demo.list(alloc, &[Val::Int(5), tagged])?;
    let as_list = format!(in alloc; "{whole}")?;
    let value = StreamValue::new(vec![in alloc; whole]?, Ending::Done);
    let as_value = format!(in alloc; "{value:?}")?;
    Ok(as_value.as_str() == text && as_list.as_str() == list)
}

#[test]
fn values_have_texts(rt: HostRuntime) -> Result<(), NoMemory> {
    let text = "StreamValue { items: [[5 [-1 3]]], ending: Done }";
    assert!(rt; is_shown(rt.alloc(), text, "[5 [-1 3]]")?);
    Ok(())
}

#[test]
fn faults_have_texts(rt: HostRuntime) -> Result<(), Fail> {
    let faults = format!(in rt.alloc(); "{}; {}; {NoMemory}", Fault::Code(3), Fault::Memory)?;
    assert_eq!(rt; faults.as_str(), "fault 3; out of memory; out of memory");
    Ok(())
}

#[test]
fn refusals_are_shown_by_name(rt: HostRuntime) -> Result<(), Fail> {
    for (refusal, want) in [
        (OutOfTurn, "S1: the subscription is not open yet"),
        (Twice, "S2: the subscription was opened before"),
        (Overrun, "S3: no demand is left for this item"),
        (AfterEnd, "S4: the subscription has ended"),
    ] {
        assert_eq!(rt; format!(in rt.alloc(); "{refusal}")?.as_str(), want);
    }
    Ok(())
}

#[test]
fn a_turnstile_turns(rt: HostRuntime) {
    assert_eq!(rt;
        turn(Turnstile::Paid(1), Touch::Push),
        (Turnstile::Locked, Effect::Passed)
    );
}
