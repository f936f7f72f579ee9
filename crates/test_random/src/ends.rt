//! What threads do at the ends of links: each call is one of an emitter, a tap or a canceller, over its link.

ghost use Rattle.std.specs.Prelude.{◌≡◌, ◌<◌, ⊤, IfSome, Some, length, slice_get};
ghost use Rattle.rsx_link.specs.Ends.{IsCancelSeatOf, IsDownOf, IsUpOf};
ghost use Rattle.rsx_serialized.specs.Calls.{IsAt};
ghost use Rattle.test_random.specs.Ends.{AreEmittersOf, AreTapsOf, IsCancellerOf, IsEmitterOf};

use crate::driven::Call;
use rsx_demo::Val;
use rsx_link::Link;
use rsx_runtime::Canceller;
use rsx_serialized::{Emitter, Tap};
use rsx_types::{Cause, Signal};

/// The link with this number.
pub fn link_at(links: &Vec<Link<Val>>, number: u32) -> &Link<Val>
    requires { IsAt links.now.items number (λ l. ⊤) }
    ensures { slice_get links.now.items number ≡ Some result.now }
{
    &links[number as usize]
}

/// The last emitter, which stands no more with the others.
pub fn pop_emitter(links: &Vec<Link<Val>>, emitters: &mut Vec<Emitter<Val>>) -> Option<Emitter<Val>>
    requires { AreEmittersOf links.now.items emitters.old.items }
    ensures others { AreEmittersOf links.now.items emitters.new.items }
    ensures last { IfSome result (λ e. IsEmitterOf links.now.items e) }
{
    emitters.pop()
}

/// Publishes a signal by this emitter, and answers whether it took it. The error is one with a number.
pub fn publish_over(link: &Link<Val>, emitter: &mut Emitter<Val>, signal: Signal<Val>) -> bool
    requires { IsUpOf link.now emitter.old.up }
    ensures { IsUpOf link.now emitter.new.up }
{
    match signal {
        Signal::Next(item) => emitter.emit_over(link, item).is_ok(),
        Signal::Complete => emitter.complete_over(link).is_ok(),
        Signal::Error(Cause::User(number)) => emitter.fail_over(link, number).is_ok(),
        Signal::Error(_) => false,
    }
}

/// Makes a call of the tap at this place, and answers what it gave. Where there is none, nothing happens.
pub fn call_at(
    links: &Vec<Link<Val>>,
    taps: &mut Vec<Tap<Val>>,
    place: usize,
    call: Call,
) -> Option<Signal<Val>>
    requires { AreTapsOf links.now.items taps.old.items }
    ensures { AreTapsOf links.now.items taps.new.items }
{
    if place >= taps.len() {
        return None;
    }
    call_there(links, taps, place, call)
}

/// The same where there is one.
fn call_there(
    links: &Vec<Link<Val>>,
    taps: &mut Vec<Tap<Val>>,
    place: usize,
    call: Call,
) -> Option<Signal<Val>>
    requires there { place < length taps.old.items }
    requires own { AreTapsOf links.now.items taps.old.items }
    ensures { AreTapsOf links.now.items taps.new.items }
{
    call_over(&mut taps[place], &links[place], call)
}

/// Makes a call of this tap.
fn call_over(tap: &mut Tap<Val>, link: &Link<Val>, call: Call) -> Option<Signal<Val>>
    requires { IsDownOf link.now tap.old.down × IsCancelSeatOf link.now tap.old.seat }
    ensures end { IsDownOf link.now tap.new.down × IsCancelSeatOf link.now tap.new.seat }
    ensures same { tap.new.link ≡ tap.old.link }
{
    match call {
        Call::Take => tap.take_over(link),
        Call::Request(n) => tap.request_over(link, n),
        Call::Cancel => {
            tap.cancel_over(link);
            None
        }
    }
}

/// A canceller of the tap at this place, if there is one.
pub fn canceller_at(
    links: &Vec<Link<Val>>,
    taps: &mut Vec<Tap<Val>>,
    place: usize,
) -> Option<Canceller>
    requires { AreTapsOf links.now.items taps.old.items }
    ensures taps { AreTapsOf links.now.items taps.new.items }
    ensures own { IfSome result (λ c. IsCancellerOf links.now.items c) }
{
    if place >= taps.len() {
        return None;
    }
    Some(canceller_there(links, taps, place))
}

/// The same where there is one.
fn canceller_there(links: &Vec<Link<Val>>, taps: &mut Vec<Tap<Val>>, place: usize) -> Canceller
    requires there { place < length taps.old.items }
    requires own { AreTapsOf links.now.items taps.old.items }
    ensures taps { AreTapsOf links.now.items taps.new.items }
    ensures own { IsCancellerOf links.now.items result }
{
    taps[place].canceller_over(&links[place])
}

/// Cancels by this canceller, so many times.
pub fn cancel_times(links: &Vec<Link<Val>>, canceller: Option<Canceller>, times: u32)
    requires { IfSome canceller (λ c. IsCancellerOf links.now.items c) }
{
    match canceller {
        Some(canceller) => cancel_by(links, canceller, times),
        None => {}
    }
}

/// The same of one canceller.
fn cancel_by(links: &Vec<Link<Val>>, canceller: Canceller, times: u32)
    requires { IsCancellerOf links.now.items canceller }
{
    let link = link_at(links, canceller.link());
    cancel_over(link, canceller, times);
}

/// The same over its link.
fn cancel_over(link: &Link<Val>, mut canceller: Canceller, times: u32)
    requires { IsCancelSeatOf link.now canceller.seat }
{
    for _ in 0..times {
        canceller.cancel_over(link);
    }
}
