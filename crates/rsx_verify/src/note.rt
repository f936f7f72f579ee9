//! Writing events down.

ghost use Rattle.std.specs.Prelude.{◌≡◌, ◌∷◌, ◌++◌, [], OnOk, IfErr};
ghost use Rattle.rsx_verify.specs.Events.{stamped_on, event_of, delivery, deliveries, beginning};

use crate::refusal::VerifyRefusal;
use rsx_tck::{Event, Stamped};
use rsx_types::{Signal, SubId};

/// The event that begins a signal to this subscriber.
fn event_of<T>(sub: SubId, signal: &Signal<T>) -> Event
    ensures { result ≡ event_of sub.0 signal.now }
{
    match signal {
        Signal::Next(_) => Event::Next(sub.0),
        Signal::Complete => Event::Complete(sub.0),
        Signal::Error(cause) => Event::Error(sub.0, *cause),
    }
}

/// Writes an event down, which happened on this worker.
pub fn note(events: &mut Vec<Stamped>, worker: u8, event: Event) -> Result<(), VerifyRefusal>
    ensures noted { OnOk result (events.new.items ≡ events.old.items ++ stamped_on worker event ∷ []) }
    ensures err { IfErr result (λ r. r ≡ VerifyRefusal.NoMemory) }
{
    events.push(Stamped { worker, event })?;
    Ok(())
}

/// Writes down that a subscriber subscribed, all of it on worker 0.
pub fn note_subscription(events: &mut Vec<Stamped>, sub: SubId) -> Result<(), VerifyRefusal>
    ensures noted { OnOk result (events.new.items ≡ events.old.items ++ beginning sub.0) }
    ensures err { IfErr result (λ r. r ≡ VerifyRefusal.NoMemory) }
{
    note(events, 0, Event::Subscribe(sub.0))?;
    note(events, 0, Event::OnSubscribe(sub.0))?;
    note(events, 0, Event::Exit(sub.0))
}

/// Writes down that a signal was delivered on this worker: it begins, and returns.
pub fn note_delivery<T>(
    events: &mut Vec<Stamped>,
    worker: u8,
    sub: SubId,
    signal: &Signal<T>,
) -> Result<(), VerifyRefusal>
    ensures noted { OnOk result (events.new.items ≡ events.old.items ++ delivery worker (sub, signal.now)) }
    ensures err { IfErr result (λ r. r ≡ VerifyRefusal.NoMemory) }
{
    note(events, worker, event_of(sub, signal))?;
    note(events, worker, Event::Exit(sub.0))
}

/// Writes down what was delivered on this worker, in its order.
pub fn note_deliveries<T>(
    events: &mut Vec<Stamped>,
    worker: u8,
    delivered: &[(SubId, Signal<T>)],
) -> Result<(), VerifyRefusal>
    ensures noted { OnOk result (events.new.items ≡ events.old.items ++ deliveries worker delivered.now) }
    ensures err { IfErr result (λ r. r ≡ VerifyRefusal.NoMemory) }
{
    for (sub, signal) in delivered {
        note_delivery(events, worker, *sub, signal)?;
    }
    Ok(())
}
