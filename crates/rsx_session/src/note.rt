//! Writing events down.

ghost use Rattle.std.specs.Prelude.{◌≡◌, ◌≤◌, ◌∷◌, ◌++◌, [], All, OnOk};
ghost use Rattle.rsx_session.specs.Recorded.{beginning, delivery, event_of, stamped};

use rsx_tck::{Event, Stamped};
use rsx_types::{NoMemory, Signal, SubId};

/// The largest number of a worker.
const LAST_WORKER: u8 = 15;

/// The events so far, each on a worker from 0 to 15.
#[derive(Drop)]
pub struct Events {
    /// In the order in which they happened.
    pub list: Vec<Stamped>,
    pub ghost fitting: { All (λ e. e.worker ≤ 15) list.items },
}

/// The event that begins a signal to this subscriber.
fn event_of<T>(sub: SubId, signal: &Signal<T>) -> Event
    ensures { result ≡ event_of sub.0 signal.now }
{
    match signal {
        Signal::Next(_) => Event::Next(sub.0),
        Signal::Complete => Event::Complete(sub.0),
        Signal::Error(cause) => Event::Error(sub.0, *cause),
    }
}

impl Events {
    /// Writes an event down, which happened on this worker; on the last one where the number is larger.
    pub fn note(&mut self, worker: u8, event: Event) -> Result<(), NoMemory>
        ensures { OnOk result (self.new.list.items ≡ self.old.list.items ++ stamped worker event ∷ []) }
    {
        self.list.push(Stamped {
            worker: worker.min(LAST_WORKER),
            event,
        })?;
        Ok(())
    }

    /// Writes down that a subscriber subscribed, all of it on worker 0.
    pub fn note_subscription(&mut self, sub: SubId) -> Result<(), NoMemory>
        ensures { OnOk result (self.new.list.items ≡ self.old.list.items ++ beginning sub.0) }
    {
        self.note(0, Event::Subscribe(sub.0))?;
        self.note(0, Event::OnSubscribe(sub.0))?;
        self.note(0, Event::Exit(sub.0))
    }

    /// Writes down that a signal was delivered on this worker: it begins, and returns.
    pub fn note_delivery<T>(
        &mut self,
        worker: u8,
        sub: SubId,
        signal: &Signal<T>,
    ) -> Result<(), NoMemory>
        ensures { OnOk result (self.new.list.items ≡ self.old.list.items ++ delivery worker sub.0 signal.now) }
    {
        self.note(worker, event_of(sub, signal))?;
        self.note(worker, Event::Exit(sub.0))
    }
}
