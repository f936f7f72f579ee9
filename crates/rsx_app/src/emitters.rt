//! What waits at the emitters of a script whose graph may go live.
//!
//! While the graph is live, an item that its hub has no room for waits at the emitter, which holds as many as the hub's capacity. What waits
//! is published in its order as soon as there is room, also after the close.

ghost use Rattle.std.specs.Prelude.{◌≤◌, length, IfOk};

use rsx_script::Answer;
use rsx_session::{Session, Trouble};
use rsx_types::{HubId, NoMemory};
use std::alloc::Global;

/// The refusal of a hub that has ended.
const ENDED: &str = "G3";

/// The refusal of a hub, or of an emitter, that is full.
const FULL: &str = "G4";

/// What is published.
#[derive(Clone, Copy, Debug, Drop)]
pub enum Publication {
    /// An item.
    Item(i64),
    /// The completion.
    Complete,
    /// A failure with this number.
    Fail(u32),
}

/// The emitters of the hubs, in the order of their numbers.
#[derive(Drop)]
pub struct Emitters {
    emitters: Vec<Emitter>,
}

/// The emitter of a hub.
#[derive(Drop)]
struct Emitter {
    /// How many items may wait, which is the hub's capacity.
    capacity: u64,
    /// What waits, the first to be published first.
    waiting: Vec<Publication>,
}

impl Emitters {
    /// There are no hubs yet.
    pub fn new(alloc: Global) -> Emitters {
        Emitters {
            emitters: Vec::new(alloc),
        }
    }

    /// Adds the emitter of the next hub, which has this capacity.
    pub fn add(&mut self, alloc: Global, capacity: u64) -> Result<(), NoMemory> {
        let emitter = Emitter {
            capacity,
            waiting: Vec::new(alloc),
        };
        match self.emitters.push(emitter) {
            Ok(()) => Ok(()),
            Err(_) => Err(NoMemory),
        }
    }

    /// Whether something waits.
    pub fn is_waiting(&self) -> bool {
        self.emitters
            .iter()
            .any(|emitter| !emitter.waiting.is_empty())
    }

    /// Publishes at a hub, behind what waits there. Where the hub is full it waits, if it may.
    pub fn publish(
        &mut self,
        alloc: Global,
        session: &mut Session,
        hub: HubId,
        publication: Publication,
        may_wait: bool,
    ) -> Result<Answer<'static>, NoMemory> {
        let at = hub.0 as usize;
        if at >= self.emitters.len() {
            return answered(publish(alloc, session, hub, publication));
        }
        let emitter = &mut self.emitters[at];
        if emitter.waiting.is_empty() {
            match publish(alloc, session, hub, publication) {
                Err(Trouble::Refused(FULL)) if may_wait => {}
                done => return answered(done),
            }
        }
        emitter.wait(publication, may_wait)
    }

    /// Publishes what waits, as far as there is room, and answers whether something was published.
    pub fn publish_waiting(
        &mut self,
        alloc: Global,
        session: &mut Session,
    ) -> Result<bool, NoMemory> {
        let mut published = false;
        for at in 0..self.emitters.len() {
            // A graph has at most 64 hubs, so each of their numbers is a u32.
            let hub = HubId(u32::try_from(at).unwrap_or(u32::MAX));
            let emitter = &mut self.emitters[at];
            if emitter.publish_waiting(alloc, session, hub)? {
                published = true;
            }
        }
        Ok(published)
    }
}

impl Emitter {
    /// Puts a publication behind what waits. An item is refused where the emitter is full, and may only wait where nothing forbids it; an
    /// ending finds room always.
    fn wait(
        &mut self,
        publication: Publication,
        may_wait: bool,
    ) -> Result<Answer<'static>, NoMemory> {
        if let Some(Publication::Complete | Publication::Fail(_)) = self.waiting.last() {
            return Ok(Answer::Refused(ENDED));
        }
        if matches!(publication, Publication::Item(_)) {
            if !may_wait || self.waiting.len() as u64 >= self.capacity {
                return Ok(Answer::Refused(FULL));
            }
        }
        match self.waiting.push(publication) {
            Ok(()) => Ok(Answer::Done),
            Err(_) => Err(NoMemory),
        }
    }

    /// Publishes what waits, as far as the hub has room, and answers whether something was published.
    fn publish_waiting(
        &mut self,
        alloc: Global,
        session: &mut Session,
        hub: HubId,
    ) -> Result<bool, NoMemory> {
        let published = publish_first(alloc, session, hub, &self.waiting)?;
        self.waiting.drain(..published);
        Ok(published > 0)
    }
}

/// Publishes the first of these, as many as the hub has room for, and answers how many.
fn publish_first(
    alloc: Global,
    session: &mut Session,
    hub: HubId,
    publications: &[Publication],
) -> Result<usize, NoMemory>
    ensures { IfOk result (λ count. count ≤ length publications.now) }
{
    for (place, publication) in publications.iter().enumerate() {
        match publish(alloc, session, hub, *publication) {
            Ok(_) => {}
            Err(Trouble::Refused(_)) => return Ok(place),
            Err(Trouble::Memory) => return Err(NoMemory),
        }
    }
    Ok(publications.len())
}

/// Publishes at a hub.
fn publish(
    alloc: Global,
    session: &mut Session,
    hub: HubId,
    publication: Publication,
) -> Result<Answer<'static>, Trouble> {
    match publication {
        Publication::Item(number) => session.emit(alloc, hub, number),
        Publication::Complete => session.complete(alloc, hub),
        Publication::Fail(number) => session.fail(alloc, hub, number),
    }
}

/// What is answered.
fn answered(done: Result<Answer<'static>, Trouble>) -> Result<Answer<'static>, NoMemory> {
    match done {
        Ok(answer) => Ok(answer),
        Err(Trouble::Refused(name)) => Ok(Answer::Refused(name)),
        Err(Trouble::Memory) => Err(NoMemory),
    }
}
