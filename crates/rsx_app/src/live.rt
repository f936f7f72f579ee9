//! Scripts whose graph may go live.
//!
//! After `live W` the graph is live, up to `close`. What a command does is then done to the live graph: its trees are cut into pieces, which
//! are put into the regions of W workers, each worker serves its region on a thread of its own until none makes a move, what the command
//! says is done by the subscription's tap, and the workers serve them again. Between two commands the pieces are joined again. So nothing
//! happens between them, and what a live graph has no call for, as to publish and to subscribe, is done to the graph as it is then. What
//! it answers is tested, and not proved.

use crate::emitters::{Emitters, Publication};
use crate::late::late_refusal;
use crate::serving::{Served, Use, serve};
use rsx_script::{Answer, Command, LineRefusal, LiveAnswer, LiveCommand, parse_live_line};
use rsx_session::{Session, View};
use rsx_types::{HubId, NoMemory, SubId};
use std::alloc::Global;
use std::mem;
use std::sync::Wait;
use std::thread::Threads;
use std::time::Clock;

/// What `live` answers where there are too few workers for the graph's regions, or none, or more than there may be.
const TOO_FEW_WORKERS: &str = "K3";

/// What `live` answers where more waits at an emitter than its hub has room for.
const OVERFULL: &str = "K5";

/// What a command answers that names a subscription that isn't there.
const UNKNOWN_SUB: &str = "G2";

/// A script whose graph may go live.
#[derive(Drop)]
pub struct LiveScript {
    session: Session,
    emitters: Emitters,
    /// How many workers there are, while the graph is live.
    workers: Option<u8>,
    /// How many places are left for subscriptions, while the graph is live.
    places: u64,
}

impl LiveScript {
    /// A script none of whose lines was answered.
    ///
    /// # Errors
    ///
    /// `NoMemory` where a growth was refused.
    pub fn new(alloc: Global) -> Result<LiveScript, NoMemory> {
        let session = Session::new(alloc, View::Received)?;
        Ok(LiveScript {
            session,
            emitters: Emitters::new(alloc),
            workers: None,
            places: 0,
        })
    }

    /// Answers the next line, which stands without its newline, and adds the answer to `out`.
    ///
    /// # Errors
    ///
    /// Why the line can't be read, or `NoMemory`, which comes too where the pieces of a graph that was live can't be joined: that is not
    /// proved never to come, and no test met it. `out` is then as it was, and no further line may be answered.
    pub fn answer<R: Threads + Wait + Sync + Clock>(
        &mut self,
        rt: &R,
        alloc: Global,
        line: &[u8],
        out: &mut String,
    ) -> Result<(), LineRefusal> {
        let Some(command) = parse_live_line(alloc, line, self.workers.is_some())? else {
            return Ok(());
        };
        let mut answer = String::new(alloc);
        if self.carry_out(rt, alloc, command, &mut answer).is_err() {
            return Err(LineRefusal::NoMemory);
        }
        match out.push_str(answer.as_str()) {
            Ok(()) => Ok(()),
            Err(_) => Err(LineRefusal::NoMemory),
        }
    }

    /// Does what a command asks for, and adds its answer to the text.
    fn carry_out<R: Threads + Wait + Sync + Clock>(
        &mut self,
        rt: &R,
        alloc: Global,
        command: LiveCommand,
        out: &mut String,
    ) -> Result<(), NoMemory> {
        match command {
            LiveCommand::Live(workers) => self.go_live(rt, alloc, workers, out),
            LiveCommand::Take(sub, count) => self.take(rt, alloc, sub, count, out),
            LiveCommand::Close => {
                self.workers = None;
                LiveAnswer::Closed.add_to(alloc, out)
            }
            LiveCommand::Other(command) => match self.workers {
                None => self.answer_beside(alloc, command, out),
                Some(workers) => self.answer_while_live(rt, alloc, workers, command, out),
            },
        }
    }

    /// Has the graph go live, with so many workers.
    fn go_live<R: Threads + Wait + Sync + Clock>(
        &mut self,
        rt: &R,
        alloc: Global,
        workers: u8,
        out: &mut String,
    ) -> Result<(), NoMemory> {
        let waiting = self.emitters.is_waiting();
        let used = if waiting { Use::Look } else { Use::Nothing };
        if let Served::TooFewWorkers = self.serve(rt, alloc, workers, used)? {
            return Answer::Refused(TOO_FEW_WORKERS).add_to(alloc, out);
        }
        if waiting {
            return Answer::Refused(OVERFULL).add_to(alloc, out);
        }
        self.workers = Some(workers);
        self.places = self.session.places();
        LiveAnswer::Live(workers).add_to(alloc, out)
    }

    /// Takes at most so many signals of a subscription. One without a tap gets what waits on its root edge.
    fn take<R: Threads + Wait + Sync + Clock>(
        &mut self,
        rt: &R,
        alloc: Global,
        sub: SubId,
        count: u64,
        out: &mut String,
    ) -> Result<(), NoMemory> {
        if sub.0 as usize >= self.session.subscriptions() {
            return Answer::Refused(UNKNOWN_SUB).add_to(alloc, out);
        }
        // `take` is a command of live graphs alone, so there are workers.
        let workers = self.workers.unwrap_or(0);
        let taken = match self.serve(rt, alloc, workers, Use::Take(sub, count))? {
            Served::Done(taken) => taken,
            Served::NoTap | Served::TooFewWorkers => 0,
        };
        LiveAnswer::Took(taken).add_to(alloc, out)
    }

    /// Does what a command asks for that the other modes have, too, while the graph isn't live.
    fn answer_beside(
        &mut self,
        alloc: Global,
        command: Command,
        out: &mut String,
    ) -> Result<(), NoMemory> {
        self.emitters.publish_waiting(alloc, &mut self.session)?;
        match command {
            Command::Emit(hub, number) => self.publish(alloc, hub, Publication::Item(number), out),
            Command::Complete(hub) => self.publish(alloc, hub, Publication::Complete, out),
            Command::Fail(hub, number) => self.publish(alloc, hub, Publication::Fail(number), out),
            Command::Pump(budget) if self.emitters.is_waiting() => self.pump(alloc, budget, out),
            Command::Hub(_, capacity) | Command::Feed(_, capacity, _) => {
                let hubs = self.session.hubs();
                self.session.answer(alloc, command, out)?;
                if self.session.hubs() > hubs {
                    self.emitters.add(alloc, capacity)?;
                }
                Ok(())
            }
            command => self.session.answer(alloc, command, out),
        }
    }

    /// Publishes at a hub. While the graph is live it may wait at the emitter.
    fn publish(
        &mut self,
        alloc: Global,
        hub: HubId,
        publication: Publication,
        out: &mut String,
    ) -> Result<(), NoMemory> {
        let may_wait = self.workers.is_some();
        let answer = self
            .emitters
            .publish(alloc, &mut self.session, hub, publication, may_wait)?;
        answer.add_to(alloc, out)
    }

    /// Makes at most so many moves where something waits at an emitter, one after the other, and publishes what waits as soon as there is
    /// room.
    fn pump(&mut self, alloc: Global, budget: u32, out: &mut String) -> Result<(), NoMemory> {
        for _ in 0..budget {
            let is_idle = self.make_move(alloc)?;
            let published = self.emitters.publish_waiting(alloc, &mut self.session)?;
            if is_idle && !published {
                return Answer::Idle.add_to(alloc, out);
            }
        }
        // No move is made by this, which says whether one is enabled.
        self.session.answer(alloc, Command::Pump(0), out)
    }

    /// Makes one move, if one is enabled, and answers whether none is enabled then.
    fn make_move(&mut self, alloc: Global) -> Result<bool, NoMemory> {
        let mut answer = String::new(alloc);
        self.session.answer(alloc, Command::Pump(1), &mut answer)?;
        Ok(answer.as_str() == "idle\n")
    }

    /// Does what a command asks for that the other modes have, too, while the graph is live. A subscription with a tap is requested and
    /// cancelled by it.
    fn answer_while_live<R: Threads + Wait + Sync + Clock>(
        &mut self,
        rt: &R,
        alloc: Global,
        workers: u8,
        command: Command,
        out: &mut String,
    ) -> Result<(), NoMemory> {
        let used = match &command {
            Command::Request(sub, count) => Use::Request(*sub, *count),
            Command::Cancel(sub) => Use::Cancel(*sub),
            Command::Subscribe(expr) => {
                if let Some(refusal) = late_refusal(expr, self.session.hubs(), self.places) {
                    return Answer::Refused(refusal).add_to(alloc, out);
                }
                Use::Nothing
            }
            _ => Use::Nothing,
        };
        if let Served::Done(_) = self.serve(rt, alloc, workers, used)? {
            return Answer::Done.add_to(alloc, out);
        }
        let before = self.session.subscriptions();
        self.answer_beside(alloc, command, out)?;
        let come = self.session.subscriptions().saturating_sub(before) as u64;
        self.places = self.places.saturating_sub(come);
        self.serve(rt, alloc, workers, Use::Nothing)?;
        Ok(())
    }

    /// Has the graph live for one use of it, and joins it again.
    ///
    /// # Errors
    ///
    /// `NoMemory` where a growth was refused, and where the pieces can't be joined. The graph is gone then, and an empty one in its place.
    fn serve<R: Threads + Wait + Sync + Clock>(
        &mut self,
        rt: &R,
        alloc: Global,
        workers: u8,
        used: Use,
    ) -> Result<Served, NoMemory> {
        let empty = Session::new(alloc, View::Received)?;
        let session = mem::replace(&mut self.session, empty);
        let (session, served) = serve(rt, alloc, session, workers, used)?;
        self.session = session;
        Ok(served)
    }
}
