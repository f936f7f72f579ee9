//! Workers that rest on parkers.

ghost use Rattle.std.specs.Prelude.{◌≡◌, ◌≤◌, length};
ghost use Rattle.std.specs.Arc.{arc_value};
ghost use Rattle.rsx_runtime.specs.declared.TheConstants.{MOST_WORKERS};

use crate::rest::{Rest, Rested};
use crate::tokens::{Take, TokenRule, Tokens, Unpark};
use crossbeam_utils::sync::parker::{Pass, RuledParker, RuledUnparker};
use std::alloc::{AllocError, Global};
use std::sync::atomic::{AtomicBool, Ordering};
use std::sync::{Arc, Wait};

/// What rouses one worker: it gives the worker's parker its token, unless that is there already.
#[derive(Drop)]
pub struct WorkerUnparker {
    unparker: RuledUnparker<Tokens, TokenRule>,
    pass: Pass<Tokens>,
    ghost own: { pass.table_id ≡ (arc_value unparker.state).shared.table_id },
}

impl WorkerUnparker {
    ghost use Rattle.std.specs.Prelude.{◌+◌, IfOk};
    ghost use Rattle.rsx_runtime.specs.Resting.{parker_of, unparked};

    // One that was not used yet, for the parker of this unparker.
    fn new(unparker: &RuledUnparker<Tokens, TokenRule>) -> Result<WorkerUnparker, AllocError>
        ensures { IfOk result (λ b. (parker_of b ≡ (arc_value unparker.now.state).shared.table_id) × (unparked b ≡ 0)) }
    {
        let unparker = unparker.clone()?;
        let pass = unparker.pass();
        Ok(WorkerUnparker { unparker, pass })
    }

    // Gives the token once.
    fn unpark(&mut self)
        ensures unparked { unparked self.new ≡ unparked self.old + 1 }
        ensures same { parker_of self.new ≡ parker_of self.old }
    {
        self.unparker.unpark_as::<Unpark>(&mut self.pass);
    }
}

/// Rouses workers, and stops them. Each thread has one of its own.
#[derive(Drop)]
pub struct Rouser {
    unparkers: Vec<WorkerUnparker>,
    stopped: Arc<AtomicBool, Global>,
    ghost few: { length unparkers.items ≤ MOST_WORKERS },
}

impl Rouser {
    ghost use Rattle.std.specs.Prelude.{IfOk};
    ghost use Rattle.rsx_runtime.specs.Resting.{AreAlike, AreUnparked};

    /// Rouses the workers whose bits are set: worker w by the bit of 2^w. Each of them ends its rest, or has none the next time. A bit
    /// of no worker rouses nobody.
    pub fn rouse(&mut self, mask: u16)
        ensures { AreUnparked mask self.old.unparkers.items self.new.unparkers.items }
    {
        for worker in 0..self.unparkers.len() {
            if (u64::from(mask) >> worker) % 2 == 1 {
                self.unparkers[worker].unpark();
            }
        }
    }

    /// Rouses all workers, and each of them stops after its rest.
    pub fn stop(&mut self)
        ensures { AreUnparked 65535 self.old.unparkers.items self.new.unparkers.items }
    {
        self.stopped.store(true, Ordering::SeqCst);
        self.rouse(u16::MAX);
    }

    /// Another one for the same workers, for another thread.
    ///
    /// # Errors
    /// Where there was no memory for it.
    pub fn another(&self, alloc: Global) -> Result<Rouser, AllocError>
        ensures { IfOk result (λ r. AreAlike self.now.unparkers.items r.unparkers.items) }
    {
        let mut unparkers = Vec::new(alloc);
        for worker in 0..self.unparkers.len() {
            unparkers.push(WorkerUnparker::new(&self.unparkers[worker].unparker)?)?;
        }
        Ok(Rouser {
            unparkers,
            stopped: Arc::try_clone(&self.stopped)?,
        })
    }
}

/// The parker of one worker, with the pass by which that worker takes its token.
#[derive(Drop)]
pub struct OwnParker {
    parker: RuledParker<Tokens, TokenRule>,
    pass: Pass<Tokens>,
    ghost own: { pass.table_id ≡ (arc_value parker.unparker.state).shared.table_id },
}

impl OwnParker {
    ghost use Rattle.std.specs.Prelude.{IfOk};
    ghost use Rattle.crossbeam_utils.specs.Token.{parker_view};
    ghost use Rattle.rsx_runtime.specs.Tokens.{tokens};

    // A parker without its token.
    fn new(alloc: Global) -> Result<OwnParker, AllocError>
        ensures { IfOk result (λ o. parker_view o.pass ≡ tokens 0 0 0) }
    {
        let (parker, pass) = RuledParker::ruled(alloc)?;
        Ok(OwnParker { parker, pass })
    }
}

/// A worker's rest on a parker of its own.
#[derive(Drop)]
pub struct ParkRest {
    own: OwnParker,
    rouser: Rouser,
}

impl ParkRest {
    ghost use Rattle.std.specs.Prelude.{IfOk};
    ghost use Rattle.rsx_runtime.specs.Resting.{AreRests, AreRestsOn};

    /// A rest for each of so many workers, and what rouses and stops them from other threads.
    ///
    /// # Errors
    /// Where there was no memory for them.
    pub fn all(alloc: Global, workers: u8) -> Result<(Rouser, Vec<ParkRest>), AllocError>
        requires { workers ≤ MOST_WORKERS }
        ensures { IfOk result (λ r. AreRests workers r.0.unparkers.items r.1.items) }
    {
        let mut parkers = Vec::new(alloc);
        let mut unparkers = Vec::new(alloc);
        for _ in 0..workers {
            let own = OwnParker::new(alloc)?;
            let unparker = WorkerUnparker::new(own.parker.unparker())?;
            unparkers.push(unparker)?;
            parkers.push(own)?;
        }
        let rouser = Rouser {
            unparkers,
            stopped: Arc::new(alloc, AtomicBool::new(false))?,
        };
        let rests = ParkRest::on(alloc, &rouser, parkers)?;
        Ok((rouser, rests))
    }

    // The rests of the workers that have these parkers.
    fn on(
        alloc: Global,
        rouser: &Rouser,
        parkers: Vec<OwnParker>,
    ) -> Result<Vec<ParkRest>, AllocError>
        ensures { IfOk result (λ r. AreRestsOn rouser.now.unparkers.items parkers.items r.items) }
    {
        let mut rests = Vec::new(alloc);
        for own in parkers {
            rests.push(ParkRest {
                own,
                rouser: rouser.another(alloc)?,
            })?;
        }
        Ok(rests)
    }
}

impl Rest for ParkRest {
    ghost use Rattle.std.specs.Prelude.{◌+◌};
    ghost use Rattle.rsx_runtime.specs.Resting.{AreUnparked, tokens_of};
    ghost use Rattle.rsx_runtime.specs.Tokens.{tokens};

    /// It returns only with the token of the worker's parker taken.
    fn rest<R: Wait>(&mut self, rt: &R) -> Rested
        ensures taken { tokens_of self.new ≡ tokens (tokens_of self.old).unparks (tokens_of self.old).given ((tokens_of self.old).taken + 1) }
        ensures same { self.new.rouser ≡ self.old.rouser }
    {
        let own = &mut self.own;
        own.parker.park_as::<Take, R>(rt, &mut own.pass);
        if self.rouser.stopped.load(Ordering::SeqCst) {
            Rested::Stop
        } else {
            Rested::Again
        }
    }

    fn rouse(&mut self, mask: u16)
        ensures unparked { AreUnparked mask self.old.rouser.unparkers.items self.new.rouser.unparkers.items }
        ensures same { self.new.own ≡ self.old.own }
    {
        self.rouser.rouse(mask);
    }
}
