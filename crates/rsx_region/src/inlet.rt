//! What a piece has of a link that comes in.

ghost use Rattle.std.specs.Prelude.{◌≡◌, ◌+◌, ◌<◌, ◌≤◌, ◌∷◌, ◌++◌, [], List, true};
ghost use Rattle.std.specs.Vec.{vec_len, vec_capacity};
ghost use Rattle.rsx_link.specs.Ends.{IsDownOf, cancels_of, carried_down, down_steps, received_signals};
ghost use Rattle.rsx_region.specs.Endings.{first_ending};
ghost use Rattle.rsx_region.specs.Taken.{AreTaken, AreTakenInTurn};
ghost use Rattle.rsx_types.specs.declared.signal.Signal.{Signal as SignalSpec};

use crate::halves::READER_PLACES;
use crate::readers::waits_for;
use rsx_link::{CancelSeat, Down, Link};
use rsx_pipe::{EdgeState, Nodes, Part};
use rsx_rooted::Batches;
use rsx_types::{Ending, NoMemory, Signal};
use std::alloc::Global;

/// What a piece has of a link that comes in: the receiving end, and the seat that cancels the link.
#[derive(Drop)]
pub struct Inlet<T> {
    /// The number under which a node of the piece reads the link, as it would read a hub.
    pub hub: u32,
    /// The receiving end.
    pub down: Down<T>,
    /// The seat that cancels the link.
    pub closer: CancelSeat,
    /// The ending that was taken from the link, if one was.
    pub ended: Option<Ending>,
    // The one signal that is handed on stands here in between.
    hand: Vec<Signal<T>>,
    // The items that are handed on at once stand here in between, the first of them last.
    items: Vec<T>,
    // Whether the link was cancelled by this seat here.
    cancelled: bool,
    pub ghost empty: { hand.items ≡ [] },
    pub ghost none: { items.items ≡ [] },
    pub ghost told: { cancelled ≡ true → 0 < cancels_of closer },
    pub ghost over: { ended ≡ first_ending (received_signals down) },
}

/// The first ending among some signals and this one behind them, where `ended` is the first among those.
fn ended_by<T>(ended: Option<Ending>, signal: &Signal<T>) -> Option<Ending>
    ensures { (before : List (SignalSpec T)) → ended ≡ first_ending before → result ≡ first_ending (before ++ signal.now ∷ []) }
{
    match ended {
        Some(ending) => Some(ending),
        None => match signal {
            Signal::Next(_) => None,
            Signal::Complete => Some(Ending::Done),
            Signal::Error(cause) => Some(Ending::Failed(*cause)),
        },
    }
}

/// Counts a signal that comes behind some others: `ended` is the first ending among all of them, where it was the first among those. An
/// item changes nothing.
#[inline]
fn count_ending<T>(ended: &mut Option<Ending>, signal: &Signal<T>)
    ensures { (before : List (SignalSpec T)) → ended.old ≡ first_ending before → ended.new ≡ first_ending (before ++ signal.now ∷ []) }
{
    match signal {
        Signal::Next(_) => {}
        Signal::Complete | Signal::Error(_) => *ended = ended_by(*ended, signal),
    }
}

/// Takes items from the link, at most `most`, as long as some that the end knows can be taken, and puts them behind those in the list. It
/// has room for them. Answers how many.
fn take_each<T: Drop>(down: &mut Down<T>, link: &Link<T>, most: u64, items: &mut Vec<T>) -> u64
    requires end { IsDownOf link.now down.old }
    requires room { vec_len items.old + most ≤ vec_capacity items.old }
    ensures end { IsDownOf link.now down.new }
    ensures taken { AreTakenInTurn result down.old items.old.items items.new.items down.new }
    ensures most { result ≤ most }
{
    for count in 0..most {
        match down.take_seen(link) {
            Some(item) => items.push_reserved(item),
            None => return count,
        }
    }
    most
}

/// The same after a look for more, into an empty list, with the first item last.
fn take_items<T: Drop>(down: &mut Down<T>, link: &Link<T>, most: u64, items: &mut Vec<T>) -> u64
    requires end { IsDownOf link.now down.old }
    requires room { vec_len items.old + most ≤ vec_capacity items.old }
    requires empty { items.old.items ≡ [] }
    ensures end { IsDownOf link.now down.new × (down_steps down.new ≡ down_steps down.old) × (carried_down down.new ≡ carried_down down.old) }
    ensures taken { AreTaken result down.old [] items.new.items down.new }
    ensures most { result ≤ most }
{
    if down.is_empty(link) {
        return 0;
    }
    let count = take_each(down, link, most, items);
    items.reverse();
    count
}

impl<T: Drop> Inlet<T> {
    ghost use Rattle.std.specs.Prelude.{List, false, OnErr, IfOk};
    ghost use Rattle.rsx_types.specs.Meaning.{Meaning};
    ghost use Rattle.rsx_types.specs.Stream.{Stream};
    ghost use Rattle.rsx_tree.specs.declared.node.Node.{Node};
    ghost use Rattle.rsx_pipe.specs.Published.{reader_edge};
    ghost use Rattle.rsx_link.specs.declared.up.Up.{Up as UpSpec};
    ghost use Rattle.rsx_region.specs.Inlet.{HasCome, InletStands, IsInletOf, with_come};
    ghost use Rattle.rsx_region.specs.Moves.{ArePopped, HasLeft, HasPopped, IsAskedFor, KeepsInlet, SameInlet};
    ghost use Rattle.rsx_region.specs.Piece.{IsInStep, PieceStands};
    ghost use Rattle.rsx_region.specs.declared.inlet.Inlet.{Inlet as InletSpec};

    /// Of the link with these ends, which a node of the piece reads under the number `hub`. Nothing was taken from the link yet. Room for
    /// what is handed on is made here.
    ///
    /// # Errors
    /// [`NoMemory`] where there was none for that.
    pub fn new(
        alloc: Global,
        hub: u32,
        down: Down<T>,
        closer: CancelSeat,
    ) -> Result<Inlet<T>, NoMemory>
        requires { received_signals down ≡ [] }
        ensures { IfOk result (λ i. (i.hub ≡ hub) × (i.down ≡ down) × (i.closer ≡ closer)) }
    {
        let hand = Vec::with_capacity(alloc, 1)?;
        let items = Vec::with_capacity(alloc, READER_PLACES)?;
        Ok(Inlet {
            hub,
            down,
            closer,
            ended: None,
            hand,
            items,
            cancelled: false,
        })
    }

    /// The two ends of the link.
    pub fn into_ends(self) -> (Down<T>, CancelSeat)
        ensures { (result.0 ≡ self.down) × (result.1 ≡ self.closer) }
    {
        (self.down, self.closer)
    }

    /// Whether it cancelled the link.
    pub(crate) fn is_cancelled(&self) -> bool
        ensures { result ≡ self.now.cancelled }
    {
        self.cancelled
    }

    /// Takes the oldest signal from the link and hands it to the node that reads the link, and answers whether it did. It takes one
    /// only where that node has room for an item, so that nothing has ever to be put back into the link. Where the root edge of the
    /// part isn't live nothing changes.
    ///
    /// # Errors
    /// [`NoMemory`] where there was no room for the one signal and a growth was refused. Then nothing changed.
    pub fn pop<N: Nodes<Item = T>>(
        &mut self,
        part: &mut Part<N>,
        link: &Link<T>,
    ) -> Result<bool, NoMemory>
        requires { IsDownOf link.now self.old.down }
        ensures end { SameInlet link.now self.old self.new }
        ensures popped { IfOk result (λ b. b ≡ true → HasPopped N.Machine part.old self.old part.new self.new) }
        ensures left { IfOk result (λ b. b ≡ false → HasLeft N.Machine part.old self.old part.new self.new) }
        ensures same { OnErr result ((part.new ≡ part.old) × (self.new.down ≡ self.old.down)) }
        ensures after { (part.old.root.state ≡ EdgeState.Live → ⊥) → (part.new ≡ part.old) × (self.new.down ≡ self.old.down) }
        ensures step { (up : UpSpec T) → IsInStep part.old up → IsInStep part.new up }
        ensures stands { (m : Meaning T) (taken : List (Stream T)) (old : Node N) (queued : List (SignalSpec T)) (up : UpSpec T) → HasCome taken self.old →
            PieceStands N.Machine m taken old queued part.old up → PieceStands N.Machine m (with_come self.new taken) old queued part.new up }
        ensures own { (taken : List (Stream T)) → InletStands N.Machine taken part.old self.old → InletStands N.Machine (with_come self.new taken) part.new self.new }
        ensures others { (taken : List (Stream T)) (other : InletSpec T) → (other.hub ≡ self.old.hub → ⊥) → HasCome taken self.old →
            InletStands N.Machine taken part.old other → InletStands N.Machine (with_come self.new taken) part.new other }
    {
        let hub = u64::from(self.hub);
        if !waits_for(part, hub) {
            return Ok(false);
        }
        self.hand.reserve(1)?;
        let Some(signal) = self.down.take(link) else {
            return Ok(false);
        };
        count_ending(&mut self.ended, &signal);
        self.hand.push_reserved(signal);
        part.hand(hub, &mut self.hand);
        Ok(true)
    }

    /// Takes items from the link, at most `most`, as long as some can be taken and the node that reads the link has room for them, and hands
    /// them to it. Answers how many. An ending stays in the link, and so do items where no memory is left.
    pub(crate) fn pop_many<N: Nodes<Item = T> + Batches>(
        &mut self,
        part: &mut Part<N>,
        link: &Link<T>,
        most: u32,
    ) -> u32
        requires { IsDownOf link.now self.old.down }
        ensures end { SameInlet link.now self.old self.new }
        ensures popped { ArePopped N.Machine result part.old self.old part.new self.new }
        ensures most { result ≤ most }
    {
        let number = u64::from(self.hub);
        if !waits_for(part, number) {
            return 0;
        }
        let spaces = part.spaces_for(number, u64::from(most));
        if self.items.reserve(spaces as usize).is_err() {
            return 0;
        }
        let count = take_items(&mut self.down, link, spaces, &mut self.items);
        part.hand_many(number, &mut self.items, count);
        count as u32
    }

    /// Asks the link for as much as was asked over the edge of the node that reads it (rule 3.8). Where that edge isn't live, it
    /// cancels the link, once (rules 3.5 and 3.7). Where no node reads the link any more, nothing is done.
    pub fn ask<N: Nodes<Item = T>>(&mut self, part: &Part<N>, link: &Link<T>)
        requires { IsInletOf link.now self.old }
        ensures end { KeepsInlet link.now self.old self.new }
        ensures asked { IsAskedFor (reader_edge N.Machine self.old.hub part.now) self.old.down self.old.closer self.new.down self.new.closer }
        ensures stands { (taken : List (Stream T)) → InletStands N.Machine taken part.now self.old → InletStands N.Machine taken part.now self.new }
    {
        let Some(edge) = part.reader_edge(u64::from(self.hub)) else {
            return;
        };
        if edge.is_live() {
            let asked = self.down.asked();
            if asked < edge.demand.asked() {
                self.down.ask(link, (edge.demand.asked() - asked) as i64);
            }
            return;
        }
        if !self.cancelled {
            self.closer.cancel(link);
            self.cancelled = true;
        }
    }
}
