//! `groupBy`.

ghost use Rattle.std.specs.Prelude.{◌≡◌, ◌≤◌, true, false, length, IfOk, OnOk, OnErr, IfErr};
ghost use Rattle.rsx_sources.specs.Heads.{head_of};
ghost use Rattle.rsx_grouping.specs.Rows.{are_quiet, GoOn};
ghost use Rattle.rsx_grouping.specs.GroupBy.{TakesItem, inputs_left, is_complete};
ghost use Rattle.rsx_grouping.specs.declared.node.GroupByNode.{GroupByNode as GroupByNodeSpec};
ghost use Rattle.rsx_values.specs.declared.limits.TheConstants.{MOST_KEYS};
ghost use Rattle.rsx_grouping.specs.MainState.{is_coming};

use crate::keys::KeyPlace;
use crate::main_state::MainState;
use crate::{LaneTable, Resting, TakingKeyed};
use rsx_demand::saturating_total;
use rsx_queued::{InFront, Output, front_of};
use rsx_sources::{Front, Machine, NotMade, NotTaken, Passed, first_ending, first_items};
use rsx_types::{Cause, Ending, Fault, NoMemory, Note, Ops, Signal, Stage, StreamValue};
use rsx_values::{Input, MAIN, Record, Run, TOO_MANY_KEYS, merge_inputs};
use std::alloc::Global;

/// The items of its input in lanes, a lane for each key, each through a chain of its own; what comes out is the merge of the lanes and
/// Main, which has the ending of the input, in the order in which they are picked, each item with the tag of its lane's key.
///
/// A fault of the key is the input's failure at that item, and so is a key more than [`MOST_KEYS`](rsx_values::MOST_KEYS), with the
/// number [`TOO_MANY_KEYS`]. Lanes are numbered in the order in which their keys came first, and Main has the number
/// [`MAIN`]. After the input's completion a lane is completed when it is first picked with nothing waiting in it.
///
/// It holds memory for its keys and lanes, for what waits in them, and for the runs of its choices; none for items that passed.
#[derive(Drop)]
pub struct GroupByNode<T> {
    /// The number of the function that says the key of an item.
    pub function: u16,
    /// The operators of a lane's chain.
    pub stages: Vec<Stage<T>>,
    /// The lanes.
    pub table: LaneTable<T>,
    /// Where Main is.
    pub main: MainState,
    /// What it has put out and its receiver has not taken yet.
    pub output: Output<T>,
    /// The choices made.
    pub choices: Record,
    /// How many items it got, at most 2^63-1.
    pub got: u64,
}

impl<T: Drop> GroupByNode<T> {
    ghost use Rattle.std.specs.Prelude.{◌≡◌, ◌<◌, ◌^◌, ◌++◌, [], ◌∷◌, true, false, length, OnOk, OnErr};
    ghost use Rattle.rsx_types.specs.Meaning.{Meaning};
    ghost use Rattle.rsx_sources.specs.Counts.{CountsStep};
    ghost use Rattle.rsx_sources.specs.Machine.{Records};
    ghost use Rattle.rsx_values.specs.Record.{written};
    ghost use Rattle.rsx_queued.specs.Output.{is_empty};
    ghost use Rattle.rsx_queued.specs.declared.output.Output.TheVariants.{Empty};
    ghost use Rattle.rsx_grouping.specs.MainState.{is_ready};
    ghost use Rattle.rsx_grouping.specs.Rows.{waiting_after};
    ghost use Rattle.rsx_grouping.specs.GroupBy.{GivesGroups, group_comes_out, group_recording, group_ended, group_done, group_counted, unless_complete, after_signal};

    /// `groupBy` by this function, with a chain of these operators in each lane.
    pub fn new(alloc: Global, function: u16, stages: Vec<Stage<T>>) -> GroupByNode<T>
        ensures fresh { GivesGroups result function stages.items }
        ensures counted { group_counted result (0 ∷ []) 0 }
        ensures choices { result.choices ≡ [] }
        ensures table { result.table ≡ [] }
        ensures ended { group_ended result ≡ false }
        ensures got { result.got ≡ 0 }
    {
        GroupByNode {
            function,
            stages,
            table: LaneTable::new(alloc),
            main: MainState::Coming,
            output: Output::Empty,
            choices: Record::new(alloc),
            got: 0,
        }
    }

    /// How many items wait in its lanes to be picked; at most 2^63-1.
    pub fn waiting(&self) -> u64
        ensures { result ≡ waiting_after 0 self.now.table }
    {
        self.table.waiting()
    }

    /// Puts the completion out where Main and all lanes were picked to their ends. Nothing was put out.
    fn complete(&mut self)
        requires { is_empty self.old.output ≡ true }
        ensures { self.new ≡ unless_complete self.old }
    {
        if self.main.is_taken() && self.table.is_gone() {
            self.output.put(Signal::Complete);
        }
    }

    /// Puts out the signal that was picked; the completion of a lane or of Main alone is none. Behind a failure nothing can be picked,
    /// so what waits is let go.
    fn put_out(&mut self, alloc: Global, signal: Signal<T>)
        requires { is_empty self.old.output ≡ true }
        ensures { self.new ≡ after_signal signal self.old }
    {
        match signal {
            Signal::Next(item) => self.output.put(Signal::Next(item)),
            Signal::Complete => self.complete(),
            Signal::Error(cause) => {
                self.table = LaneTable::new(alloc);
                self.output.put(Signal::Error(cause));
            }
        }
    }

    /// Picks Main, whose ending came, and records the choice. For want of memory nothing has changed.
    fn pick_main(&mut self, alloc: Global) -> Result<(), NoMemory>
        requires empty { self.old.output ≡ Empty }
        requires ready { is_ready self.old.main ≡ true }
        requires small { length self.old.table < 2 ^ 64 }
        ensures ok { OnOk result ((m : Meaning T) → Records (group_comes_out m) self.old (group_recording self.old MAIN) self.new) }
        ensures recorded { OnOk result (written self.new.choices ≡ written self.old.choices ++ MAIN ∷ []) }
        ensures counts { OnOk result (CountsStep group_counted group_ended group_done self.old self.new) }
        ensures same { OnErr result (self.new ≡ self.old) }
    {
        match self.choices.push(MAIN) {
            Ok(()) => {}
            Err(_) => return Err(NoMemory),
        }
        match self.main {
            MainState::Completed => {
                self.main = MainState::Taken;
                self.put_out(alloc, Signal::Complete);
                Ok(())
            }
            MainState::Failing(cause) => {
                self.put_out(alloc, Signal::Error(cause));
                Ok(())
            }
            MainState::Coming | MainState::Taken => unreachable!(),
        }
    }

    /// The choices made, as runs. It takes no memory.
    pub fn records(&self) -> &[Run]
        ensures { result.now ≡ self.now.choices }
    {
        self.choices.runs()
    }
}

/// What comes in at a `groupBy`.
trait TakingIn<T: Drop> {
    ghost node: { Self → GroupByNodeSpec T };

    /// Puts an item into the lane of its key; a fault of the key, or a key too many, is the ending of the input. Nothing waits. For
    /// want of memory the item comes back, and nothing has changed. An item that comes behind the ending is let go.
    fn take_item<O: Ops<Item = T>>(&mut self, alloc: Global, ops: &O, item: T) -> Result<(), T>
        requires { are_quiet (node self.old).table ≡ true }
        ensures ok { OnOk result (TakesItem (O.meaning ops.now) (node self.old).function (node self.old).stages.items (node self.old).table (node self.old).main item (node self.new).table (node self.new).main) }
        ensures few { OnOk result (length (node self.old).table ≤ MOST_KEYS → length (node self.new).table ≤ MOST_KEYS) }
        ensures goes_on { OnOk result (GoOn (node self.old).table → GoOn (node self.new).table) }
        ensures left { OnOk result (is_complete (node self.old).table (node self.old).main ≡ false → is_complete (node self.new).table (node self.new).main ≡ false) }
        ensures done { OnOk result (is_coming (node self.old).main ≡ false → is_coming (node self.new).main ≡ false) }
        ensures rest { OnOk result (node self.new ≡ record (node self.old) { table = (node self.new).table; main = (node self.new).main }) }
        ensures err { IfErr result (λ x. x ≡ item) }
        ensures same { OnErr result (self.new ≡ self.old) };

    /// Copies of what is left to pick of the lanes, of those that are there and of those that come, and Main behind them, where just
    /// these values come in.
    fn left<O: Ops<Item = T>>(
        &self,
        alloc: Global,
        ops: &O,
        incoming: &[StreamValue<T>],
    ) -> Result<Vec<Input<T>>, NoMemory>
        ensures { IfOk result (λ is. is.items ≡ inputs_left (O.meaning ops.now) (node self.now).function (node self.now).stages.items (node self.now).table (node self.now).main (head_of incoming.now)) };
}

impl<T: Drop> TakingIn<T> for GroupByNode<T> {
    ghost node = { λ n. n };

    fn take_item<O: Ops<Item = T>>(&mut self, alloc: Global, ops: &O, item: T) -> Result<(), T>
        requires { are_quiet self.old.table ≡ true }
        ensures ok { OnOk result (TakesItem (O.meaning ops.now) self.old.function self.old.stages.items self.old.table self.old.main item self.new.table self.new.main) }
        ensures few { OnOk result (length self.old.table ≤ MOST_KEYS → length self.new.table ≤ MOST_KEYS) }
        ensures goes_on { OnOk result (GoOn self.old.table → GoOn self.new.table) }
        ensures left { OnOk result (is_complete self.old.table self.old.main ≡ false → is_complete self.new.table self.new.main ≡ false) }
        ensures done { OnOk result (is_coming self.old.main ≡ false → is_coming self.new.main ≡ false) }
        ensures rest { OnOk result (self.new ≡ record self.old { table = self.new.table; main = self.new.main }) }
        ensures err { IfErr result (λ x. x ≡ item) }
        ensures same { OnErr result (self.new ≡ self.old) }
    {
        if !self.main.is_coming() {
            return Ok(());
        }
        match ops.key(self.function, &item) {
            Ok(key) => match self.table.place_of(key) {
                KeyPlace::Lane(at) => self.table.take_at(alloc, ops, at, item),
                KeyPlace::New => self.table.open(alloc, ops, &self.stages, key, item),
                KeyPlace::Nowhere => {
                    self.main = MainState::Failing(Cause::Function(TOO_MANY_KEYS));
                    Ok(())
                }
            },
            Err(Fault::Code(fault)) => {
                self.main = MainState::Failing(Cause::Function(fault));
                Ok(())
            }
            Err(Fault::Memory) => Err(item),
        }
    }

    fn left<O: Ops<Item = T>>(
        &self,
        alloc: Global,
        ops: &O,
        incoming: &[StreamValue<T>],
    ) -> Result<Vec<Input<T>>, NoMemory>
        ensures { IfOk result (λ is. is.items ≡ inputs_left (O.meaning ops.now) self.now.function self.now.stages.items self.now.table self.now.main (head_of incoming.now)) }
    {
        let items = self.main.items_before(first_items(incoming));
        let ending = self.main.ending_behind(first_ending(incoming));
        let keyed = self.table.keyed(alloc, ops, self.function, items, ending)?;
        let mut inputs = self.table.left(alloc, ops, &self.stages, &keyed)?;
        if self.main.is_taken() {
            return Ok(inputs);
        }
        let main = StreamValue::new(Vec::new(alloc), keyed.ending);
        inputs.push(Input::new(alloc, MAIN, main)?)?;
        Ok(inputs)
    }
}

impl<T: Drop> Machine for GroupByNode<T> {
    type Item = T;

    ghost use Rattle.std.specs.Prelude.{◌≡◌, ⊤, true, false, refl, None, IfOk, IfErr, IsOk, OnOk, OnErr};
    ghost use Rattle.rsx_types.specs.Notes.{note_then};
    ghost use Rattle.rsx_sources.specs.Counts.{CountsIn, CountsOut, CountsStep};
    ghost use Rattle.rsx_sources.specs.Machine.{TakesIn, Records, IsComposed};
    ghost use Rattle.rsx_sources.specs.Reading.{IsReadOn, IsResidualOf};
    ghost use Rattle.rsx_sources.specs.Steps.{IsPopped, IsNotTaken, IsNotMade};
    ghost use Rattle.rsx_grouping.specs.GroupBy.{group_comes_out, group_waiting, group_shown, group_takes, group_picks, group_recording, group_recorded, group_ended, group_done, group_counted, group_wanted, IsPoppedGroup};
    ghost use Rattle.rsx_grouping.specs.Laws.{group_drops, group_ends, group_done_drops, group_settles, group_ending_waits, group_hungry};
    ghost use Rattle.rsx_grouping.specs.declared.node.GroupByNode.{GroupByNode};
    ghost use Rattle.std.proofs.lemmas.Bool.{true≢false};

    ghost comes_out = { group_comes_out };

    ghost waiting = { group_waiting };

    ghost shown = { group_shown };

    ghost takes = { λ n i f. group_takes n i };

    ghost picks = { group_picks };

    ghost rows = { λ n a s. false };

    ghost rowed = { λ n a s k. ⊥ };

    ghost took = { λ n i s new. ⊤ };

    ghost heard = { λ n s new. ⊤ };

    ghost picked = { λ n i new. ⊤ };

    ghost recording = { group_recording };

    ghost recorded = { group_recorded };

    ghost popping = { λ n. None };

    ghost ended = { group_ended };

    ghost done = { group_done };

    ghost counted = { group_counted };

    ghost wanted = { group_wanted };

    ghost accepts = { λ n a s. true };

    ghost popped = { IsPoppedGroup };

    ghost reads = { λ n. None };

    ghost rooms = { λ n. false };

    ghost crosses = { λ n. false };

    ghost pop_allocates = { λ a n. false };

    ghost signal_allocates = { λ a n. true };

    ghost step_allocates = { λ a n. true };

    fn front(&self) -> Option<Front> {
        self.output.front()
    }

    fn pop_front<O: Ops<Item = T>>(
        &mut self,
        alloc: Global,
        ops: &O,
    ) -> Result<Option<Signal<T>>, NoMemory>
        ensures ok { IfOk result (λ s.
            IsPopped (group_comes_out (O.meaning ops.now)) IsPoppedGroup (group_waiting (O.meaning ops.now) self.old) self.old s self.new) }
        ensures recorded { group_recorded self.new ≡ group_recorded self.old }
        ensures counts { IfOk result (λ s. CountsOut group_counted group_ended group_done self.old s self.new) }
        ensures err { OnErr result (self.new ≡ self.old) }
        ensures memory { IsOk result }
    {
        Ok(self.output.pop())
    }

    fn records_pop(&self) -> bool {
        false
    }

    fn put_back(&mut self, signal: Signal<T>)
        ensures { (before : GroupByNode T) → IsPoppedGroup before signal self.old → self.new ≡ before }
    {
        self.output.put_back(signal);
    }

    fn has_ended(&self) -> bool {
        self.output.has_ending()
    }

    fn can_take(&self, input: u64, front: Front) -> bool {
        input == 0 && self.output.is_empty() && self.table.is_quiet()
    }

    fn on_signal<O: Ops<Item = T>>(
        &mut self,
        alloc: Global,
        ops: &O,
        input: u64,
        signal: Signal<T>,
    ) -> Result<(), NotTaken<T>>
        ensures ok { OnOk result (TakesIn (group_comes_out (O.meaning ops.now)) self.old input signal self.new) }
        ensures enabled { OnOk result (group_takes self.old input ≡ true) }
        ensures recorded { group_recorded self.new ≡ group_recorded self.old }
        ensures counts { OnOk result (CountsIn group_counted group_ended group_done self.old input signal self.new) }
        ensures err { IfErr result (IsNotTaken (group_takes self.old input) signal) }
        ensures same { OnErr result (self.new ≡ self.old) }
    {
        if !self.can_take(input, front_of(&signal)) {
            return Err(NotTaken::Busy(signal));
        }
        match signal {
            Signal::Next(item) => match self.take_item(alloc, ops, item) {
                Ok(()) => {
                    self.got = saturating_total(self.got, 1);
                    Ok(())
                }
                Err(item) => Err(NotTaken::NoMemory(Signal::Next(item))),
            },
            Signal::Complete => {
                self.main = self.main.ended_by(MainState::Completed);
                Ok(())
            }
            Signal::Error(cause) => {
                self.main = self.main.ended_by(MainState::Failing(cause));
                Ok(())
            }
        }
    }

    fn pop_item<O: Ops<Item = T>>(&mut self, alloc: Global, ops: &O) -> Option<T> {
        self.output.pop_item()
    }

    fn pass<O: Ops<Item = T>>(&mut self, alloc: Global, ops: &O, input: u64, item: T) -> Passed<T> {
        if !self.can_take(input, Front::Item) {
            return Passed::Declined(item);
        }
        match self.take_item(alloc, ops, item) {
            Ok(()) => {
                self.got = saturating_total(self.got, 1);
                Passed::Kept
            }
            Err(item) => Passed::Declined(item),
        }
    }

    fn hub(&self) -> Option<u64> {
        None
    }

    fn has_room(&self) -> bool {
        false
    }

    fn on_published(&mut self, signal: Signal<T>) -> Result<(), Signal<T>>
        ensures ok { OnOk result (IsReadOn group_comes_out (λ n. None) self.old signal self.new) }
        ensures enabled { OnOk result (false ≡ true) }
        ensures recorded { group_recorded self.new ≡ group_recorded self.old }
        ensures counts { OnOk result (CountsStep group_counted group_ended group_done self.old self.new) }
        ensures err { IfErr result (λ s. s ≡ signal) }
        ensures same { OnErr result (self.new ≡ self.old) }
    {
        Err(signal)
    }

    // Not inlined, so that what looks for the next step of a node of any kind stays small.
    #[inline(never)]
    fn can_pick(&self, input: u64, asked: u64, sent: u64) -> bool {
        if !self.output.is_empty() {
            return false;
        }
        if input == MAIN {
            return self.main.is_ready();
        }
        self.table
            .can_pick(input as usize, self.main.is_done(), asked, sent)
    }

    #[inline(never)]
    fn next_pick(&self, asked: u64, sent: u64) -> Option<u64> {
        let is_free = self.output.is_empty();
        if !is_free {
            return None;
        }
        let count = self.table.len();
        if let Some(at) = self.table.next_pick(self.main.is_done(), asked, sent) {
            return Some(at as u64);
        }
        match self.main.is_ready() {
            true => Some(MAIN),
            false => None,
        }
    }

    fn on_pick<O: Ops<Item = T>>(
        &mut self,
        alloc: Global,
        ops: &O,
        input: u64,
        asked: u64,
        sent: u64,
    ) -> Result<(), NotMade>
        ensures ok { OnOk result (Records (group_comes_out (O.meaning ops.now)) self.old (group_recording self.old input) self.new) }
        ensures enabled { OnOk result (group_picks self.old input asked sent ≡ true) }
        ensures recorded { OnOk result (group_recorded self.new ≡ note_then (group_recorded self.old) (group_recording self.old input)) }
        ensures composes { OnOk result (IsComposed (group_recorded self.old) (group_recording self.old input)) }
        ensures counts { OnOk result (CountsStep group_counted group_ended group_done self.old self.new) }
        ensures err { IfErr result (IsNotMade (group_picks self.old input asked sent)) }
        ensures same { OnErr result (self.new ≡ self.old) }
    {
        if !self.can_pick(input, asked, sent) {
            return Err(NotMade::NotEnabled);
        }
        let count = self.table.len();
        if input == MAIN {
            return match self.pick_main(alloc) {
                Ok(()) => Ok(()),
                Err(_) => Err(NotMade::NoMemory),
            };
        }
        let at = input as usize;
        let pick = match self.table.prepare(alloc, ops, at) {
            Ok(pick) => pick,
            Err(_) => return Err(NotMade::NoMemory),
        };
        match self.choices.push(input) {
            Ok(()) => {}
            Err(_) => return Err(NotMade::NoMemory),
        }
        self.table.commit(at, pick.lane);
        self.put_out(alloc, pick.signal);
        Ok(())
    }

    fn can_row(&self, asked: u64, sent: u64) -> bool {
        false
    }

    fn on_row<O: Ops<Item = T>>(
        &mut self,
        alloc: Global,
        ops: &O,
        asked: u64,
        sent: u64,
    ) -> Result<(), NotMade> {
        Err(NotMade::NotEnabled)
    }

    /// As long as the input goes on, nothing can be picked where nothing waits.
    #[inline]
    fn never_steps(&self) -> bool {
        self.main.is_coming() && self.table.is_known_quiet()
    }

    /// Picks the one lane in which something may wait, where an item waits there.
    #[inline]
    fn step_item<O: Ops<Item = T>>(
        &mut self,
        alloc: Global,
        ops: &O,
        asked: u64,
        sent: u64,
    ) -> Option<T> {
        if sent >= asked || !self.output.is_empty() {
            return None;
        }
        self.table.pick_item(alloc, ops, &mut self.choices)
    }

    fn want(&self, input: u64, asked: u64, sent: u64) -> u64 {
        if sent < asked && self.table.is_quiet() {
            return saturating_total(self.got, 1);
        }
        self.got
    }

    #[inline(always)]
    fn accepts_demand(&self, asked: u64, sent: u64) -> bool {
        true
    }

    fn note(&self, alloc: Global) -> Result<Note, NoMemory> {
        let choices = self.choices.choices(alloc)?;
        Ok(Note::Picks(choices))
    }

    fn residual<O: Ops<Item = T>>(
        &self,
        alloc: Global,
        ops: &O,
        inboxes: &[StreamValue<T>],
        incoming: &[StreamValue<T>],
    ) -> Result<StreamValue<T>, NoMemory>
        ensures { IfOk result (λ v.
            IsResidualOf (group_comes_out (O.meaning ops.now)) group_recorded (λ n. None) self.now inboxes.now incoming.now v) }
    {
        let left = self.left(alloc, ops, incoming)?;
        match merge_inputs(alloc, left, &[])? {
            Some(rest) => self.output.in_front(alloc, ops, rest),
            None => unreachable!(),
        }
    }

    ghost shows = { λ m n. refl };

    ghost popped_alike = { λ old s new h. (refl, (refl, λ a. (refl, refl, refl))) };

    ghost drops = { group_drops };

    ghost ends = { group_ends };

    ghost done_drops = { group_done_drops };

    ghost ends_reading = { λ m n s w e. refl };

    ghost settles = { group_settles };

    ghost ending_waits = { group_ending_waits };

    ghost hungry = { group_hungry };

    ghost asked_enough = { λ n a s e. absurd (true≢false e) };
}
