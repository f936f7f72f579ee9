//! The lanes of a `groupBy`, each with its key.

ghost use Rattle.std.specs.Prelude.{◌≡◌, ◌<◌, ◌^◌, ◌++◌, ◌∷◌, ℕ, true, false, [], length, nat_eq, slice_get, slice_set, IfOk, IfErr, IfNone, IfSome, OnOk, OnErr, List};
ghost use Rattle.std.specs.Set.{is_member};
ghost use Rattle.rsx_types.specs.declared.stage.Stage.{Stage as StageSpec};
ghost use Rattle.rsx_values.specs.Group.{see};
ghost use Rattle.rsx_grouping.specs.Keys.{AreDistinct, IsPlaceOf};
ghost use Rattle.rsx_grouping.specs.Lane.{PickGoesOn};
ghost use Rattle.rsx_grouping.specs.Rows.{keys_of, are_quiet, are_quiet_beside, are_gone, is_gone_at, is_quiet_at, is_told, can_pick_at, GoOn, waiting_after};
ghost use Rattle.rsx_grouping.specs.Table.{TakesKeyed, TakesFirstAt, CommitsAt, IsItemPickedAt};
ghost use Rattle.rsx_grouping.specs.declared.table.KeyedLane.{KeyedLane as KeyedLaneSpec};
ghost use Rattle.rsx_grouping.specs.declared.table.MayWait.TheVariants as MayWait;

use crate::keys::{KeyPlace, LaneKeys};
use crate::lane::{Lane, LanePick, Laning};
use rsx_types::{NoMemory, Ops, Stage};
use rsx_values::Record;
use std::alloc::Global;
use std::marker::Model;

/// A lane and its key.
#[derive(Drop)]
pub struct KeyedLane<T> {
    /// The key.
    pub key: u64,
    /// The lane.
    pub lane: Lane<T>,
}

/// In which lanes something may wait. As long as the input goes on, an item is taken in only where nothing waits, so that it may wait
/// in its own lane alone, and no other lane has to be looked at.
#[derive(Clone, Copy, Drop)]
pub(crate) enum MayWait {
    /// Nothing waits in any lane.
    Nowhere,
    /// Nothing waits in any lane but the one at this place.
    At(usize),
    /// It isn't known.
    Anywhere,
}

/// The lanes, in the order in which their keys came first. Contracts see the list of them.
#[derive(Drop)]
pub struct LaneTable<T> {
    // The keys of the lanes.
    keys: LaneKeys,
    // The lanes, each at the place of its key.
    rows: Vec<KeyedLane<T>>,
    // In which of them something may wait.
    may_wait: MayWait,
}

impl<T> Model for LaneTable<T> {
    ghost use Rattle.std.specs.Prelude.{◌≡◌, List, true};
    ghost use Rattle.std.specs.Coded.{codes};
    ghost use Rattle.rsx_grouping.specs.Code.{chain_code};
    ghost use Rattle.rsx_grouping.specs.Keys.{AreDistinct};
    ghost use Rattle.rsx_grouping.specs.Rows.{is_told, keys_of};
    ghost use Rattle.rsx_grouping.specs.declared.table.KeyedLane.{KeyedLane};

    ghost Value = { List (KeyedLane T) };

    ghost coded = { Prim.hlevel (codes, chain_code T.code) };

    ghost view = { λ t. t.rows.items };

    ghost invariant = { λ t. (t.keys ≡ keys_of t.rows.items) × AreDistinct (keys_of t.rows.items) × (is_told t.may_wait t.rows.items ≡ true) };
}

/// Whether nothing waits in any of these lanes.
fn are_quiet<T: Drop>(rows: &[KeyedLane<T>]) -> bool
    ensures { result ≡ are_quiet rows.now }
{
    match rows.split_first() {
        None => true,
        Some((row, behind)) => row.lane.is_quiet() && are_quiet(behind),
    }
}

/// Whether the endings of all these lanes were picked.
fn are_gone<T: Drop>(rows: &[KeyedLane<T>]) -> bool
    ensures { result ≡ are_gone rows.now }
{
    match rows.split_first() {
        None => true,
        Some((row, behind)) => row.lane.is_gone() && are_gone(behind),
    }
}

/// How many items wait in these lanes, beside `count` others; at most 2^63-1.
fn waiting_after<T: Drop>(rows: &[KeyedLane<T>], count: u64) -> u64
    ensures { result ≡ waiting_after count rows.now }
{
    match rows.split_first() {
        None => count,
        Some((row, behind)) => waiting_after(behind, row.lane.waiting.count_with(count)),
    }
}

/// Whether nothing waits in the lane at this place, if there is one.
fn is_quiet_at<T: Drop>(rows: &[KeyedLane<T>], at: usize) -> bool
    ensures { result ≡ is_quiet_at (slice_get rows.now at) }
{
    match rows.get(at) {
        Some(row) => row.lane.is_quiet(),
        None => true,
    }
}

/// Whether nothing waits in any of these lanes, where it is told in which something may wait.
fn are_told_quiet<T: Drop>(rows: &[KeyedLane<T>], may_wait: MayWait) -> bool
    requires { is_told may_wait rows.now ≡ true }
    ensures { result ≡ are_quiet rows.now }
{
    match may_wait {
        MayWait::Nowhere => true,
        MayWait::At(at) => is_quiet_at(rows, at),
        MayWait::Anywhere => are_quiet(rows),
    }
}

/// In which of these lanes something may wait, once the one at this place is another one.
fn may_wait_beside<T: Drop>(rows: &[KeyedLane<T>], may_wait: MayWait, at: usize) -> MayWait
    requires { is_told may_wait rows.now ≡ true }
    ensures { (row : KeyedLaneSpec T) → is_told result (slice_set rows.now at row) ≡ true }
{
    if is_only(may_wait, at) || are_told_quiet(rows, may_wait) {
        return MayWait::At(at);
    }
    MayWait::Anywhere
}

/// In which of these lanes something may wait, where nothing waits in any but the one at this place.
fn may_wait_at<T: Drop>(rows: &[KeyedLane<T>], at: usize) -> MayWait
    requires { are_quiet_beside at rows.now ≡ true }
    ensures { is_told result rows.now ≡ true }
{
    match is_quiet_at(rows, at) {
        true => MayWait::Nowhere,
        false => MayWait::At(at),
    }
}

/// Whether something may wait in the lane at this place alone.
fn is_only(may_wait: MayWait, at: usize) -> bool
    ensures { result ≡ true → may_wait ≡ MayWait.At at }
{
    match may_wait {
        MayWait::At(other) => other == at,
        MayWait::Nowhere | MayWait::Anywhere => false,
    }
}

/// In which of these lanes something may wait, once one more stands behind them.
fn may_wait_behind<T: Drop>(rows: &[KeyedLane<T>], may_wait: MayWait) -> MayWait
    requires { is_told may_wait rows.now ≡ true }
    ensures { (row : KeyedLaneSpec T) → is_told result (rows.now ++ row ∷ []) ≡ true }
{
    match are_told_quiet(rows, may_wait) {
        true => MayWait::At(rows.len()),
        false => MayWait::Anywhere,
    }
}

/// The first of these lanes that can be picked, of those in which something may wait, while the input goes on.
fn next_of_waiting<T: Drop>(
    rows: &[KeyedLane<T>],
    may_wait: MayWait,
    asked: u64,
    sent: u64,
) -> Option<usize>
    requires { is_told may_wait rows.now ≡ true }
    ensures some { IfSome result (λ i. can_pick_at (slice_get rows.now i) false asked sent ≡ true) }
    ensures none { IfNone result ((i : ℕ) → can_pick_at (slice_get rows.now i) false asked sent ≡ false) }
{
    match may_wait {
        MayWait::Nowhere => None,
        MayWait::At(at) => match can_pick_at(rows, at, false, asked, sent) {
            true => Some(at),
            false => None,
        },
        MayWait::Anywhere => next_of_all(rows, false, asked, sent),
    }
}

/// The first of these lanes that can be picked.
fn next_of_all<T: Drop>(rows: &[KeyedLane<T>], done: bool, asked: u64, sent: u64) -> Option<usize>
    ensures some { IfSome result (λ i. can_pick_at (slice_get rows.now i) done asked sent ≡ true) }
    ensures none { IfNone result ((i : ℕ) → can_pick_at (slice_get rows.now i) done asked sent ≡ false) }
{
    for at in 0..rows.len() {
        if can_pick_at(rows, at, done, asked, sent) {
            return Some(at);
        }
    }
    None
}

/// Whether the lane at this place, if there is one, can be picked.
fn can_pick_at<T: Drop>(rows: &[KeyedLane<T>], at: usize, done: bool, asked: u64, sent: u64) -> bool
    ensures { result ≡ can_pick_at (slice_get rows.now at) done asked sent }
{
    match rows.get(at) {
        Some(row) => row.lane.can_pick(done, asked, sent),
        None => false,
    }
}

impl<T: Drop> LaneTable<T> {
    /// No lanes. It takes no memory.
    pub fn new(alloc: Global) -> LaneTable<T>
        ensures { result ≡ [] }
    {
        LaneTable {
            keys: LaneKeys::new(alloc),
            rows: Vec::new(alloc),
            may_wait: MayWait::Nowhere,
        }
    }

    /// The lanes. No key comes twice.
    pub fn rows(&self) -> &[KeyedLane<T>]
        ensures rows { result.now ≡ self.now }
        ensures distinct { AreDistinct (keys_of self.now) }
    {
        self.rows.as_slice()
    }

    /// How many lanes there are.
    pub fn len(&self) -> usize
        ensures len { result ≡ length self.now }
        ensures small { length self.now < 2 ^ 64 }
    {
        self.rows.len()
    }

    /// How many items wait in all lanes; at most 2^63-1.
    pub fn waiting(&self) -> u64
        ensures { result ≡ waiting_after 0 self.now }
    {
        waiting_after(self.rows.as_slice(), 0)
    }

    /// Where an item of this key goes.
    pub fn place_of(&self, key: u64) -> KeyPlace
        ensures { IsPlaceOf (keys_of self.now) key result }
    {
        self.keys.place_of(key)
    }

    /// Whether nothing waits in any lane. It looks at one lane at most, but where it isn't known in which something may wait.
    pub fn is_quiet(&self) -> bool
        ensures { result ≡ are_quiet self.now }
    {
        are_told_quiet(self.rows.as_slice(), self.may_wait)
    }

    /// Whether it is known, without a look at any lane, that nothing waits.
    #[inline]
    pub(crate) fn is_known_quiet(&self) -> bool
        ensures { result ≡ true → are_quiet self.now ≡ true }
    {
        matches!(self.may_wait, MayWait::Nowhere)
    }

    /// Whether the endings of all lanes were picked.
    pub fn is_gone(&self) -> bool
        ensures { result ≡ are_gone self.now }
    {
        are_gone(self.rows.as_slice())
    }

    /// Whether the lane at this place, if there is one, can be picked ([`Lane::can_pick`]).
    pub fn can_pick(&self, at: usize, done: bool, asked: u64, sent: u64) -> bool
        ensures { result ≡ can_pick_at (slice_get self.now at) done asked sent }
    {
        can_pick_at(self.rows.as_slice(), at, done, asked, sent)
    }

    /// A lane that can be picked, the one with the lowest number, if there is one. Until the input is done it looks only where something may
    /// wait.
    pub fn next_pick(&self, done: bool, asked: u64, sent: u64) -> Option<usize>
        ensures some { IfSome result (λ i. can_pick_at (slice_get self.now i) done asked sent ≡ true) }
        ensures none { IfNone result ((i : ℕ) → can_pick_at (slice_get self.now i) done asked sent ≡ false) }
    {
        let rows = self.rows.as_slice();
        match done {
            true => next_of_all(rows, done, asked, sent),
            false => next_of_waiting(rows, self.may_wait, asked, sent),
        }
    }

    /// Takes what a pick took of the lane at this place.
    pub fn commit(&mut self, at: usize, lane: Option<Lane<T>>)
        requires { at < length self.old }
        ensures { CommitsAt self.old at lane self.new }
    {
        self.may_wait = may_wait_beside(self.rows.as_slice(), self.may_wait, at);
        self.rows[at].lane.commit(lane);
    }
}

/// What the lanes do with an item and its key, and what is picked of them.
pub trait TakingKeyed<T: Drop> {
    ghost rows: { Self → List (KeyedLaneSpec T) };

    /// Opens a lane of these operators, for a key that no lane has, with its first item. For want of memory the item comes back, and
    /// nothing has changed.
    fn open<O: Ops<Item = T>>(
        &mut self,
        alloc: Global,
        ops: &O,
        stages: &[Stage<T>],
        key: u64,
        item: T,
    ) -> Result<(), T>
        requires { is_member nat_eq (keys_of (rows self.old)) key ≡ false }
        ensures ok { OnOk result (TakesKeyed (O.meaning ops.now) stages.now (rows self.old) key item (rows self.new)) }
        ensures keys { OnOk result (keys_of (rows self.new) ≡ see (keys_of (rows self.old)) key) }
        ensures goes_on { OnOk result (GoOn (rows self.old) → GoOn (rows self.new)) }
        ensures err { IfErr result (λ x. x ≡ item) }
        ensures same { OnErr result (self.new ≡ self.old) };

    /// Puts an item into the lane at this place, which has its key. Nothing waits. For want of memory the item comes back, and nothing
    /// has changed.
    fn take_at<O: Ops<Item = T>>(
        &mut self,
        alloc: Global,
        ops: &O,
        at: usize,
        item: T,
    ) -> Result<(), T>
        requires quiet { are_quiet (rows self.old) ≡ true }
        requires within { at < length (rows self.old) }
        ensures ok { (gs : List (StageSpec T)) (k : ℕ) → slice_get (keys_of (rows self.old)) at ≡ Some k → OnOk result (TakesKeyed (O.meaning ops.now) gs (rows self.old) k item (rows self.new)) }
        ensures keys { OnOk result (keys_of (rows self.new) ≡ keys_of (rows self.old)) }
        ensures goes_on { OnOk result (GoOn (rows self.old) → GoOn (rows self.new)) }
        ensures err { IfErr result (λ x. x ≡ item) }
        ensures same { OnErr result (self.new ≡ self.old) };

    /// What a pick takes out of the lane at this place, whose ending was not picked. Nothing changes here:
    /// [`commit`](LaneTable::commit) takes it.
    fn prepare<O: Ops<Item = T>>(
        &self,
        alloc: Global,
        ops: &O,
        at: usize,
    ) -> Result<LanePick<T>, NoMemory>
        requires within { at < length (rows self.now) }
        requires there { is_gone_at (slice_get (rows self.now) at) ≡ false }
        ensures ok { IfOk result (λ p. TakesFirstAt (O.meaning ops.now) (rows self.now) at p) }
        ensures goes_on { IfOk result (λ p. PickGoesOn p.lane) };

    /// Picks the item that waits first in the one lane in which something may wait, as [`Laning::pick_item`] does. Where it isn't known
    /// that nothing waits in any other lane, and where that gives no item, it answers nothing, and nothing has changed.
    fn pick_item<O: Ops<Item = T>>(
        &mut self,
        alloc: Global,
        ops: &O,
        choices: &mut Record,
    ) -> Option<T>
        ensures some { IfSome result (λ x. IsItemPickedAt (O.meaning ops.now) (rows self.old) choices.old x (rows self.new) choices.new) }
        ensures none { IfNone result ((self.new ≡ self.old) × (choices.new ≡ choices.old)) };
}

impl<T: Drop> TakingKeyed<T> for LaneTable<T> {
    ghost rows = { λ t. t };

    fn open<O: Ops<Item = T>>(
        &mut self,
        alloc: Global,
        ops: &O,
        stages: &[Stage<T>],
        key: u64,
        item: T,
    ) -> Result<(), T>
        requires { is_member nat_eq (keys_of self.old) key ≡ false }
        ensures ok { OnOk result (TakesKeyed (O.meaning ops.now) stages.now self.old key item self.new) }
        ensures keys { OnOk result (keys_of self.new ≡ see (keys_of self.old) key) }
        ensures goes_on { OnOk result (GoOn self.old → GoOn self.new) }
        ensures err { IfErr result (λ x. x ≡ item) }
        ensures same { OnErr result (self.new ≡ self.old) }
    {
        let may_wait = may_wait_behind(self.rows.as_slice(), self.may_wait);
        match self.rows.reserve(1) {
            Ok(()) => {}
            Err(_) => return Err(item),
        }
        match self.keys.add(key) {
            Ok(()) => {}
            Err(_) => return Err(item),
        }
        match Lane::begin(alloc, ops, stages, item) {
            Ok(lane) => {
                self.may_wait = may_wait;
                self.rows.push_reserved(KeyedLane { key, lane });
                Ok(())
            }
            Err(item) => {
                self.keys.remove_last();
                Err(item)
            }
        }
    }

    fn take_at<O: Ops<Item = T>>(
        &mut self,
        alloc: Global,
        ops: &O,
        at: usize,
        item: T,
    ) -> Result<(), T>
        requires quiet { are_quiet self.old ≡ true }
        requires within { at < length self.old }
        ensures ok { (gs : List (StageSpec T)) (k : ℕ) → slice_get (keys_of self.old) at ≡ Some k → OnOk result (TakesKeyed (O.meaning ops.now) gs self.old k item self.new) }
        ensures keys { OnOk result (keys_of self.new ≡ keys_of self.old) }
        ensures goes_on { OnOk result (GoOn self.old → GoOn self.new) }
        ensures err { IfErr result (λ x. x ≡ item) }
        ensures same { OnErr result (self.new ≡ self.old) }
    {
        self.may_wait = MayWait::At(at);
        self.rows[at].lane.take_item(alloc, ops, item)
    }

    fn prepare<O: Ops<Item = T>>(
        &self,
        alloc: Global,
        ops: &O,
        at: usize,
    ) -> Result<LanePick<T>, NoMemory>
        requires within { at < length self.now }
        requires there { is_gone_at (slice_get self.now at) ≡ false }
        ensures ok { IfOk result (λ p. TakesFirstAt (O.meaning ops.now) self.now at p) }
        ensures goes_on { IfOk result (λ p. PickGoesOn p.lane) }
    {
        let row = &self.rows[at];
        row.lane.prepare(alloc, ops, row.key)
    }

    fn pick_item<O: Ops<Item = T>>(
        &mut self,
        alloc: Global,
        ops: &O,
        choices: &mut Record,
    ) -> Option<T>
        ensures some { IfSome result (λ x. IsItemPickedAt (O.meaning ops.now) self.old choices.old x self.new choices.new) }
        ensures none { IfNone result ((self.new ≡ self.old) × (choices.new ≡ choices.old)) }
    {
        let at = match self.may_wait {
            MayWait::At(at) => at,
            MayWait::Nowhere | MayWait::Anywhere => return None,
        };
        if at >= self.rows.len() {
            return None;
        }
        let row = &mut self.rows[at];
        match row.lane.pick_item(alloc, ops, row.key, at as u64, choices) {
            Some(item) => {
                self.may_wait = may_wait_at(self.rows.as_slice(), at);
                Some(item)
            }
            None => None,
        }
    }
}
