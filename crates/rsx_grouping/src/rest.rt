//! What still comes out of the lanes, computed over copies of all that still comes in.

ghost use Rattle.std.specs.Prelude.{◌≡◌, ℕ, List, [], ◌++◌, map, drop, length, Some, IfOk, OnOk};
ghost use Rattle.rsx_types.specs.Stream.{Stream};
ghost use Rattle.rsx_values.specs.Pick.{InputLeft, numbered};
ghost use Rattle.rsx_values.specs.Group.{first_seen, group_lane, keyed_items, keys_after, lane_ending, of_key, placed};
ghost use Rattle.rsx_queued.specs.Inputs.{here};
ghost use Rattle.rsx_grouping.specs.Keys.{AreDistinct};
ghost use Rattle.rsx_grouping.specs.Lane.{lane_left, IsFresh};
ghost use Rattle.rsx_grouping.specs.Rest.{keyed_value};
ghost use Rattle.rsx_grouping.specs.Rows.{keys_of};
ghost use Rattle.rsx_grouping.specs.Table.{lanes_left, lanes_there};
ghost use Rattle.rsx_grouping.specs.declared.lane.Lane.{Lane as LaneSpec};
ghost use Rattle.rsx_grouping.specs.declared.rest.KeyedItems.{KeyedItems as KeyedItemsSpec};
ghost use Rattle.rsx_grouping.specs.declared.table.KeyedLane.{KeyedLane as KeyedLaneSpec};

use crate::keys::LaneKeys;
use crate::lane::{Lane, LaneState, state_after};
use crate::table::{KeyedLane, LaneTable};
use crate::waiting::{Tagging, TaggingBehind, WaitingItems};
use rsx_plain::{ChainState, Chaining, NewChain};
use rsx_types::{Cause, Ending, Fault, NoMemory, Ops, Stage, StreamValue};
use rsx_values::{Input, TOO_MANY_KEYS};
use std::alloc::Global;

/// Copies of the items that still come in, each behind its key.
#[derive(Drop)]
pub struct KeyedItems<T> {
    /// The keys of the lanes that are there, and behind them those that come first among these items.
    pub keys: LaneKeys,
    /// The items with their keys, up to the first fault.
    pub items: Vec<(u64, T)>,
    /// How the input ends: its ending, or the fault at which it was cut.
    pub ending: Ending,
}

/// The keys of these lanes.
fn keys_of<T: Drop>(alloc: Global, rows: &[KeyedLane<T>]) -> Result<LaneKeys, NoMemory>
    requires { AreDistinct (keys_of rows.now) }
    ensures { IfOk result (λ ks. ks ≡ keys_of rows.now) }
{
    let mut keys = LaneKeys::new(alloc);
    for row in rows {
        keys.add(row.key)?;
    }
    Ok(keys)
}

/// How a lane's input ends: the failure of the input is no lane's.
fn lane_ending(ending: Ending) -> Ending
    ensures { result ≡ lane_ending ending }
{
    match ending {
        Ending::Done => Ending::Done,
        Ending::Open | Ending::Failed(_) => Ending::Open,
    }
}

/// Keys of items.
trait Placing<T: Drop> {
    ghost keys: { Self → List ℕ };

    /// The key of an item, which is among the keys then; or the fault that it is, the one of a key too many included.
    ///
    /// # Errors
    /// [`NoMemory`] where a growth was refused, in the function of the caller too.
    fn place<O: Ops<Item = T>>(
        &mut self,
        ops: &O,
        function: u16,
        item: &T,
    ) -> Result<Result<u64, u32>, NoMemory>
        ensures placed { IfOk result (λ r. r ≡ placed (keys self.old) ((O.meaning ops.now).keyed function item.now)) }
        ensures keys { IfOk result (λ r. keys self.new ≡ keys_after (keys self.old) r) };
}

impl<T: Drop> Placing<T> for LaneKeys {
    ghost keys = { λ k. k };

    fn place<O: Ops<Item = T>>(
        &mut self,
        ops: &O,
        function: u16,
        item: &T,
    ) -> Result<Result<u64, u32>, NoMemory>
        ensures placed { IfOk result (λ r. r ≡ placed self.old ((O.meaning ops.now).keyed function item.now)) }
        ensures keys { IfOk result (λ r. self.new ≡ keys_after self.old r) }
    {
        match ops.key(function, item) {
            Ok(key) => {
                if !self.has_place(key) {
                    return Ok(Err(TOO_MANY_KEYS));
                }
                self.add(key)?;
                Ok(Ok(key))
            }
            Err(Fault::Code(fault)) => Ok(Err(fault)),
            Err(Fault::Memory) => Err(NoMemory),
        }
    }
}

/// Items with their keys.
trait Keying<T: Drop> {
    ghost keyed: { Self → KeyedItemsSpec T };

    /// Copies of these items behind their keys, where these keys were seen, up to the first fault.
    ///
    /// # Errors
    /// [`NoMemory`] where a growth was refused, in a function of the caller too.
    fn of<O: Ops<Item = T>>(
        alloc: Global,
        ops: &O,
        keys: LaneKeys,
        function: u16,
        items: &[T],
        ending: Ending,
    ) -> Result<KeyedItems<T>, NoMemory>
        ensures items { IfOk result (λ k. keyed_value k ≡ keyed_items ((O.meaning ops.now).keyed function) keys items.now ending) }
        ensures keys { IfOk result (λ k. k.keys ≡ first_seen keys k.items.items) };

    /// Copies of the items of one key, and the ending of its lane's input.
    ///
    /// # Errors
    /// [`NoMemory`] where a growth was refused, in `Ops::copy` too.
    fn of_key<O: Ops<Item = T>>(
        &self,
        alloc: Global,
        ops: &O,
        key: u64,
    ) -> Result<StreamValue<T>, NoMemory>
        ensures { IfOk result (λ v. v ≡ of_key key (keyed_value (keyed self.now))) };
}

impl<T: Drop> Keying<T> for KeyedItems<T> {
    ghost keyed = { λ k. k };

    fn of<O: Ops<Item = T>>(
        alloc: Global,
        ops: &O,
        keys: LaneKeys,
        function: u16,
        items: &[T],
        ending: Ending,
    ) -> Result<KeyedItems<T>, NoMemory>
        ensures items { IfOk result (λ k. keyed_value k ≡ keyed_items ((O.meaning ops.now).keyed function) keys items.now ending) }
        ensures keys { IfOk result (λ k. k.keys ≡ first_seen keys k.items.items) }
    {
        let mut seen = keys;
        let mut keyed = Vec::new(alloc);
        for item in items {
            match seen.place(ops, function, item)? {
                Ok(key) => {
                    let copy = ops.copy(alloc, item)?;
                    keyed.push((key, copy))?;
                }
                Err(fault) => {
                    return Ok(KeyedItems {
                        keys: seen,
                        items: keyed,
                        ending: Ending::Failed(Cause::Function(fault)),
                    });
                }
            }
        }
        Ok(KeyedItems {
            keys: seen,
            items: keyed,
            ending,
        })
    }

    fn of_key<O: Ops<Item = T>>(
        &self,
        alloc: Global,
        ops: &O,
        key: u64,
    ) -> Result<StreamValue<T>, NoMemory>
        ensures { IfOk result (λ v. v ≡ of_key key (keyed_value self.now)) }
    {
        let mut items = Vec::new(alloc);
        for pair in &self.items {
            if pair.0 == key {
                items.push(ops.copy(alloc, &pair.1)?)?;
            }
        }
        Ok(StreamValue::new(items, lane_ending(self.ending)))
    }
}

/// What is left of a lane.
trait RestingLane<T: Drop> {
    ghost lane: { Self → LaneSpec T };

    /// A lane of these operators at which nothing came in.
    ///
    /// # Errors
    /// [`NoMemory`] where a growth was refused, in a function of the caller too.
    fn fresh<O: Ops<Item = T>>(
        alloc: Global,
        ops: &O,
        stages: &[Stage<T>],
    ) -> Result<Lane<T>, NoMemory>
        ensures { IfOk result (λ l. IsFresh (O.meaning ops.now) stages.now l) };

    /// What still comes out of the lane of this key, where just these items still come in; nothing where its ending was picked.
    ///
    /// # Errors
    /// [`NoMemory`] where a growth was refused, in a function of the caller too.
    fn left<O: Ops<Item = T>>(
        &self,
        alloc: Global,
        ops: &O,
        key: u64,
        keyed: &KeyedItems<T>,
    ) -> Result<Option<StreamValue<T>>, NoMemory>
        ensures { IfOk result (λ o. o ≡ lane_left (O.meaning ops.now) key (lane self.now) (of_key key (keyed_value keyed.now))) };

    /// Puts that behind the inputs of a pick, with this number, unless it is nothing.
    ///
    /// # Errors
    /// [`NoMemory`] where a growth was refused, in a function of the caller too.
    fn push_left<O: Ops<Item = T>>(
        &self,
        alloc: Global,
        ops: &O,
        number: u64,
        key: u64,
        keyed: &KeyedItems<T>,
        inputs: &mut Vec<Input<T>>,
    ) -> Result<(), NoMemory>
        ensures { OnOk result (inputs.new.items ≡ inputs.old.items ++ here number (lane_left (O.meaning ops.now) key (lane self.now) (of_key key (keyed_value keyed.now))) []) };
}

impl<T: Drop> RestingLane<T> for Lane<T> {
    ghost lane = { λ l. l };

    fn fresh<O: Ops<Item = T>>(
        alloc: Global,
        ops: &O,
        stages: &[Stage<T>],
    ) -> Result<Lane<T>, NoMemory>
        ensures { IfOk result (λ l. IsFresh (O.meaning ops.now) stages.now l) }
    {
        let NewChain { chain, first } = ChainState::new(alloc, ops, stages)?;
        let state = state_after(chain, first.ending());
        let waiting = WaitingItems::of(first.into_items());
        Ok(Lane { state, waiting })
    }

    fn left<O: Ops<Item = T>>(
        &self,
        alloc: Global,
        ops: &O,
        key: u64,
        keyed: &KeyedItems<T>,
    ) -> Result<Option<StreamValue<T>>, NoMemory>
        ensures { IfOk result (λ o. o ≡ lane_left (O.meaning ops.now) key self.now (of_key key (keyed_value keyed.now))) }
    {
        let mut items = self.waiting.tagged(alloc, ops, key)?;
        match &self.state {
            LaneState::Running(chain) => {
                let value = chain.rest(alloc, ops, keyed.of_key(alloc, ops, key)?)?;
                items.tag_behind(alloc, ops, key, value.items())?;
                Ok(Some(StreamValue::new(items, value.ending())))
            }
            LaneState::Completed => Ok(Some(StreamValue::new(items, Ending::Done))),
            LaneState::Failing(cause) => {
                Ok(Some(StreamValue::new(items, Ending::Failed(*cause))))
            }
            LaneState::Gone => Ok(None),
        }
    }

    fn push_left<O: Ops<Item = T>>(
        &self,
        alloc: Global,
        ops: &O,
        number: u64,
        key: u64,
        keyed: &KeyedItems<T>,
        inputs: &mut Vec<Input<T>>,
    ) -> Result<(), NoMemory>
        ensures { OnOk result (inputs.new.items ≡ inputs.old.items ++ here number (lane_left (O.meaning ops.now) key self.now (of_key key (keyed_value keyed.now))) []) }
    {
        match self.left(alloc, ops, key, keyed)? {
            Some(value) => {
                let input = Input::new(alloc, number, value)?;
                inputs.push(input)?;
                Ok(())
            }
            None => Ok(()),
        }
    }
}

/// Inputs of a pick.
trait PushingLanes<T: Drop> {
    ghost inputs: { Self → List (InputLeft T) };

    /// Puts what is left of these lanes behind, each with the number of its place.
    ///
    /// # Errors
    /// [`NoMemory`] where a growth was refused, in a function of the caller too.
    fn push_there<O: Ops<Item = T>>(
        &mut self,
        alloc: Global,
        ops: &O,
        rows: &[KeyedLane<T>],
        keyed: &KeyedItems<T>,
    ) -> Result<(), NoMemory>
        ensures { OnOk result (inputs self.new ≡ inputs self.old ++ lanes_there (O.meaning ops.now) 0 rows.now (keyed_value keyed.now) []) };

    /// Puts the lanes of the keys from this number on behind, which nothing came into yet, each with the number of its key.
    ///
    /// # Errors
    /// [`NoMemory`] where a growth was refused, in a function of the caller too.
    fn push_fresh<O: Ops<Item = T>>(
        &mut self,
        alloc: Global,
        ops: &O,
        stages: &[Stage<T>],
        count: usize,
        keyed: &KeyedItems<T>,
    ) -> Result<(), NoMemory>
        ensures { OnOk result (inputs self.new ≡ inputs self.old ++ numbered count (map (group_lane (O.meaning ops.now) stages.now (keyed_value keyed.now)) (drop count keyed.now.keys))) };
}

impl<T: Drop> PushingLanes<T> for Vec<Input<T>> {
    ghost inputs = { λ v. v.items };

    fn push_there<O: Ops<Item = T>>(
        &mut self,
        alloc: Global,
        ops: &O,
        rows: &[KeyedLane<T>],
        keyed: &KeyedItems<T>,
    ) -> Result<(), NoMemory>
        ensures { OnOk result (self.new.items ≡ self.old.items ++ lanes_there (O.meaning ops.now) 0 rows.now (keyed_value keyed.now) []) }
    {
        for at in 0..rows.len() {
            let row = &rows[at];
            row.lane
                .push_left(alloc, ops, at as u64, row.key, keyed, self)?;
        }
        Ok(())
    }

    fn push_fresh<O: Ops<Item = T>>(
        &mut self,
        alloc: Global,
        ops: &O,
        stages: &[Stage<T>],
        count: usize,
        keyed: &KeyedItems<T>,
    ) -> Result<(), NoMemory>
        ensures { OnOk result (self.new.items ≡ self.old.items ++ numbered count (map (group_lane (O.meaning ops.now) stages.now (keyed_value keyed.now)) (drop count keyed.now.keys))) }
    {
        let keys = keyed.keys.as_slice();
        for at in count..keys.len() {
            let lane = Lane::fresh(alloc, ops, stages)?;
            lane.push_left(alloc, ops, at as u64, keys[at], keyed, self)?;
        }
        Ok(())
    }
}

/// What is left of all lanes.
pub trait Resting<T: Drop> {
    ghost rows: { Self → List (KeyedLaneSpec T) };

    /// Copies of these items behind their keys, up to the first fault; a key for which no lane has a place is one.
    ///
    /// # Errors
    /// [`NoMemory`] where a growth was refused, in a function of the caller too.
    fn keyed<O: Ops<Item = T>>(
        &self,
        alloc: Global,
        ops: &O,
        function: u16,
        items: &[T],
        ending: Ending,
    ) -> Result<KeyedItems<T>, NoMemory>
        ensures items { IfOk result (λ k. keyed_value k ≡ keyed_items ((O.meaning ops.now).keyed function) (keys_of (rows self.now)) items.now ending) }
        ensures keys { IfOk result (λ k. k.keys ≡ first_seen (keys_of (rows self.now)) k.items.items) };

    /// What still comes out of the lanes that are there, and of those of the keys that come first, where just these items still come
    /// in, as inputs of a pick.
    ///
    /// # Errors
    /// [`NoMemory`] where a growth was refused, in a function of the caller too.
    fn left<O: Ops<Item = T>>(
        &self,
        alloc: Global,
        ops: &O,
        stages: &[Stage<T>],
        keyed: &KeyedItems<T>,
    ) -> Result<Vec<Input<T>>, NoMemory>
        requires { keyed.now.keys ≡ first_seen (keys_of (rows self.now)) keyed.now.items.items }
        ensures { IfOk result (λ is. is.items ≡ lanes_left (O.meaning ops.now) stages.now (rows self.now) (keyed_value keyed.now) []) };
}

impl<T: Drop> Resting<T> for LaneTable<T> {
    ghost rows = { λ t. t };

    fn keyed<O: Ops<Item = T>>(
        &self,
        alloc: Global,
        ops: &O,
        function: u16,
        items: &[T],
        ending: Ending,
    ) -> Result<KeyedItems<T>, NoMemory>
        ensures items { IfOk result (λ k. keyed_value k ≡ keyed_items ((O.meaning ops.now).keyed function) (keys_of self.now) items.now ending) }
        ensures keys { IfOk result (λ k. k.keys ≡ first_seen (keys_of self.now) k.items.items) }
    {
        let keys = keys_of(alloc, self.rows())?;
        KeyedItems::of(alloc, ops, keys, function, items, ending)
    }

    fn left<O: Ops<Item = T>>(
        &self,
        alloc: Global,
        ops: &O,
        stages: &[Stage<T>],
        keyed: &KeyedItems<T>,
    ) -> Result<Vec<Input<T>>, NoMemory>
        requires { keyed.now.keys ≡ first_seen (keys_of self.now) keyed.now.items.items }
        ensures { IfOk result (λ is. is.items ≡ lanes_left (O.meaning ops.now) stages.now self.now (keyed_value keyed.now) []) }
    {
        let rows = self.rows();
        let mut inputs = Vec::new(alloc);
        inputs.push_there(alloc, ops, rows, keyed)?;
        inputs.push_fresh(alloc, ops, stages, rows.len(), keyed)?;
        Ok(inputs)
    }
}
