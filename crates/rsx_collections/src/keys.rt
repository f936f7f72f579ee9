//! Keys that came, each once.

ghost use Rattle.std.specs.Prelude.{◌≡◌, ℕ, ◌<◌, [], ◌++◌, nat_eq, length, slice_get, is_some, Some, IfOk, IfSome, OnOk, OnErr};
ghost use Rattle.std.specs.Option.{option_to_list, IfNone};
ghost use Rattle.std.specs.Set.{is_member};
ghost use Rattle.std.specs.Vec.{vec_len, vec_capacity};
ghost use Rattle.std.specs.HashMap.{get};
ghost use Rattle.rsx_collections.specs.Keys.{noted};

use rsx_types::NoMemory;
use std::alloc::Global;
use std::collections::HashMap;
use std::collections::hash_map::Entry;
use std::marker::Model;

/// For how many keys the first growth makes room.
const FIRST_ROOM: usize = 8;

/// For how many more keys a further growth makes room, for each that is there. A growth puts all of them into a new table. By the
/// time that the room is used up again that comes to a third of an insertion for each key, where it would be one if the room only
/// doubled. The room is then for at most four times the keys that are there.
const MORE_FOR_EACH: usize = 3;

/// Keys without repetition, in the order in which each came first. Contracts see the list of them.
///
/// The hash of a key has a fixed seed, the same in every run, so whoever picks the keys can make them fall together. Then
/// [`Keys::note`] takes time in proportion to the keys that are there; what it answers stays right. Nor is their number
/// bounded. Who notes keys of strangers permutes them by a secret first, as the function `key` of an `impl Ops` may.
#[derive(Drop)]
pub struct Keys {
    /// The keys, in their order.
    order: Vec<u64>,
    /// The place of each key in that order.
    places: HashMap<u64, usize>,
}

impl Model for Keys {
    ghost use Rattle.std.specs.Prelude.{List, ℕ, nat_eq};
    ghost use Rattle.std.specs.HashMap.{get};
    ghost use Rattle.rsx_collections.specs.Keys.{HasPlaces};

    ghost Value = { List ℕ };

    ghost view = { λ k. k.order.items };

    ghost invariant = { λ k. HasPlaces k.order.items (get nat_eq k.places) };
}

impl Keys {
    /// No keys. It takes no memory.
    pub fn new(alloc: Global) -> Keys
        ensures { result ≡ [] }
    {
        Keys {
            order: Vec::new(alloc),
            places: HashMap::new(alloc),
        }
    }

    /// Puts a key last, unless it is there, and answers whether it was there.
    ///
    /// # Errors
    ///
    /// [`NoMemory`] where a growth was refused; then nothing has changed.
    pub fn note(&mut self, key: u64) -> Result<bool, NoMemory>
        ensures known { IfOk result (λ known. known ≡ is_member nat_eq self.old key) }
        ensures keys { OnOk result (self.new ≡ noted self.old key) }
        ensures same { OnErr result (self.new ≡ self.old) }
    {
        if self.order.len() == self.order.capacity() {
            // A known key needs no room.
            if self.places.contains_key(&key) {
                return Ok(true);
            }
            make_room(&mut self.order, &mut self.places)?;
        }
        match self.places.entry(key) {
            Ok(Entry::Occupied(known)) => {
                // The place stays as it is.
                known.into_mut();
                Ok(true)
            }
            Ok(Entry::Vacant(vacant)) => {
                let place = self.order.len();
                self.order.push_reserved(key);
                vacant.insert(place);
                Ok(false)
            }
            Err(_) => Err(NoMemory),
        }
    }

    /// How many keys there are.
    pub fn len(&self) -> u64
        ensures { result ≡ length self.now }
    {
        self.order.len() as u64
    }

    /// The keys, in their order.
    pub fn as_slice(&self) -> &[u64]
        ensures { result.now ≡ self.now }
    {
        self.order.as_slice()
    }

    /// Whether this key is there.
    pub fn contains(&self, key: u64) -> bool
        ensures { result ≡ is_member nat_eq self.now key }
    {
        self.places.contains_key(&key)
    }

    /// The place of this key, counted from 0, if it is there.
    pub fn place_of(&self, key: u64) -> Option<usize>
        ensures place { IfSome result (λ i. slice_get self.now i ≡ Some key) }
        ensures found { is_some result ≡ is_member nat_eq self.now key }
    {
        self.places.get(&key).copied()
    }

    /// Takes the last key, if there is one. Its memory stays.
    pub fn pop(&mut self) -> Option<u64>
        ensures rest { self.old ≡ self.new ++ option_to_list result }
        ensures none { IfNone result (self.old ≡ []) }
    {
        let key = self.order.pop()?;
        let _ = self.places.remove(&key);
        Some(key)
    }

    /// The same keys once more, in the same order.
    ///
    /// # Errors
    ///
    /// [`NoMemory`] where the memory for them was refused.
    pub fn copy(&self) -> Result<Keys, NoMemory>
        ensures { IfOk result (λ keys. keys ≡ self.now) }
    {
        let order = self.order.clone()?;
        let places = self.places.clone()?;
        Ok(Keys { order, places })
    }
}

/// Makes room for more keys, in `order` for one at least. Those that are there stay, and so do their places, whatever the answer.
///
/// # Errors
///
/// [`NoMemory`] where a growth was refused.
#[cold]
#[inline(never)]
fn make_room(order: &mut Vec<u64>, places: &mut HashMap<u64, usize>) -> Result<(), NoMemory>
    ensures order { order.new.items ≡ order.old.items }
    ensures places { (key : ℕ) → get nat_eq places.new key ≡ get nat_eq places.old key }
    ensures room { OnOk result (vec_len order.new < vec_capacity order.new) }
{
    let more = order.len().saturating_mul(MORE_FOR_EACH).max(FIRST_ROOM);
    places.reserve(more)?;
    order.reserve(more)?;
    Ok(())
}
