//! The keys of the lanes.

ghost use Rattle.std.specs.Prelude.{◌≡◌, IfErr, IfOk, nat_eq};
ghost use Rattle.std.specs.List.{position};
ghost use Rattle.rsx_grouping.specs.Keys.{Rises, IsAt, IsGapFor};

use rsx_types::NoMemory;
use rsx_values::MOST_KEYS;
use std::alloc::Global;
use std::marker::Model;

/// The most keys that are looked at one by one.
const FEW_KEYS: usize = 8;

/// A key and the number of its lane.
#[derive(Clone, Copy, Drop)]
pub struct NumberedKey {
    /// The key.
    pub key: u64,
    /// The number of its lane.
    pub lane: usize,
}

/// Where an item of a key goes.
#[derive(Clone, Copy, Drop)]
pub enum KeyPlace {
    /// Into the lane of this number, which has the key.
    Lane(usize),
    /// Into a new lane: none has the key, and there may be one more.
    New,
    /// Nowhere: none has the key, and there are [`MOST_KEYS`].
    Nowhere,
}

/// The keys of the lanes, in the order in which each came first: a lane's number is the place of its key. Contracts see the list of them.
///
/// Beside that list they stand once more, sorted, each with its lane's number, so that a key is found in a few steps however many there
/// are, and whoever picks the keys can't make it take more.
#[derive(Drop)]
pub struct LaneKeys {
    /// The keys, in their order.
    keys: Vec<u64>,
    /// The keys with their lanes, the lowest key first.
    sorted: Vec<NumberedKey>,
}

impl Model for LaneKeys {
    ghost use Rattle.std.specs.Prelude.{List, ℕ};
    ghost use Rattle.rsx_grouping.specs.Keys.{IsIndex};

    ghost Value = { List ℕ };

    ghost view = { λ k. k.keys.items };

    ghost invariant = { λ k. IsIndex k.keys.items k.sorted.items };
}

/// Where this key stands among these, looked at one by one.
fn look_for(keys: &[u64], key: u64) -> Option<usize>
    ensures { result ≡ position (nat_eq key) keys.now }
{
    keys.iter().position(|other| key == *other)
}

/// Where this key stands among these, or where it would stand.
fn search(sorted: &[NumberedKey], key: u64) -> Result<usize, usize>
    requires { Rises sorted.now }
    ensures found { IfOk result (IsAt sorted.now key) }
    ensures absent { IfErr result (IsGapFor sorted.now key) }
{
    sorted.binary_search_by_key(&key, |numbered| numbered.key)
}

impl LaneKeys {
    ghost use Rattle.std.specs.Prelude.{◌≡◌, ℕ, List, [], ◌∷◌, ◌++◌, nat_eq, slice_get, is_some, Some, IfSome, OnOk, OnErr};
    ghost use Rattle.std.specs.Set.{is_member};
    ghost use Rattle.rsx_values.specs.Group.{see, has_place};
    ghost use Rattle.rsx_grouping.specs.Keys.{IsPlaceOf};

    /// No keys. It takes no memory.
    pub fn new(alloc: Global) -> LaneKeys
        ensures { result ≡ [] }
    {
        LaneKeys {
            keys: Vec::new(alloc),
            sorted: Vec::new(alloc),
        }
    }

    /// The keys, in their order.
    pub(crate) fn as_slice(&self) -> &[u64]
        ensures { result.now ≡ self.now }
    {
        self.keys.as_slice()
    }

    /// The number of the lane that has this key, if one has it.
    pub fn lane_of(&self, key: u64) -> Option<usize>
        ensures lane { IfSome result (λ i. slice_get self.now i ≡ Some key) }
        ensures found { is_some result ≡ is_member nat_eq self.now key }
    {
        // Few keys are looked at one by one, which is quicker.
        if self.keys.len() <= FEW_KEYS {
            return look_for(self.keys.as_slice(), key);
        }
        match search(self.sorted.as_slice(), key) {
            Ok(at) => Some(self.sorted[at].lane),
            Err(_) => None,
        }
    }

    /// Whether a lane has this key, or may have it as one more: the key after the last of [`MOST_KEYS`] is a fault.
    pub fn has_place(&self, key: u64) -> bool
        ensures { result ≡ has_place self.now key }
    {
        self.keys.len() < MOST_KEYS || self.lane_of(key).is_some()
    }

    /// Where an item of this key goes.
    pub fn place_of(&self, key: u64) -> KeyPlace
        ensures { IsPlaceOf self.now key result }
    {
        match self.lane_of(key) {
            Some(lane) => KeyPlace::Lane(lane),
            None if self.keys.len() < MOST_KEYS => KeyPlace::New,
            None => KeyPlace::Nowhere,
        }
    }

    /// Puts a key last, unless it is there.
    ///
    /// # Errors
    /// [`NoMemory`] where a growth was refused; then nothing has changed.
    pub fn add(&mut self, key: u64) -> Result<(), NoMemory>
        ensures keys { OnOk result (self.new ≡ see self.old key) }
        ensures same { OnErr result (self.new ≡ self.old) }
    {
        let Err(at) = search(self.sorted.as_slice(), key) else {
            return Ok(());
        };
        self.keys.reserve(1)?;
        let lane = self.keys.len();
        if self.sorted.insert(at, NumberedKey { key, lane }).is_err() {
            return Err(NoMemory);
        }
        self.keys.push_reserved(key);
        Ok(())
    }

    /// Lets the last key go. It keeps its memory.
    pub fn remove_last(&mut self)
        ensures { (ks : List ℕ) (k : ℕ) → self.old ≡ ks ++ k ∷ [] → self.new ≡ ks }
    {
        let Some(key) = self.keys.pop() else {
            return;
        };
        if let Ok(at) = search(self.sorted.as_slice(), key) {
            let _numbered = self.sorted.remove(at);
        }
    }
}
