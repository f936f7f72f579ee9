//! What the calls of a hub refuse.

ghost use Rattle.std.specs.Prelude.{◌≡◌};
ghost use Rattle.rsx_hub.specs.declared.refusal.HubRefusal.TheVariants.{NoMemory as HubNoMemory};
ghost use Rattle.rsx_hub.specs.declared.refusal.TakeInRefusal.TheVariants.{NoMemory as TakeInNoMemory};
ghost use Rattle.rsx_hub.specs.declared.refusal.AdmitRefusal.TheVariants.{NoMemory as AdmitNoMemory};

use rsx_types::NoMemory;
use std::alloc::AllocError;

/// Why a hub was not made.
#[derive(Clone, Copy, Debug, PartialEq, Eq)]
pub enum HubRefusal {
    /// The capacity or the number of items to replay is not 1 to 1,024.
    BadNumber,
    /// A growth was refused.
    NoMemory,
}

impl From<AllocError> for HubRefusal {
    ghost from_gives = { λ _ e. e ≡ HubNoMemory };

    fn from(_e: AllocError) -> HubRefusal {
        HubRefusal::NoMemory
    }
}

/// Why an item was not accepted. The item comes back.
#[derive(Debug, Drop)]
pub enum Rejected<T> {
    /// The hub has ended.
    Ended(T),
    /// The hub has accepted 2^63 - 1 items.
    TooMany(T),
    /// The inbox holds as many items as the hub's capacity, or more.
    Full(T),
}

/// The emitter of the hub has ended already.
#[derive(Clone, Copy, Debug, PartialEq, Eq)]
pub struct HasEnded;

/// Why a signal of a feed was not taken in.
#[derive(Clone, Copy, Debug, PartialEq, Eq)]
pub enum TakeInRefusal {
    /// The hub has ended.
    Ended,
    /// Items wait in the inbox, and go first.
    Waiting,
    /// The hub has accepted 2^63 - 1 items.
    TooMany,
    /// A growth was refused.
    NoMemory,
}

impl From<NoMemory> for TakeInRefusal {
    ghost from_gives = { λ _ e. e ≡ TakeInNoMemory };

    fn from(_e: NoMemory) -> TakeInRefusal {
        TakeInRefusal::NoMemory
    }
}

/// Why there is no new member.
#[derive(Clone, Copy, Debug, PartialEq, Eq)]
pub enum AdmitRefusal {
    /// The hub has had 64 members.
    TooMany,
    /// A growth was refused.
    NoMemory,
}

impl From<NoMemory> for AdmitRefusal {
    ghost from_gives = { λ _ e. e ≡ AdmitNoMemory };

    fn from(_e: NoMemory) -> AdmitRefusal {
        AdmitRefusal::NoMemory
    }
}
