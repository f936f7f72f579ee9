//! The links of emitters and taps, each opened with both of its ends.

ghost use Rattle.std.specs.Prelude.{IfOk};
ghost use Rattle.rsx_serialized.specs.Opens.{IsEmitterLink, IsTapLink};

use crate::ends::{FromEmitter, ToTap};
use rsx_demand::{Demand, UNBOUNDED};
use rsx_link::Link;
use rsx_runtime::{Emitter, Tap};
use rsx_types::{CAPACITY, HubId, NoMemory, SubId};
use std::alloc::Global;

/// The link of an emitter, with both ends.
#[derive(Drop)]
pub struct EmitterLink<T> {
    /// The link.
    pub link: Link<T>,
    /// The emitter.
    pub emitter: Emitter<T>,
    /// The end of the graph's holder.
    pub inlet: FromEmitter<T>,
}

/// The link of a tap, with both ends.
#[derive(Drop)]
pub struct TapLink<T> {
    /// The link.
    pub link: Link<T>,
    /// The tap.
    pub tap: Tap<T>,
    /// The end of the graph's holder.
    pub outlet: ToTap<T>,
}

impl<T: Drop> EmitterLink<T> {
    /// Opens the link with this number, for an emitter of this hub, which has accepted so many items. `ended` says whether the hub has
    /// ended. The link has room for [`CAPACITY`] signals, and takes 2^63 - 1 items less those.
    ///
    /// # Errors
    /// [`NoMemory`] where a growth was refused.
    pub fn open(
        alloc: Global,
        hub: HubId,
        number: u32,
        accepted: u64,
        ended: bool,
    ) -> Result<EmitterLink<T>, NoMemory>
        ensures { IfOk result (λ o. IsEmitterLink hub number accepted ended o) }
    {
        let demand = Demand {
            asked: UNBOUNDED,
            sent: UNBOUNDED.min(accepted),
        };
        let (link, up, down, seat) = Link::open(alloc, CAPACITY, demand)?;
        Ok(EmitterLink {
            link,
            emitter: Emitter::new(hub, number, up, ended),
            inlet: FromEmitter {
                hub,
                down,
                waiting: None,
                seat,
            },
        })
    }
}

impl<T: Drop> TapLink<T> {
    /// Opens the link with this number, for the tap of this subscription, which asked for so much and was delivered so much. `is_open` says
    /// whether it is open. The link has room for [`CAPACITY`] signals, and no flag of it is set.
    ///
    /// # Errors
    /// [`NoMemory`] where a growth was refused.
    pub fn open(
        alloc: Global,
        sub: SubId,
        number: u32,
        demand: Demand,
        is_open: bool,
    ) -> Result<TapLink<T>, NoMemory>
        ensures { IfOk result (λ o. IsTapLink sub number demand.asked is_open o) }
    {
        let (link, up, down, seat) = Link::open(alloc, CAPACITY, demand)?;
        Ok(TapLink {
            link,
            tap: Tap::new(sub, number, down, seat, is_open),
            outlet: ToTap {
                up,
                asked: demand.asked,
            },
        })
    }
}
