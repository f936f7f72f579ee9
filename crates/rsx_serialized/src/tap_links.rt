//! The links of the taps of a graph's subscriptions.

ghost use Rattle.std.specs.Prelude.{◌≡◌, IfOk, true};
ghost use Rattle.rsx_subscriber.specs.Stands.{standing_of};
ghost use Rattle.rsx_serialized.specs.Opens.{IsTapLink};
ghost use Rattle.rsx_serialized.specs.Starting.{is_open_state};

use crate::ends::ToTap;
use crate::links::TapLink;
use rsx_demand::Demand;
use rsx_graph::{Subscription, SubscriptionState};
use rsx_link::Link;
use rsx_runtime::Tap;
use rsx_types::{NoMemory, SubId};
use std::alloc::Global;

/// The links of taps, with both ends of each at the place of the link: those of subscriptions, and behind them those for subscriptions to
/// come.
#[derive(Drop)]
pub(crate) struct TapLinks<T> {
    /// The links.
    pub(crate) links: Vec<Link<T>>,
    /// The taps of the subscriptions.
    pub(crate) taps: Vec<Tap<T>>,
    /// The ends of the graph's holder.
    pub(crate) outlets: Vec<ToTap<T>>,
    /// The taps for subscriptions to come.
    pub(crate) spare: Vec<Tap<T>>,
}

impl<T: Drop> TapLinks<T> {
    ghost use Rattle.std.specs.Prelude.{◌≡◌, ◌+◌, ◌≤◌, [], IfOk, OnOk, length};
    ghost use Rattle.rsx_graph_state.specs.declared.TheConstants.{MOST_SUBSCRIPTIONS};
    ghost use Rattle.rsx_serialized.specs.Starting.{AreTapLinks, HasPlace, HasTapLink};

    /// Opens a link for the tap of each subscription, in the order of their numbers.
    ///
    /// # Errors
    /// [`NoMemory`] where a growth was refused.
    pub(crate) fn of<N>(alloc: Global, subs: &[Subscription<N, T>]) -> Result<TapLinks<T>, NoMemory>
        requires { length subs.now ≤ MOST_SUBSCRIPTIONS }
        ensures { IfOk result (λ o. AreTapLinks subs.now (length subs.now) 0 o) }
    {
        let mut opened = TapLinks::none(alloc);
        for (number, sub) in subs.iter().enumerate() {
            let link = open_tap(alloc, sub, number as u32)?;
            opened.add(link)?;
        }
        Ok(opened)
    }

    /// Opens links for so many subscriptions to come, behind those of these subscriptions.
    ///
    /// # Errors
    /// [`NoMemory`] where a growth was refused.
    pub(crate) fn open_places<N>(
        &mut self,
        alloc: Global,
        subs: &[Subscription<N, T>],
        places: u32,
    ) -> Result<(), NoMemory>
        requires few { length subs.now + places ≤ MOST_SUBSCRIPTIONS }
        requires links { AreTapLinks subs.now (length subs.now) 0 self.old }
        ensures { OnOk result (AreTapLinks subs.now (length subs.now) places self.new) }
    {
        for place in 0..places {
            let number = subs.len() as u32 + place;
            let link = open_place(alloc, number)?;
            self.add_place(link)?;
        }
        Ok(())
    }

    /// No links.
    fn none(alloc: Global) -> TapLinks<T>
        ensures { (result.links.items ≡ []) × (result.taps.items ≡ []) × (result.outlets.items ≡ []) × (result.spare.items ≡ []) }
    {
        TapLinks {
            links: Vec::new(alloc),
            taps: Vec::new(alloc),
            outlets: Vec::new(alloc),
            spare: Vec::new(alloc),
        }
    }

    /// Puts a link with its ends behind the others.
    ///
    /// # Errors
    /// [`NoMemory`] where a growth was refused.
    fn add(&mut self, opened: TapLink<T>) -> Result<(), NoMemory>
        ensures { OnOk result (HasTapLink self.old opened self.new) }
    {
        let TapLink { link, tap, outlet } = opened;
        self.links.push(link)?;
        self.taps.push(tap)?;
        self.outlets.push(outlet)?;
        Ok(())
    }

    /// Puts a link for a subscription to come behind the others, with its ends.
    ///
    /// # Errors
    /// [`NoMemory`] where a growth was refused.
    fn add_place(&mut self, opened: TapLink<T>) -> Result<(), NoMemory>
        ensures { OnOk result (HasPlace self.old opened self.new) }
    {
        let TapLink { link, tap, outlet } = opened;
        self.links.push(link)?;
        self.spare.push(tap)?;
        self.outlets.push(outlet)?;
        Ok(())
    }
}

/// Opens the link with this number for a subscription to come. Nothing was asked for.
///
/// # Errors
/// [`NoMemory`] where a growth was refused.
fn open_place<T: Drop>(alloc: Global, number: u32) -> Result<TapLink<T>, NoMemory>
    ensures { IfOk result (λ x. IsTapLink (record { 0 = number }) number 0 true x) }
{
    let nothing = Demand { asked: 0, sent: 0 };
    TapLink::open(alloc, SubId(number), number, nothing, true)
}

/// Opens the link with this number for the tap of the subscription with the same number. It counts on from what the subscriber asked for
/// and was delivered.
///
/// # Errors
/// [`NoMemory`] where a growth was refused.
fn open_tap<N, T: Drop>(
    alloc: Global,
    sub: &Subscription<N, T>,
    number: u32,
) -> Result<TapLink<T>, NoMemory>
    ensures { IfOk result (λ x. IsTapLink (record { 0 = number }) number sub.now.demand.asked (is_open_state (standing_of sub.now)) x) }
{
    let demand = Demand {
        asked: sub.asked(),
        sent: sub.delivered(),
    };
    let is_open = matches!(sub.standing(), SubscriptionState::Open);
    TapLink::open(alloc, SubId(number), number, demand, is_open)
}
