//! A graph that came back from behind its gate, between the links of its emitters and its taps.

ghost use Rattle.std.specs.Prelude.{◌≡◌, ◌<◌, length};
ghost use Rattle.rsx_link.specs.Ends.{IsCancelSeatOf, IsDownOf};
ghost use Rattle.test_random.specs.Returned.{Along, AlongFew};

use rsx_link::Link;
use rsx_serialized::{FromEmitter, GraphRegion, Links, Tap};
use rsx_types::{Ops, Signal};

/// A graph, the links of its emitters and its taps, the ends that its holder has, and the taps.
#[derive(Drop)]
pub struct Returned<O: Ops> {
    /// The graph, with the ends that its holder has.
    pub region: GraphRegion<O>,
    /// The links.
    pub links: Links<O::Item>,
    /// The taps: that of a subscription stands at the subscription's number.
    pub taps: Vec<Tap<O::Item>>,
}

impl<O: Ops> Returned<O> {
    ghost use Rattle.test_random.specs.Returned.{HasRest};

    /// What the tap of this subscription gives still of what is on its link.
    pub fn take_rest(&mut self, sub: u32) -> Option<Signal<O::Item>>
        requires { HasRest self.old }
        ensures { HasRest self.new }
    {
        let place = sub as usize;
        if place >= self.taps.len() {
            return None;
        }
        take_at(&self.links.taps, &mut self.taps, place)
    }

    /// What the emitter of this hub sent and the graph didn't take, the oldest first. It is no more there then.
    pub fn take_unpublished(&mut self, hub: u32) -> Option<Signal<O::Item>>
        requires { HasRest self.old }
        ensures { HasRest self.new }
    {
        let place = hub as usize;
        if place >= self.region.inlets.len() {
            return None;
        }
        next_at(&self.links.emitters, &mut self.region.inlets, place)
    }
}

/// Takes the next signal by the tap at this place.
fn take_at<T: Drop>(links: &Vec<Link<T>>, taps: &mut Vec<Tap<T>>, place: usize) -> Option<Signal<T>>
    requires there { place < length taps.old.items }
    requires own { AlongFew links.now.items taps.old.items (λ k l t. (t.link ≡ k) × (IsDownOf l t.down × IsCancelSeatOf l t.seat)) }
    ensures { AlongFew links.now.items taps.new.items (λ k l t. (t.link ≡ k) × (IsDownOf l t.down × IsCancelSeatOf l t.seat)) }
{
    taps[place].take_over(&links[place])
}

/// The next signal of the emitter at this place: the one that waits, or else what is on its link.
fn next_at<T: Drop>(
    links: &Vec<Link<T>>,
    inlets: &mut Vec<FromEmitter<T>>,
    place: usize,
) -> Option<Signal<T>>
    requires there { place < length inlets.old.items }
    requires own { Along links.now.items inlets.old.items (λ k l i. IsDownOf l i.down) }
    ensures { Along links.now.items inlets.new.items (λ k l i. IsDownOf l i.down) }
{
    next_of(&mut inlets[place], &links[place])
}

/// The same of one end and its link.
fn next_of<T: Drop>(inlet: &mut FromEmitter<T>, link: &Link<T>) -> Option<Signal<T>>
    requires { IsDownOf link.now inlet.old.down }
    ensures { IsDownOf link.now inlet.new.down }
{
    match inlet.waiting.take() {
        Some(signal) => Some(signal),
        None => inlet.down.take(link),
    }
}
