//! Subscriptions of which some have pieces in place of their parts.

ghost use Rattle.std.specs.Prelude.{◌≡◌, ◌+◌, ◌≤◌, ◌++◌, ◌∷◌, [], false, List, ℕ, length, IfErr, IfOk};
ghost use Rattle.std.specs.Vec.{vec_capacity};
ghost use Rattle.std.specs.Vec.Iter.{into_iter_items, into_iter_len};
ghost use Rattle.rsx_live_parts.specs.Kept.{CameBack, CameFirst, CanComeBack, CanComeFirst};
ghost use Rattle.rsx_subscriber.specs.declared.subscription.Subscription.{Subscription as SubscriptionSpec};

use crate::outgoing::{Outgoing, Stay, go_out};
use crate::returning::come_back;
use rsx_link::Link;
use rsx_pipe::{Nodes, SignalQueue};
use rsx_region::Piece;
use rsx_runtime::Tap;
use rsx_subscriber::Subscription;
use rsx_types::{NoMemory, SubId};
use std::alloc::Global;
use std::vec::IntoIter;

/// What is kept of a subscription while the graph is live.
#[derive(Drop)]
pub enum Kept<N, T> {
    /// Its part is a piece. This is its queue, which is empty, and how many items its subscriber was delivered before.
    Away(SignalQueue<T>, u64),
    /// It stays as it is.
    Here(Subscription<N, T>),
}

/// Subscriptions of which some have pieces in place of their parts.
#[derive(Drop)]
pub struct Parted<N, T> {
    /// The pieces, in the order of their subscriptions.
    pub pieces: Vec<Piece<N, T>>,
    /// The link that each piece sends into, in the same order. Its number is its place.
    pub links: Vec<Link<T>>,
    /// The tap of each link, in the same order.
    pub taps: Vec<Tap<T>>,
    /// What is kept of each subscription, in the order of their numbers.
    pub kept: Vec<Kept<N, T>>,
    /// Whether one stays as it is for want of memory or of a number.
    pub refused: bool,
}

impl<N: Nodes<Item = T> + Drop, T: Drop> Parted<N, T> {
    ghost use Rattle.rsx_live_parts.specs.Kept.{AllMustStay, AreOut, ArePartedBy, HasMore, HasRoomFor, StaysOnly};
    ghost use Rattle.rsx_live_parts.specs.declared.kept.Kept.{Kept as KeptSpec};

    /// Makes pieces of the parts of subscriptions, where that can be ([`go_out`]). They come in the order of their numbers.
    ///
    /// # Errors
    /// The subscriptions come back where a growth was refused for the lists.
    pub(crate) fn of(
        alloc: Global,
        subs: Vec<Subscription<N, T>>,
    ) -> Result<Parted<N, T>, Vec<Subscription<N, T>>>
        ensures ok { IfOk result (λ p. AreOut N.Machine 0 subs.items p.kept.items p.pieces.items p.links.items p.taps.items) }
        ensures stay { IfOk result (λ p. p.refused ≡ false → AllMustStay N.Machine p.kept.items) }
        ensures err { IfErr result (λ back. back ≡ subs) }
    {
        let Ok(mut parted) = Parted::with_room(alloc, subs.len()) else {
            return Err(subs);
        };
        parted.add_each(alloc, &mut subs.into_iter());
        Ok(parted)
    }

    /// None yet, with room for what so many subscriptions become.
    fn with_room(alloc: Global, count: usize) -> Result<Parted<N, T>, NoMemory>
        ensures none { IfOk result (λ p. (p.pieces.items ≡ []) × (p.links.items ≡ []) × (p.taps.items ≡ []) × (p.kept.items ≡ [])) }
        ensures room { IfOk result (λ p. HasRoomFor count p) }
    {
        Ok(Parted {
            pieces: Vec::with_capacity(alloc, count)?,
            links: Vec::with_capacity(alloc, count)?,
            taps: Vec::with_capacity(alloc, count)?,
            kept: Vec::with_capacity(alloc, count)?,
            refused: false,
        })
    }

    /// Puts what becomes of these subscriptions behind the others. It calls itself once for each.
    fn add_each(&mut self, alloc: Global, subs: &mut IntoIter<Subscription<N, T>>)
        requires room { HasRoomFor (length (into_iter_items subs.old)) self.old }
        requires len { into_iter_len subs.old ≡ length (into_iter_items subs.old) }
        ensures parted { ArePartedBy N.Machine (into_iter_items subs.old) self.old self.new }
        ensures stay { StaysOnly N.Machine self.old self.new }
    {
        let Some(sub) = subs.next() else {
            return;
        };
        self.add(alloc, sub);
        self.add_each(alloc, subs);
    }

    /// Puts what becomes of this subscription behind the others.
    fn add(&mut self, alloc: Global, sub: Subscription<N, T>)
        requires { HasRoomFor 1 self.old }
        ensures parted { ArePartedBy N.Machine (sub ∷ []) self.old self.new }
        ensures stay { StaysOnly N.Machine self.old self.new }
        ensures room { (count : ℕ) → HasRoomFor (count + 1) self.old → HasRoomFor count self.new }
    {
        let (Ok(id), Ok(link)) = (
            u32::try_from(self.kept.len()),
            u32::try_from(self.links.len()),
        ) else {
            self.refused = true;
            self.kept.push_reserved(Kept::Here(sub));
            return;
        };
        let delivered = sub.delivered();
        match go_out(alloc, sub, SubId(id), link) {
            Ok(out) => self.put(out, delivered),
            Err((sub, why)) => {
                self.refused |= matches!(why, Stay::NoMemory);
                self.kept.push_reserved(Kept::Here(sub));
            }
        }
    }

    /// Puts a piece with its link and its tap behind the others, and its queue behind what is kept.
    fn put(&mut self, out: Outgoing<N, T>, delivered: u64)
        requires { HasRoomFor 1 self.old }
        ensures more { HasMore self.old (KeptSpec.Away out.queue delivered ∷ []) (out.piece ∷ []) (out.link ∷ []) (out.tap ∷ []) self.new }
        ensures refused { self.new.refused ≡ self.old.refused }
        ensures room { (count : ℕ) → HasRoomFor (count + 1) self.old → HasRoomFor count self.new }
    {
        let Outgoing {
            piece,
            link,
            tap,
            queue,
        } = out;
        self.pieces.push_reserved(piece);
        self.links.push_reserved(link);
        self.taps.push_reserved(tap);
        self.kept.push_reserved(Kept::Away(queue, delivered));
    }
}

/// Makes subscriptions again of what was kept of them, and of the pieces, links and taps of those that have some, and puts them behind
/// others, for which there is room. It undoes what [`Parted::of`] does, takes no memory, and calls itself once for each subscription.
pub(crate) fn come_back_each<N: Nodes<Item = T> + Drop, T: Drop>(
    kept: &mut IntoIter<Kept<N, T>>,
    pieces: &mut IntoIter<Piece<N, T>>,
    links: &mut IntoIter<Link<T>>,
    taps: &mut IntoIter<Tap<T>>,
    subs: &mut Vec<Subscription<N, T>>,
)
    requires can { CanComeBack N.Machine (into_iter_items kept.old) (into_iter_items pieces.old) (into_iter_items links.old) (into_iter_items taps.old) }
    requires room { length subs.old.items + length (into_iter_items kept.old) ≤ vec_capacity subs.old }
    requires len { into_iter_len kept.old ≡ length (into_iter_items kept.old) }
    ensures { (back : List (SubscriptionSpec N T)) × CameBack N.Machine (into_iter_items kept.old) (into_iter_items pieces.old) (into_iter_items links.old) (into_iter_items taps.old) back × (subs.new.items ≡ subs.old.items ++ back) }
{
    let Some(first) = kept.next() else {
        return;
    };
    let sub = come_back_one(first, pieces, links, taps);
    subs.push_reserved(sub);
    come_back_each(kept, pieces, links, taps, subs);
}

/// Makes one subscription again, of the first of the others where it has a piece.
fn come_back_one<N: Nodes<Item = T> + Drop, T: Drop>(
    kept: Kept<N, T>,
    pieces: &mut IntoIter<Piece<N, T>>,
    links: &mut IntoIter<Link<T>>,
    taps: &mut IntoIter<Tap<T>>,
) -> Subscription<N, T>
    requires { CanComeFirst kept (into_iter_items pieces.old) (into_iter_items links.old) (into_iter_items taps.old) }
    ensures { CameFirst N.Machine kept (into_iter_items pieces.old) (into_iter_items links.old) (into_iter_items taps.old) (into_iter_items pieces.new) (into_iter_items links.new) (into_iter_items taps.new) result }
{
    match kept {
        Kept::Here(sub) => sub,
        Kept::Away(queue, _) => {
            let piece = pieces.next().unwrap();
            let link = links.next().unwrap();
            let tap = taps.next().unwrap();
            let (sub, _) = come_back(piece, link, tap, queue);
            sub
        }
    }
}
