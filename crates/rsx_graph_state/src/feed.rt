//! Feeds: parts whose signals hubs take in.

use rsx_demand::UNBOUNDED;
use rsx_pipe::{NoRoom, NodeMove, Nodes, Part};
use rsx_rooted::Batches;
use rsx_tree::Node;
use rsx_types::Signal;

/// The region of every hub.
pub const HUB_REGION: u8 = 0;

/// A part whose signals a hub takes in, which publishes so what an expression gives. What goes over the part's root edge is taken
/// in by the hub in the same move. Where the root isn't in the region of the hub, the root has a queue in front of that edge.
#[derive(Drop)]
pub struct Feed<N> {
    /// The part of the expression.
    pub part: Part<N>,
    /// The number of the hub that it feeds. Its expression reads hubs with lower numbers only.
    pub hub: u32,
}

impl<N: Nodes<Item = T>, T: Drop> Feed<N> {
    ghost use Rattle.std.specs.Prelude.{◌≡◌, min, true, List, None, [], ◌∷◌, ◌++◌, length, IfSome, IfNone};
    ghost use Rattle.rsx_hub.specs.Hub.{HubState};
    ghost use Rattle.rsx_model.specs.declared.expr.Expr.{Expr};
    ghost use Rattle.rsx_pipe.specs.Built.{IsBuilt, new_joins};
    ghost use Rattle.rsx_types.specs.Meaning.{Meaning};
    ghost use Rattle.rsx_types.specs.Stream.{Stream, ended_by};
    ghost use Rattle.rsx_types.specs.declared.signal.Ending.TheVariants.{Open};
    ghost use Rattle.rsx_pipe.specs.Feeding.{IsQuietInside, inside_enabled, next_out};
    ghost use Rattle.rsx_pipe.specs.Part.{IsNumbered};
    ghost use Rattle.rsx_pipe.specs.Published.{AreTaken};
    ghost use Rattle.rsx_tree.specs.Edges.{edge_view};
    ghost use Rattle.rsx_tree.specs.Handed.{IsHandedOut};
    ghost use Rattle.rsx_graph_state.specs.Feeds.{FeedStands, begun_edge, IsFeedHanded, has_room_at, reads_at};

    /// The feed of this tree, for the hub with this number, into which nothing was sent yet. As much as can be is asked of it from
    /// the start. Where the tree was made for an expression over the hubs before that one, so is the feed.
    pub fn new(tree: Node<N>, hub: u32) -> Feed<N>
        ensures stands { (m : Meaning T) (hubs : List (HubState T)) (e : Expr T) (published : List (Stream T)) →
            hub ≡ length hubs → IsBuilt N.Machine m hubs e tree → AreTaken hubs published →
            FeedStands N.Machine m (published ++ ended_by Open ∷ []) result e (new_joins hubs e) }
        ensures hub { result.hub ≡ hub }
        ensures tree { result.part.tree ≡ tree }
        ensures root { edge_view result.part.root ≡ begun_edge }
    {
        let mut part = Part::new(tree);
        part.request(UNBOUNDED);
        Feed { part, hub }
    }

    /// The first enabled move inside the feed's part, from the root down. None where no such move is enabled.
    pub fn first_work(&self) -> Option<NodeMove>
        ensures some { (m : Meaning T) → IfSome result (λ step. IsNumbered step × (inside_enabled N.Machine m self.now.part step ≡ true)) }
        ensures none { (m : Meaning T) → IfNone result (IsQuietInside N.Machine m self.now.part) }
    {
        self.part.first_enabled(&NoRoom)
    }

    /// Whether no move inside the feed is enabled and its root edge carries nothing now, so that no move of it is enabled, whatever room its
    /// hub's readers have. Where it answers no, some move may be or not.
    pub fn rests(&self) -> bool
        ensures { (m : Meaning T) → result ≡ true → IsQuietInside N.Machine m self.now.part × (next_out N.Machine m self.now.part ≡ None) }
    {
        match self.part.next_out() {
            Some(_) => false,
            None => self.part.is_idle(&NoRoom),
        }
    }

    /// How many nodes of the feed's part read the hub with this number, but at most `most`. Of its own hub, and of those that come
    /// behind it, none does.
    pub fn readers_up_to(&self, hub: u64, most: u32) -> u32
        ensures { result ≡ min (reads_at N.Machine hub self.now) most }
    {
        if hub < u64::from(self.hub) {
            return self.part.readers_up_to(hub, most);
        }
        0
    }

    /// Whether all nodes of its part that read the hub have room for an item of it. An ending needs no room.
    pub fn has_room_for(&self, hub: u64) -> bool
        ensures { result ≡ has_room_at N.Machine hub self.now }
    {
        if hub < u64::from(self.hub) {
            return self.part.has_room_for(hub);
        }
        true
    }

    /// Hands a signal that the hub took in to each node of its part that reads the hub, out of a list that has it once for each;
    /// what else stands in the list stays. For an item there is room at all of them ([`Feed::has_room_for`]).
    pub fn hand(&mut self, hub: u64, signals: &mut Vec<Signal<T>>)
        ensures { IsHandedOut (reads_at N.Machine hub self.old) (has_room_at N.Machine hub self.old) signals.old.items signals.new.items
            (λ s. IsFeedHanded N.Machine hub s self.old self.new) }
    {
        if hub < u64::from(self.hub) {
            self.part.hand(hub, signals);
        }
    }
}

impl<N: Nodes<Item = T> + Batches, T: Drop> Feed<N> {
    ghost use Rattle.std.specs.Prelude.{◌≡◌, ℕ};
    ghost use Rattle.rsx_rooted.specs.Taking.{AreTakenOff};
    ghost use Rattle.rsx_tree.specs.Runs.{Leads};
    ghost use Rattle.rsx_graph_state.specs.Feeds.{IsItemHandedToFeed, reads_at, spaces_at};

    /// For how many items of the hub with this number all nodes of its part that read the hub have room at once, but at most `most`.
    pub fn spaces_for(&self, hub: u64, most: u64) -> u64
        ensures { result ≡ spaces_at N.Machine N.spaces_of hub most self.now }
    {
        if hub < u64::from(self.hub) {
            return self.part.spaces_for(hub, most);
        }
        most
    }

    /// Hands so many items of the hub to each node of its part that reads the hub. They stand at the end of a list, the first of them
    /// last, once for each of these nodes, and are taken out there; what else stands in the list stays. Each of the nodes has room
    /// for them ([`Feed::spaces_for`]).
    pub fn hand_many(&mut self, hub: u64, items: &mut Vec<T>, count: u64)
        ensures { (most : ℕ) → AreTakenOff (reads_at N.Machine hub self.old) count (spaces_at N.Machine N.spaces_of hub most self.old) items.old.items items.new.items
            (λ xs. Leads (IsItemHandedToFeed N.Machine hub) self.old xs self.new) }
    {
        if hub < u64::from(self.hub) {
            self.part.hand_many(hub, items, count);
        }
    }
}
