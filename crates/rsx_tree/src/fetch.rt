//! An item pulled through a whole tree in one go.

ghost use Rattle.std.specs.Prelude.{◌≡◌, true};
ghost use Rattle.rsx_tree.specs.Edges.{can_pass, edge_view};
ghost use Rattle.rsx_tree.specs.Fetched.{IsHanded, IsOut};

use crate::edge::Edge;
use crate::inputs::{Inputs, ask_over};
use crate::node::Node;
use crate::step::{step_item_over, step_over};
use rsx_sources::{Front, Machine, Passed};
use rsx_types::{NoMemory, Ops, Signal};
use std::alloc::Global;

/// What came of an item that was handed over an edge.
#[derive(Drop)]
pub(crate) enum Handed<T> {
    /// It went over, and this item went out of the receiver again.
    Item(T),
    /// It went over, and nothing was put out for it.
    Kept,
    /// It went back into its sender.
    Back,
}

/// What came of the way to an item of a sender.
#[derive(Drop)]
pub(crate) enum Pulled<T> {
    /// This item, which it offered, went out of it.
    Item(T),
    /// Moves were made, and it may offer an item by now.
    Moved,
    /// Nothing more can be done now.
    Nothing,
}

impl<M: Machine> Inputs<M> {
    ghost use Rattle.rsx_tree.specs.Fetched.{IsPulled, IsRowFetched};

    /// Makes enabled moves over the first edge of the row, of its sender, and below it, until `receiver` offers an item, which is
    /// taken out of it. The edge is input `input` of the receiver, of which `asked` is asked and which sent `sent`. Each move
    /// takes one of the budget that is `left`. It answers nothing where the budget is used up, where the receiver declines an
    /// item or has enough of them, or where it comes upon an ending, a fault or want of memory: then the moves made stand, and
    /// [`Inputs::drive`] goes on from there.
    ///
    /// The receiver offers no item when it is called.
    #[cycle(fetch)]
    #[inline(always)]
    pub(crate) fn fetch<O: Ops<Item = M::Item>>(
        &mut self,
        alloc: Global,
        ops: &O,
        receiver: &mut M,
        input: u64,
        asked: u64,
        sent: u64,
        left: &mut u32,
    ) -> Option<M::Item>
        ensures { IsRowFetched M.Machine (O.meaning ops.now) left.old input asked sent receiver.old self.old
            result left.new receiver.new self.new }
    {
        match self {
            Inputs::End => None,
            Inputs::More(edge, sender, below, _) => {
                'items: loop {
                    if !edge.can_carry(Front::Item) {
                        if *left == 0 {
                            return None;
                        }
                        match ask_over(receiver, input, asked, sent, edge, sender) {
                            Ok(()) => *left -= 1,
                            Err(_) => return None,
                        }
                    } else {
                        match below.pull(alloc, ops, edge, sender, left) {
                            Pulled::Item(item) => {
                                match hand_over(
                                    alloc, ops, receiver, input, edge, sender, item, left,
                                ) {
                                    Handed::Item(item) => return Some(item),
                                    Handed::Kept => {}
                                    Handed::Back => return None,
                                }
                            }
                            Pulled::Moved => {}
                            Pulled::Nothing => return None,
                        }
                    }
                }
            }
        }
    }

    /// Takes the item out that the sender over this row offers over its edge. Where it offers none, makes a pick or a row of
    /// it, with the item that comes of it at once where the sender does both; or where none is enabled makes moves of the row
    /// until the sender offers an item.
    #[cycle(fetch)]
    #[inline(always)]
    fn pull<O: Ops<Item = M::Item>>(
        &mut self,
        alloc: Global,
        ops: &O,
        edge: &Edge,
        sender: &mut M,
        left: &mut u32,
    ) -> Pulled<M::Item>
        ensures { IsPulled M.Machine (O.meaning ops.now) left.old edge.now sender.old self.old result left.new sender.new self.new }
    {
        if let Some(item) = sender.pop_item(alloc, ops) {
            return Pulled::Item(item);
        }
        if *left == 0 {
            return Pulled::Nothing;
        }
        if sender.never_steps() {
            return self.pull_below(alloc, ops, edge, sender, left);
        }
        if let Some(item) = step_item_over(alloc, ops, edge, sender, self) {
            *left -= 1;
            return Pulled::Item(item);
        }
        match step_over(alloc, ops, edge, sender, self) {
            Ok(true) => {
                *left -= 1;
                return Pulled::Moved;
            }
            Ok(false) => {}
            Err(NoMemory) => return Pulled::Nothing,
        }
        self.pull_below(alloc, ops, edge, sender, left)
    }

    /// Makes moves of the row below the sender until that offers an item, and takes it out.
    #[cycle(fetch)]
    #[inline(always)]
    fn pull_below<O: Ops<Item = M::Item>>(
        &mut self,
        alloc: Global,
        ops: &O,
        edge: &Edge,
        sender: &mut M,
        left: &mut u32,
    ) -> Pulled<M::Item>
        ensures { IsPulled M.Machine (O.meaning ops.now) left.old edge.now sender.old self.old result left.new sender.new self.new }
    {
        let before = *left;
        match self.fetch_row(
            alloc,
            ops,
            sender,
            0,
            edge.demand.asked,
            edge.demand.sent,
            left,
        ) {
            Some(item) => Pulled::Item(item),
            None => {
                if *left == before {
                    return Pulled::Nothing;
                }
                Pulled::Moved
            }
        }
    }

    /// As [`Inputs::fetch`], over the edges beside the first, one after the other, where the first edge is input `input` of
    /// `receiver`.
    #[cycle(fetch)]
    #[inline(always)]
    pub(crate) fn fetch_beside<O: Ops<Item = M::Item>>(
        &mut self,
        alloc: Global,
        ops: &O,
        receiver: &mut M,
        input: u64,
        asked: u64,
        sent: u64,
        left: &mut u32,
    ) -> Option<M::Item>
        ensures { IsRowFetched M.Machine (O.meaning ops.now) left.old input asked sent receiver.old self.old
            result left.new receiver.new self.new }
    {
        match self {
            Inputs::End => None,
            Inputs::More(_, _, _, beside) => {
                // Most nodes have one input.
                if beside.is_end() {
                    return None;
                }
                match input.checked_add(1) {
                    Some(next) => beside.fetch_row(alloc, ops, receiver, next, asked, sent, left),
                    None => None,
                }
            }
        }
    }

    /// As [`Inputs::fetch`], over all edges of the row. The compiler puts the body of `fetch` for the topmost node where it is
    /// called, and this function for what is below.
    #[cycle(fetch)]
    #[inline(never)]
    fn fetch_row<O: Ops<Item = M::Item>>(
        &mut self,
        alloc: Global,
        ops: &O,
        receiver: &mut M,
        input: u64,
        asked: u64,
        sent: u64,
        left: &mut u32,
    ) -> Option<M::Item>
        ensures { IsRowFetched M.Machine (O.meaning ops.now) left.old input asked sent receiver.old self.old
            result left.new receiver.new self.new }
    {
        match self.fetch(alloc, ops, receiver, input, asked, sent, left) {
            Some(item) => Some(item),
            None => self.fetch_beside(alloc, ops, receiver, input, asked, sent, left),
        }
    }
}

impl<M: Machine> Node<M> {
    ghost use Rattle.rsx_tree.specs.Edges.{edge_view};
    ghost use Rattle.rsx_tree.specs.Fetched.{IsFetched, IsRootStepOut};

    /// Makes enabled moves until the root offers an item, and takes that out; `asked` and `sent` are those of the root's own
    /// edge. Each move takes one of the budget that is `left`.
    ///
    /// It answers nothing where the budget is used up, and where the way to an item over the first inputs isn't straight: at a
    /// node that declines an item, an ending, a fault, or want of memory. Then the moves made stand, and [`Node::drive`] goes
    /// on from there.
    #[inline(always)]
    pub fn fetch<O: Ops<Item = M::Item>>(
        &mut self,
        alloc: Global,
        ops: &O,
        asked: u64,
        sent: u64,
        left: &mut u32,
    ) -> Option<M::Item>
        ensures { IsFetched M.Machine (O.meaning ops.now) left.old self.old asked sent result left.new self.new }
    {
        match self.machine.pop_item(alloc, ops) {
            Some(item) => Some(item),
            None => match self
                .inputs
                .fetch(alloc, ops, &mut self.machine, 0, asked, sent, left)
            {
                Some(item) => Some(item),
                None => self
                    .inputs
                    .fetch_beside(alloc, ops, &mut self.machine, 0, asked, sent, left),
            },
        }
    }

    /// Makes a pick or a row of the root, over this edge of its own, and takes the item out that the root then offers, where the root
    /// does both at once ([`Machine::step_item`]). Where the root ended by the step, all below it is closed.
    ///
    /// It answers nothing where the edge isn't live, and where the root answers nothing; then nothing has changed.
    #[inline]
    pub fn step_item<O: Ops<Item = M::Item>>(
        &mut self,
        alloc: Global,
        ops: &O,
        edge: &Edge,
    ) -> Option<M::Item>
        ensures { IsRootStepOut M.Machine (O.meaning ops.now) self.old (edge_view edge.now) result self.new }
    {
        step_item_over(alloc, ops, edge, &mut self.machine, &mut self.inputs)
    }
}

/// Hands an item, which was taken out of the sender, over the edge into the first input of the receiver, and takes out what
/// that puts out for it. With nothing of the budget `left`, or where the receiver declines, the item goes back.
#[inline(always)]
fn hand_over<M: Machine, O: Ops<Item = M::Item>>(
    alloc: Global,
    ops: &O,
    receiver: &mut M,
    input: u64,
    edge: &mut Edge,
    sender: &mut M,
    item: M::Item,
    left: &mut u32,
) -> Handed<M::Item>
    requires { can_pass (edge_view edge.old) Front.Item ≡ true }
    ensures { (offering : M) → IsOut M.Machine (O.meaning ops.now) offering item sender.old →
        IsHanded M.Machine (O.meaning ops.now) left.old input receiver.old edge.old offering
        result left.new receiver.new edge.new sender.new }
{
    if *left == 0 {
        put_item_back(sender, item);
        return Handed::Back;
    }
    match receiver.pass(alloc, ops, input, item) {
        Passed::Item(item) => {
            edge.carry(Front::Item);
            *left -= 1;
            Handed::Item(item)
        }
        Passed::Kept => {
            edge.carry(Front::Item);
            *left -= 1;
            Handed::Kept
        }
        Passed::Declined(back) => {
            put_item_back(sender, back);
            Handed::Back
        }
    }
}

/// Puts an item back that was taken out of its sender. It seldom happens, so it isn't inlined.
#[inline(never)]
fn put_item_back<M: Machine>(sender: &mut M, item: M::Item)
    ensures { (before : M) → M.popped before (Signal.Next item) sender.old → sender.new ≡ before }
{
    sender.put_back(Signal::Next(item));
}
