//! The inputs of a node, with all below them.

ghost use Rattle.std.specs.Prelude.{◌≡◌, OnOk, OnErr, IfOk, IsOk, IfErr, true, false};
ghost use Rattle.rsx_tree.specs.Allocates.{either_allocates};
ghost use Rattle.rsx_sources.specs.Steps.{IsNotMade};
ghost use Rattle.rsx_tree.specs.Edges.{edge_view};
ghost use Rattle.rsx_tree.specs.Inputs.{can_ask_over, can_send_over, send_over_allocates, size};
ghost use Rattle.rsx_tree.specs.Changed.{IsAskedBy, IsCarried, IsReceivedBy};
ghost use Rattle.rsx_tree.specs.Driven.{IsMadeOver, IsRestOver};
ghost use Rattle.rsx_tree.specs.Refusals.{IsNotEnabled, OnlyNotEnabled};

use crate::edge::Edge;
use crate::step::{pick_over, row_over, step_over};
use rsx_sources::{Front, Machine, NotMade, NotTaken};
use rsx_types::{Ending, NoMemory, Note, Ops, StreamValue};
use std::alloc::Global;

/// The inputs of a node from one of them on, each with its edge and with all below it.
#[derive(Drop)]
pub enum Inputs<M> {
    /// No more inputs.
    End,
    /// The edge of an input, its node, that node's own inputs, and the inputs beside it.
    More(Edge, M, Box<Inputs<M>>, Box<Inputs<M>>),
}

/// How a run of moves of a row ended.
#[derive(Clone, Copy, Debug)]
pub struct Pass {
    /// How many of the budget are left.
    pub left: u32,
    /// Whether the receiver of the row ended by the last move. Then its owner closes the row.
    pub is_over: bool,
}

/// What came of the moves over one edge.
#[derive(Clone, Copy, Debug)]
enum Advance {
    /// One was made.
    Made,
    /// A Send was made, by which the receiver ended.
    Ended,
    /// None is enabled.
    Neither,
}

impl<M> Inputs<M> {
    ghost use Rattle.std.specs.Prelude.{◌≡◌};
    ghost use Rattle.rsx_tree.specs.Inputs.{closed_row};

    /// Closes every edge (rule 3.12).
    pub fn close(&mut self)
        ensures { self.new ≡ closed_row self.old }
    {
        match self {
            Inputs::End => {}
            Inputs::More(edge, _, below, beside) => {
                edge.close();
                below.close();
                beside.close();
            }
        }
    }
}

impl<M: Machine> Inputs<M> {
    ghost use Rattle.std.specs.Prelude.{◌≡◌, ◌+◌, ◌<◌, ◌^◌, ◌&&◌, ◌++◌, ℕ, min, true, false, OnOk, OnErr, IfOk, IfErr};
    ghost use Rattle.rsx_sources.specs.Steps.{IsNotMade};
    ghost use Rattle.rsx_tree.specs.Inputs.{size, is_own, place, can_ask_in, send_allocates_in, closed_row_if, notes_of};
    ghost use Rattle.rsx_tree.specs.Changed.{IsAskedIn, IsReceivedIn, IsSentIn, IsNotSentIn};
    ghost use Rattle.rsx_tree.specs.Driven.{IsPass, IsRowIdle};
    ghost use Rattle.rsx_tree.specs.Refusals.{IsNotEnabled, OnlyNotEnabled};
    ghost use Rattle.rsx_tree.specs.Residual.{IsResidual};
    ghost use Rattle.rsx_tree.specs.Stepped.{IsAfterPick, IsStepped, IsPickedHere, IsRowMadeHere, can_pick_in, can_row_in, station, step_allocates_in};
    ghost use Rattle.rsx_tree.specs.Allocates.{over_allocates};

    /// How many nodes there are, but at most `most`.
    pub(crate) fn count_up_to(&self, most: u32) -> u32
        ensures { result ≡ min (size self.now) most }
    {
        match self {
            Inputs::End => 0,
            Inputs::More(_, _, below, beside) => {
                if most == 0 {
                    return 0;
                }
                let inside = below.count_up_to(most - 1);
                let others = beside.count_up_to(most - 1 - inside);
                inside + others + 1
            }
        }
    }

    /// Closes every edge, where the receiver has ended by a signal over one of them.
    #[tactic(auto, using(crate::proofs::Closes::size_closed))]
    pub(crate) fn close_if(&mut self, has_ended: bool, own: bool)
        ensures row { self.new ≡ closed_row_if (has_ended && own) self.old }
        ensures size { size self.new ≡ size self.old }
    {
        if has_ended && own {
            self.close();
        }
    }

    /// Raises what is asked of the edge `at` to what its receiver wants, where the first edge is input `input` of
    /// `receiver`, of which `asked` is asked and which sent `sent`.
    pub fn ask(
        &mut self,
        receiver: &M,
        input: u64,
        asked: u64,
        sent: u64,
        at: u32,
    ) -> Result<(), NotMade>
        requires { input + at < 2 ^ 64 }
        ensures made { OnOk result (IsAskedIn M.Machine receiver.now input asked sent self.old at receiver.now self.new) }
        ensures err { IfErr result (IsNotEnabled (can_ask_in M.Machine (place receiver.now input asked sent self.old at))) }
        ensures same { OnErr result (self.new ≡ self.old) }
    {
        match self {
            Inputs::End => Err(NotMade::NotEnabled),
            Inputs::More(edge, machine, below, beside) => {
                if at == 0 {
                    return match ask_over(receiver, input, asked, sent, edge, machine) {
                        Ok(()) => Ok(()),
                        Err(why) => Err(why),
                    };
                }
                let inside = below.count_up_to(at);
                if at > inside {
                    return match beside.ask(receiver, input + 1, asked, sent, at - 1 - inside) {
                        Ok(()) => Ok(()),
                        Err(why) => Err(why),
                    };
                }
                match below.ask(machine, 0, edge.demand.asked, edge.demand.sent, at - 1) {
                    Ok(()) => Ok(()),
                    Err(why) => Err(why),
                }
            }
        }
    }

    /// Moves the signal that the edge `at` can carry to its receiver, where the first edge is input `input` of `receiver`.
    /// Answers whether the edge is one of the row's own. A node that ended by it closed all below it, but for `receiver`.
    pub fn send<O: Ops<Item = M::Item>>(
        &mut self,
        alloc: Global,
        ops: &O,
        receiver: &mut M,
        input: u64,
        at: u32,
    ) -> Result<bool, NotMade>
        requires { input + at < 2 ^ 64 }
        ensures made { OnOk result (IsSentIn M.Machine (O.meaning ops.now) receiver.old input self.old at receiver.new self.new) }
        ensures received { OnOk result (IsReceivedIn M.Machine (O.meaning ops.now) receiver.old input self.old at receiver.new self.new) }
        ensures own { IfOk result (λ o. o ≡ is_own self.old at) }
        ensures err { IfErr result (IsNotSentIn M.Machine (O.meaning ops.now) receiver.old input self.old at) }
        ensures memory { (asked sent : ℕ) →
            send_allocates_in M.Machine (O.allocates ops.now) (place receiver.old input asked sent self.old at) ≡ false →
            OnlyNotEnabled result }
        ensures same { OnErr result ((self.new ≡ self.old) × (receiver.new ≡ receiver.old)) }
    {
        match self {
            Inputs::End => Err(NotMade::NotEnabled),
            Inputs::More(edge, machine, below, beside) => {
                if at == 0 {
                    return match send_over(alloc, ops, receiver, input, edge, machine) {
                        Ok(()) => Ok(true),
                        Err(why) => Err(why),
                    };
                }
                let inside = below.count_up_to(at);
                if at > inside {
                    return match beside.send(alloc, ops, receiver, input + 1, at - 1 - inside) {
                        Ok(own) => Ok(own),
                        Err(why) => Err(why),
                    };
                }
                match below.send(alloc, ops, machine, 0, at - 1) {
                    Ok(own) => {
                        below.close_if(machine.has_ended(), own);
                        Ok(false)
                    }
                    Err(why) => Err(why),
                }
            }
        }
    }

    /// Puts what the nodes recorded behind `notes`, in pre-order.
    pub fn notes(&self, alloc: Global, notes: &mut Vec<Note>) -> Result<(), NoMemory>
        ensures { OnOk result (notes.new.items ≡ notes.old.items ++ notes_of M.Machine self.now) }
    {
        match self {
            Inputs::End => Ok(()),
            Inputs::More(_, machine, below, beside) => {
                notes.push(machine.note(alloc)?)?;
                match below.notes(alloc, notes) {
                    Ok(()) => beside.notes(alloc, notes),
                    Err(NoMemory) => Err(NoMemory),
                }
            }
        }
    }

    /// Puts what still comes in at each input behind `values`, where just what stands in the inboxes is still published at the
    /// hubs, and nothing more is chosen. Over an edge that isn't live nothing comes, and it puts down nothing, Open.
    pub fn residual<O: Ops<Item = M::Item>>(
        &self,
        alloc: Global,
        ops: &O,
        inboxes: &[StreamValue<M::Item>],
        values: &mut Vec<StreamValue<M::Item>>,
    ) -> Result<(), NoMemory>
        ensures { OnOk result (IsResidual M.Machine (O.meaning ops.now) inboxes.now self.now values.old.items values.new.items) }
    {
        match self {
            Inputs::End => Ok(()),
            Inputs::More(edge, machine, below, beside) => {
                if !edge.is_live() {
                    values.push(StreamValue::new(Vec::new(alloc), Ending::Open))?;
                    return match beside.residual(alloc, ops, inboxes, values) {
                        Ok(()) => Ok(()),
                        Err(NoMemory) => Err(NoMemory),
                    };
                }
                let mut incoming = Vec::new(alloc);
                match below.residual(alloc, ops, inboxes, &mut incoming) {
                    Ok(()) => {}
                    Err(NoMemory) => return Err(NoMemory),
                }
                let value = machine.residual(alloc, ops, inboxes, incoming.as_slice())?;
                values.push(value)?;
                match beside.residual(alloc, ops, inboxes, values) {
                    Ok(()) => Ok(()),
                    Err(NoMemory) => Err(NoMemory),
                }
            }
        }
    }

    /// Picks an input at the node `at` of the row. Where it ended by it, all below it is closed.
    pub fn pick<O: Ops<Item = M::Item>>(
        &mut self,
        alloc: Global,
        ops: &O,
        at: u32,
        input: u64,
    ) -> Result<(), NotMade>
        ensures made { OnOk result (IsStepped (IsPickedHere M.Machine (O.meaning ops.now) input) M.ended self.old at self.new) }
        ensures after { OnOk result (IsStepped (IsAfterPick M.Machine input) M.ended self.old at self.new) }
        ensures err { IfErr result (IsNotMade (can_pick_in M.Machine input (station self.old at))) }
        ensures memory { step_allocates_in M.Machine (O.allocates ops.now) (station self.old at) ≡ false → OnlyNotEnabled result }
        ensures same { OnErr result (self.new ≡ self.old) }
    {
        match self {
            Inputs::End => Err(NotMade::NotEnabled),
            Inputs::More(edge, machine, below, beside) => {
                if at == 0 {
                    return match pick_over(alloc, ops, edge, machine, below, input) {
                        Ok(()) => Ok(()),
                        Err(why) => Err(why),
                    };
                }
                let inside = below.count_up_to(at);
                if at > inside {
                    return match beside.pick(alloc, ops, at - 1 - inside, input) {
                        Ok(()) => Ok(()),
                        Err(why) => Err(why),
                    };
                }
                match below.pick(alloc, ops, at - 1, input) {
                    Ok(()) => Ok(()),
                    Err(why) => Err(why),
                }
            }
        }
    }

    /// Makes a row at the node `at` of the row. Where it ended by it, all below it is closed.
    pub fn make_row<O: Ops<Item = M::Item>>(
        &mut self,
        alloc: Global,
        ops: &O,
        at: u32,
    ) -> Result<(), NotMade>
        ensures made { OnOk result (IsStepped (IsRowMadeHere M.Machine (O.meaning ops.now)) M.ended self.old at self.new) }
        ensures err { IfErr result (IsNotMade (can_row_in M.Machine (station self.old at))) }
        ensures memory { step_allocates_in M.Machine (O.allocates ops.now) (station self.old at) ≡ false → OnlyNotEnabled result }
        ensures same { OnErr result (self.new ≡ self.old) }
    {
        match self {
            Inputs::End => Err(NotMade::NotEnabled),
            Inputs::More(edge, machine, below, beside) => {
                if at == 0 {
                    return match row_over(alloc, ops, edge, machine, below) {
                        Ok(()) => Ok(()),
                        Err(why) => Err(why),
                    };
                }
                let inside = below.count_up_to(at);
                if at > inside {
                    return match beside.make_row(alloc, ops, at - 1 - inside) {
                        Ok(()) => Ok(()),
                        Err(why) => Err(why),
                    };
                }
                match below.make_row(alloc, ops, at - 1) {
                    Ok(()) => Ok(()),
                    Err(why) => Err(why),
                }
            }
        }
    }

    /// Makes enabled moves over the edges of the row, of the nodes there and below them, an input after the other, and answers
    /// how many of the budget are left. It stops where `receiver` ended by one of them: then its owner closes the row.
    ///
    /// # Errors
    /// [`NoMemory`] where a growth was refused; the moves made before stand. It comes only where some call of `receiver` or of a
    /// node of the row may allocate.
    pub fn drive<O: Ops<Item = M::Item>>(
        &mut self,
        alloc: Global,
        ops: &O,
        receiver: &mut M,
        input: u64,
        asked: u64,
        sent: u64,
        budget: u32,
    ) -> Result<Pass, NoMemory>
        ensures driven { IsPass M.Machine (O.meaning ops.now) budget input asked sent receiver.old self.old result receiver.new self.new }
        ensures idle { IfOk result (λ p. p.left ≡ budget → 0 < budget →
            IsRowIdle M.Machine (O.meaning ops.now) receiver.new input asked sent self.new) }
        ensures memory { over_allocates M.Machine (O.allocates ops.now) receiver.old self.old ≡ false → IsOk result }
    {
        match self {
            Inputs::End => Ok(Pass {
                left: budget,
                is_over: false,
            }),
            Inputs::More(edge, machine, below, beside) => {
                let mut left = budget;
                let mut is_done = budget == 0;
                'moves: while !is_done {
                    match advance_over(
                        alloc, ops, receiver, input, asked, sent, edge, machine, below,
                    ) {
                        Ok(Advance::Made) => {
                            left -= 1;
                            is_done = left == 0;
                        }
                        Ok(Advance::Ended) => {
                            return Ok(Pass {
                                left: left - 1,
                                is_over: true,
                            });
                        }
                        Ok(Advance::Neither) => {
                            let before = left;
                            let below_asked = edge.demand.asked;
                            let below_sent = edge.demand.sent;
                            let pass = match below.drive(
                                alloc,
                                ops,
                                machine,
                                0,
                                below_asked,
                                below_sent,
                                before,
                            ) {
                                Ok(pass) => pass,
                                Err(NoMemory) => return Err(NoMemory),
                            };
                            left = pass.left;
                            below.close_if(pass.is_over, true);
                            let is_full = !receiver.can_take(input, Front::Item);
                            is_done = (left == before) | is_full | (left == 0);
                        }
                        Err(NoMemory) => return Err(NoMemory),
                    }
                }
                match input.checked_add(1) {
                    Some(next) => {
                        match beside.drive(alloc, ops, receiver, next, asked, sent, left) {
                            Ok(pass) => Ok(pass),
                            Err(NoMemory) => Err(NoMemory),
                        }
                    }
                    None => Ok(Pass {
                        left,
                        is_over: false,
                    }),
                }
            }
        }
    }
}

/// Makes the Send or the Ask over an edge, or a step of its sender, where one is enabled.
#[inline(always)]
fn advance_over<M: Machine, O: Ops<Item = M::Item>>(
    alloc: Global,
    ops: &O,
    receiver: &mut M,
    input: u64,
    asked: u64,
    sent: u64,
    edge: &mut Edge,
    sender: &mut M,
    below: &mut Inputs<M>,
) -> Result<Advance, NoMemory>
    ensures made { IfOk result (λ a. a ≡ Advance.Made →
        IsMadeOver M.Machine (O.meaning ops.now) receiver.old input asked sent edge.old sender.old below.old false
        receiver.new edge.new sender.new below.new) }
    ensures ended { IfOk result (λ a. a ≡ Advance.Ended →
        IsMadeOver M.Machine (O.meaning ops.now) receiver.old input asked sent edge.old sender.old below.old true
        receiver.new edge.new sender.new below.new) }
    ensures neither { IfOk result (λ a. a ≡ Advance.Neither →
        IsRestOver M.Machine (O.meaning ops.now) receiver.old input asked sent edge.old sender.old) }
    ensures same { IfOk result (λ a. a ≡ Advance.Neither →
        (receiver.new ≡ receiver.old) × (edge.new ≡ edge.old) × (sender.new ≡ sender.old) × (below.new ≡ below.old)) }
    ensures err { OnErr result (
        (receiver.new ≡ receiver.old) × (edge.new ≡ edge.old) × (sender.new ≡ sender.old) × (below.new ≡ below.old)) }
    ensures size { size below.new ≡ size below.old }
    ensures memory { either_allocates M.Machine (O.allocates ops.now) receiver.old sender.old ≡ false → IsOk result }
{
    match send_over(alloc, ops, receiver, input, edge, sender) {
        Ok(()) => {
            if receiver.has_ended() {
                return Ok(Advance::Ended);
            }
            return Ok(Advance::Made);
        }
        Err(NotMade::NoMemory) => return Err(NoMemory),
        Err(NotMade::NotEnabled) => {}
    }
    match ask_over(receiver, input, asked, sent, edge, sender) {
        Ok(()) => return Ok(Advance::Made),
        Err(_) => {}
    }
    match step_over(alloc, ops, edge, sender, below) {
        Ok(true) => Ok(Advance::Made),
        Ok(false) => Ok(Advance::Neither),
        Err(NoMemory) => Err(NoMemory),
    }
}

/// Raises what is asked of an edge to what its receiver wants, where the sender accepts more demand. It is asked only where the receiver
/// wants more.
#[inline(always)]
pub(crate) fn ask_over<M: Machine>(
    receiver: &M,
    input: u64,
    asked: u64,
    sent: u64,
    edge: &mut Edge,
    sender: &M,
) -> Result<(), NotMade>
    ensures made { OnOk result (IsAskedBy M.Machine receiver.now input asked sent sender.now edge.old edge.new) }
    ensures err { IfErr result (IsNotEnabled (
        can_ask_over M.Machine receiver.now input asked sent (edge_view edge.old) sender.now)) }
    ensures same { OnErr result (edge.new ≡ edge.old) }
{
    let want = receiver.want(input, asked, sent);
    if !edge.can_ask(want) {
        return Err(NotMade::NotEnabled);
    }
    if !sender.accepts_demand(edge.demand.asked, edge.demand.sent) {
        return Err(NotMade::NotEnabled);
    }
    edge.ask_up_to(want);
    Ok(())
}

/// Moves the signal that the sender offers over the edge into the receiver.
#[inline(always)]
fn send_over<M: Machine, O: Ops<Item = M::Item>>(
    alloc: Global,
    ops: &O,
    receiver: &mut M,
    input: u64,
    edge: &mut Edge,
    sender: &mut M,
) -> Result<(), NotMade>
    ensures made { OnOk result (
        IsCarried M.Machine (O.meaning ops.now) receiver.old input edge.old sender.old receiver.new edge.new sender.new) }
    ensures received { OnOk result (IsReceivedBy M.Machine (O.meaning ops.now) receiver.old input sender.old receiver.new) }
    ensures err { IfErr result (IsNotMade (
        can_send_over M.Machine (O.meaning ops.now) receiver.old input (edge_view edge.old) sender.old)) }
    ensures memory { send_over_allocates M.Machine (O.allocates ops.now) receiver.old sender.old ≡ false → OnlyNotEnabled result }
    ensures same { OnErr result ((receiver.new ≡ receiver.old) × (edge.new ≡ edge.old) × (sender.new ≡ sender.old)) }
{
    let Some(front) = sender.front() else {
        return Err(NotMade::NotEnabled);
    };
    if !receiver.can_take(input, front) {
        return Err(NotMade::NotEnabled);
    }
    if !edge.can_carry(front) {
        return Err(NotMade::NotEnabled);
    }
    let signal = match sender.pop_front(alloc, ops) {
        Ok(Some(signal)) => signal,
        Ok(None) => return Err(NotMade::NotEnabled),
        Err(NoMemory) => return Err(NotMade::NoMemory),
    };
    match receiver.on_signal(alloc, ops, input, signal) {
        Ok(()) => {
            edge.carry(front);
            Ok(())
        }
        Err(NotTaken::Busy(signal)) => {
            sender.put_back(signal);
            Err(NotMade::NotEnabled)
        }
        Err(NotTaken::NoMemory(signal)) => {
            sender.put_back(signal);
            Err(NotMade::NoMemory)
        }
    }
}
