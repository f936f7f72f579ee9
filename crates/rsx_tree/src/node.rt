//! One tree of nodes of any kind.

ghost use Rattle.std.specs.Prelude.{◌≡◌};

use crate::edge::Edge;
use crate::inputs::Inputs;
use crate::look::NodeMove;
use crate::step::{pick_over, row_over};
use rsx_sources::{Front, Machine, NotMade};
use rsx_types::{NoMemory, Note, Ops, Signal, StreamValue};
use std::alloc::Global;

/// A node with all that is below it.
#[derive(Drop)]
pub struct Node<M> {
    /// The node.
    pub machine: M,
    /// Its inputs.
    pub inputs: Inputs<M>,
}

impl<M: Machine> Node<M> {
    ghost use Rattle.std.specs.Prelude.{◌≡◌, OnOk, OnErr, IfOk, IfErr, IsOk, true, false, option_map, map, ℕ};
    ghost use Rattle.rsx_types.specs.Meaning.{Meaning};
    ghost use Rattle.rsx_sources.specs.Machine.{front_of};
    ghost use Rattle.rsx_sources.specs.Steps.{IsNotMade};
    ghost use Rattle.std.specs.Prelude.{◌<◌, ◌+◌, ◌^◌, IfSome, IfNone};
    ghost use Rattle.rsx_tree.specs.Allocates.{IsAlike, tree_allocates};
    ghost use Rattle.rsx_tree.specs.Driven.{IsDriven, IsIdle, IsIdleAt, Spent};
    ghost use Rattle.rsx_tree.specs.Edges.{closed_view, edge_view};
    ghost use Rattle.rsx_tree.specs.Stepped.{IsAfterPickAt, IsPickMadeAt, IsRowMadeAt, can_pick_in, can_row_in, station_of, step_allocates};
    ghost use Rattle.rsx_tree.specs.Balance.{IsBalanced};
    ghost use Rattle.rsx_tree.specs.Chosen.{IsChosen, IsPickedAt, IsRowAt};
    ghost use Rattle.rsx_tree.specs.Look.{IsEnabledAt};
    ghost use Rattle.rsx_tree.specs.Tree.{notes, edges, offers, popped, IsPopped, IsKept, IsAllClosed, can_ask, can_send, send_allocates, IsAskedAt, IsReceivedAt, IsSentAt};
    ghost use Rattle.rsx_tree.specs.Inputs.{closed_row};
    ghost use Rattle.rsx_tree.specs.Refusals.{IsNotEnabled, OnlyNotEnabled};
    ghost use Rattle.rsx_tree.specs.Residual.{IsTreeResidual};

    /// Which signal the root offers, if it does.
    #[inline]
    pub fn front(&self) -> Option<Front>
        ensures { (m : Meaning M.Item) → result ≡ option_map front_of (offers M.Machine m self.now) }
    {
        self.machine.front()
    }

    /// Takes the signal that the root offers, which the root records where it does so ([`Machine::records_pop`]). For want of
    /// memory the tree is as it was.
    #[inline]
    pub fn pop<O: Ops<Item = M::Item>>(
        &mut self,
        alloc: Global,
        ops: &O,
    ) -> Result<Option<Signal<M::Item>>, NoMemory>
        ensures ok { IfOk result (λ s. IsPopped M.Machine (O.meaning ops.now) self.old s self.new) }
        ensures err { OnErr result (self.new ≡ self.old) }
        ensures memory { M.pop_allocates (O.allocates ops.now) self.old.machine ≡ false → IsOk result }
        ensures alike { IsAlike M.Machine self.old self.new }
    {
        match self.machine.pop_front(alloc, ops) {
            Ok(signal) => Ok(signal),
            Err(NoMemory) => Err(NoMemory),
        }
    }

    /// Puts the signal back that was popped last.
    pub fn put_back(&mut self, signal: Signal<M::Item>)
        ensures { (before : Node M) → popped M.Machine before signal self.old → self.new ≡ before }
    {
        self.machine.put_back(signal);
    }

    /// Closes every edge below the root (rule 3.12).
    pub fn close(&mut self)
        ensures kept { (m : Meaning M.Item) → IsKept M.Machine m self.old self.new }
        ensures offers { (m : Meaning M.Item) → offers M.Machine m self.new ≡ offers M.Machine m self.old }
        ensures notes { notes M.Machine self.new ≡ notes M.Machine self.old }
        ensures closed { IsAllClosed self.new }
        ensures edges { edges self.new ≡ map closed_view (edges self.old) }
        ensures all { self.new ≡ record self.old { inputs = closed_row self.old.inputs } }
        ensures alike { IsAlike M.Machine self.old self.new }
    {
        self.inputs.close();
    }

    /// Raises what is asked of the edge `at` below the root to what its receiver wants; `asked` and `sent` are those of the
    /// root's own edge.
    pub fn ask(&mut self, at: u32, asked: u64, sent: u64) -> Result<(), NotMade>
        ensures kept { (m : Meaning M.Item) → IsKept M.Machine m self.old self.new }
        ensures offers { (m : Meaning M.Item) → offers M.Machine m self.new ≡ offers M.Machine m self.old }
        ensures ok { OnOk result (can_ask M.Machine self.old at asked sent ≡ true) }
        ensures effect { OnOk result (IsAskedAt M.Machine self.old at asked sent self.new) }
        ensures balance { (s : ℕ) → IsBalanced M.Machine self.old s → IsBalanced M.Machine self.new s }
        ensures alike { IsAlike M.Machine self.old self.new }
        ensures err { IfErr result (IsNotEnabled (can_ask M.Machine self.old at asked sent)) }
        ensures same { OnErr result (self.new ≡ self.old) }
    {
        match self.inputs.ask(&self.machine, 0, asked, sent, at) {
            Ok(()) => Ok(()),
            Err(why) => Err(why),
        }
    }

    /// Moves the signal that the edge `at` below the root can carry to its receiver. A sender that records its signals as they go
    /// out records it.
    pub fn send<O: Ops<Item = M::Item>>(
        &mut self,
        alloc: Global,
        ops: &O,
        at: u32,
    ) -> Result<(), NotMade>
        ensures chosen { OnOk result (IsChosen M.Machine (O.meaning ops.now) self.old self.new) }
        ensures ok { OnOk result (can_send M.Machine (O.meaning ops.now) self.old at ≡ true) }
        ensures effect { OnOk result (IsSentAt M.Machine (O.meaning ops.now) self.old at self.new) }
        ensures received { OnOk result (IsReceivedAt M.Machine (O.meaning ops.now) self.old at self.new) }
        ensures balance { OnOk result ((s : ℕ) → IsBalanced M.Machine self.old s → IsBalanced M.Machine self.new s) }
        ensures err { IfErr result (IsNotMade (can_send M.Machine (O.meaning ops.now) self.old at)) }
        ensures memory { send_allocates M.Machine (O.allocates ops.now) self.old at ≡ false → OnlyNotEnabled result }
        ensures alike { IsAlike M.Machine self.old self.new }
        ensures same { OnErr result (self.new ≡ self.old) }
    {
        match self.inputs.send(alloc, ops, &mut self.machine, 0, at) {
            Ok(own) => {
                self.inputs.close_if(self.machine.has_ended(), own);
                Ok(())
            }
            Err(why) => Err(why),
        }
    }

    /// Picks an input at the node `at`, where the root has the number 0 and the edge `root`, and records the choice. Where the
    /// node ended by it, all below it is closed.
    ///
    /// # Errors
    /// [`NotMade::NotEnabled`] exactly where the node's edge isn't live or the node can't pick this input, and
    /// [`NotMade::NoMemory`] where a growth was refused, which comes only where a pick or a row of this node may allocate.
    /// Then nothing changed.
    pub fn pick<O: Ops<Item = M::Item>>(
        &mut self,
        alloc: Global,
        ops: &O,
        root: &Edge,
        at: u32,
        input: u64,
    ) -> Result<(), NotMade>
        ensures made { OnOk result (IsPickMadeAt M.Machine (O.meaning ops.now) input self.old (edge_view root.now) at self.new) }
        ensures enabled { OnOk result (can_pick_in M.Machine input (station_of self.old (edge_view root.now) at) ≡ true) }
        ensures effect { OnOk result (IsPickedAt M.Machine self.old (edge_view root.now) at input self.new) }
        ensures after { OnOk result (IsAfterPickAt M.Machine input self.old (edge_view root.now) at self.new) }
        ensures chosen { OnOk result (IsChosen M.Machine (O.meaning ops.now) self.old self.new) }
        ensures balance { OnOk result ((s : ℕ) → IsBalanced M.Machine self.old s → IsBalanced M.Machine self.new s) }
        ensures err { IfErr result (IsNotMade (can_pick_in M.Machine input (station_of self.old (edge_view root.now) at))) }
        ensures memory { step_allocates M.Machine (O.allocates ops.now) self.old (edge_view root.now) at ≡ false → OnlyNotEnabled result }
        ensures alike { IsAlike M.Machine self.old self.new }
        ensures same { OnErr result (self.new ≡ self.old) }
    {
        if at > 0 {
            return match self.inputs.pick(alloc, ops, at - 1, input) {
                Ok(()) => Ok(()),
                Err(why) => Err(why),
            };
        }
        match pick_over(alloc, ops, root, &mut self.machine, &mut self.inputs, input) {
            Ok(()) => Ok(()),
            Err(why) => Err(why),
        }
    }

    /// Makes a row at the node `at`, where the root has the number 0 and the edge `root`. Where the node ended by it, all
    /// below it is closed.
    ///
    /// # Errors
    /// [`NotMade::NotEnabled`] exactly where the node's edge isn't live or the node can't make a row, and
    /// [`NotMade::NoMemory`] where a growth was refused, which comes only where a pick or a row of this node may allocate.
    /// Then nothing changed.
    pub fn make_row<O: Ops<Item = M::Item>>(
        &mut self,
        alloc: Global,
        ops: &O,
        root: &Edge,
        at: u32,
    ) -> Result<(), NotMade>
        ensures made { OnOk result (IsRowMadeAt M.Machine (O.meaning ops.now) self.old (edge_view root.now) at self.new) }
        ensures enabled { OnOk result (can_row_in M.Machine (station_of self.old (edge_view root.now) at) ≡ true) }
        ensures effect { OnOk result (IsRowAt M.Machine self.old (edge_view root.now) at self.new) }
        ensures chosen { OnOk result (IsChosen M.Machine (O.meaning ops.now) self.old self.new) }
        ensures balance { OnOk result ((s : ℕ) → IsBalanced M.Machine self.old s → IsBalanced M.Machine self.new s) }
        ensures err { IfErr result (IsNotMade (can_row_in M.Machine (station_of self.old (edge_view root.now) at))) }
        ensures memory { step_allocates M.Machine (O.allocates ops.now) self.old (edge_view root.now) at ≡ false → OnlyNotEnabled result }
        ensures alike { IsAlike M.Machine self.old self.new }
        ensures same { OnErr result (self.new ≡ self.old) }
    {
        if at > 0 {
            return match self.inputs.make_row(alloc, ops, at - 1) {
                Ok(()) => Ok(()),
                Err(why) => Err(why),
            };
        }
        match row_over(alloc, ops, root, &mut self.machine, &mut self.inputs) {
            Ok(()) => Ok(()),
            Err(why) => Err(why),
        }
    }

    /// What the nodes recorded, in pre-order.
    pub fn notes(&self, alloc: Global) -> Result<Vec<Note>, NoMemory>
        ensures { IfOk result (λ v. v.items ≡ notes M.Machine self.now) }
    {
        let mut notes = Vec::new(alloc);
        notes.push(self.machine.note(alloc)?)?;
        self.inputs.notes(alloc, &mut notes)?;
        Ok(notes)
    }

    /// The stream value that still comes out of the tree, where just what stands in the inboxes is still published at the hubs,
    /// and nothing more is chosen.
    pub fn residual<O: Ops<Item = M::Item>>(
        &self,
        alloc: Global,
        ops: &O,
        inboxes: &[StreamValue<M::Item>],
    ) -> Result<StreamValue<M::Item>, NoMemory>
        ensures { IfOk result (λ v. IsTreeResidual M.Machine (O.meaning ops.now) inboxes.now self.now v) }
    {
        let mut incoming = Vec::new(alloc);
        self.inputs.residual(alloc, ops, inboxes, &mut incoming)?;
        self.machine
            .residual(alloc, ops, inboxes, incoming.as_slice())
    }

    /// Makes enabled moves over the edges below the root, and of the nodes there, until none is enabled or the budget is used
    /// up; answers how many of the budget are left. `asked` and `sent` are those of the root's own edge.
    ///
    /// # Errors
    /// [`NoMemory`] where a growth was refused; the moves made before stand. It comes only where some call of a node of the
    /// tree may allocate; of those that a function of the caller's makes, its [`Ops`] says which may (`allocates`).
    pub fn drive<O: Ops<Item = M::Item>>(
        &mut self,
        alloc: Global,
        ops: &O,
        asked: u64,
        sent: u64,
        budget: u32,
    ) -> Result<u32, NoMemory>
        ensures driven { (n : ℕ) × Spent budget n result × IsDriven M.Machine (O.meaning ops.now) true n self.old asked sent self.new }
        ensures chosen { IsChosen M.Machine (O.meaning ops.now) self.old self.new }
        ensures balance { (s : ℕ) → IsBalanced M.Machine self.old s → IsBalanced M.Machine self.new s }
        ensures idle { IfOk result (λ left. 0 < left → IsIdle M.Machine (O.meaning ops.now) self.new asked sent) }
        ensures memory { tree_allocates M.Machine (O.allocates ops.now) self.old ≡ false → IsOk result }
        ensures alike { IsAlike M.Machine self.old self.new }
    {
        let mut left = budget;
        let mut is_done = budget == 0;
        'rounds: while !is_done {
            let before = left;
            let pass = match self
                .inputs
                .drive(alloc, ops, &mut self.machine, 0, asked, sent, before)
            {
                Ok(pass) => pass,
                Err(NoMemory) => return Err(NoMemory),
            };
            left = pass.left;
            self.inputs.close_if(pass.is_over, true);
            is_done = (left == before) | (left == 0);
        }
        Ok(left)
    }

    /// The first enabled move below the root in pre-order, where the first node there has the number `first`; `asked` and
    /// `sent` are those of the root's own edge. None where no move is enabled, of all that a number can name.
    pub fn first_enabled(&self, first: u32, asked: u64, sent: u64) -> Option<NodeMove>
        ensures some { (m : Meaning M.Item) → IfSome result (λ e. IsEnabledAt M.Machine m self.now asked sent first e) }
        ensures none { (m : Meaning M.Item) → IfNone result ((k : ℕ) → first + k < 2 ^ 32 → IsIdleAt M.Machine m self.now asked sent k) }
    {
        self.inputs
            .first_enabled(&self.machine, 0, asked, sent, first)
    }
}

impl<M: Machine + Drop> Node<M> {
    ghost use Rattle.std.specs.Prelude.{◌≡◌};
    ghost use Rattle.rsx_tree.specs.Inputs.{closed_row_if};

    /// A node over its inputs. Where it has put out its ending already, all below it is closed.
    pub fn new(machine: M, inputs: Inputs<M>) -> Node<M>
        ensures machine { result.machine ≡ machine }
        ensures inputs { result.inputs ≡ closed_row_if (M.ended machine) inputs }
    {
        let mut below = inputs;
        below.close_if(machine.has_ended(), true);
        Node {
            machine,
            inputs: below,
        }
    }
}

impl<M: Drop> Node<M> {
    ghost use Rattle.std.specs.Prelude.{IfOk};
    ghost use Rattle.rsx_tree.specs.Tree.{IsJoined};

    /// The tree as an input, over a fresh edge, in front of those beside it.
    pub fn join(self, alloc: Global, beside: Inputs<M>) -> Result<Inputs<M>, NoMemory>
        ensures { IfOk result (λ row. IsJoined self beside row) }
    {
        let below = Box::new(alloc, self.inputs)?;
        let others = Box::new(alloc, beside)?;
        Ok(Inputs::More(Edge::new(), self.machine, below, others))
    }
}
