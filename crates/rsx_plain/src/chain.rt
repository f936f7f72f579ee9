//! Chains of plain operators.

ghost use Rattle.std.specs.Prelude.{◌≡◌, true, false, ◌||◌, [], IfOk, IfErr, IsOk, OnOk, OnErr, IsTrue};
ghost use Rattle.rsx_types.specs.Meaning.{Meaning};
ghost use Rattle.rsx_types.specs.Plain.{plain};
ghost use Rattle.rsx_types.specs.Stream.{Stream};
ghost use Rattle.rsx_plain.specs.Moves.{Moves, EndsLast, has_ending, has_ended};
ghost use Rattle.rsx_sources.specs.Counts.{ends_input};
ghost use Rattle.rsx_plain.specs.State.{plain_from, plain_start, is_over};
ghost use Rattle.rsx_plain.specs.Chain.{IsChained, IsChainedFirst, MovesEmission, TakesStart, chain_from, chain_over, chain_allocates};
ghost use Rattle.rsx_plain.specs.declared.chain.ChainState.{ChainState as ChainStateSpec};
ghost use Rattle.rsx_types.specs.declared.stage.Stage.{Stage as StageSpec};
ghost use Rattle.rsx_plain.specs.Emission.{emission_then};

use crate::emission::{from_signal, into_signal, put_behind, put_into};
use crate::{Emission, Operator, PlainState, Preparing, Starting};
use rsx_sources::OutSlot;
use rsx_types::{Ending, NoMemory, Ops, Signal, Stage, StreamValue};
use std::alloc::Global;

/// Plain operators one behind another that have taken some of their input. Each puts what comes out of it into the next one
/// at once, so nothing waits inside a chain.
///
/// A chain asks for nothing itself. So the counts of what `filter` and `distinct` dropped, which serve that, stay at 0.
#[derive(Drop)]
pub enum ChainState<T> {
    /// No operator: what comes in comes out.
    End,
    /// The first operator, and the chain behind it, into which it puts what comes out of it.
    Stage(PlainState<T>, Box<ChainState<T>>),
}

/// A chain that has taken nothing yet, with what comes out of it at the start.
#[derive(Drop)]
pub struct NewChain<T> {
    /// The chain.
    pub chain: ChainState<T>,
    /// What comes out at the start.
    pub first: StreamValue<T>,
}

/// What a chain of operators does with the signals of its input.
pub trait Chaining<T: Drop> {
    ghost chain: { Self → ChainStateSpec T };

    /// The chain of these operators, the first one innermost, before it has taken anything, with what comes out of it at the
    /// start: the seed of each `scan` goes through the operators behind it, and `take 0` completes at once. Where the chain is
    /// over from the start, its ending is part of that.
    ///
    /// It takes memory for each operator, for copies of the seeds, and for what the operators behind them answer. For want of
    /// it the answer is [`NoMemory`].
    fn new<O: Ops<Item = T>>(
        alloc: Global,
        ops: &O,
        stages: &[Stage<T>],
    ) -> Result<NewChain<T>, NoMemory>
        ensures fresh { IfOk result (λ b. IsChained (O.meaning ops.now) stages.now b.first b.chain) }
        ensures over { IfOk result (λ b. chain_over b.chain ≡ true → has_ended b.first.ending ≡ true) };

    /// Takes a signal of the input, and puts what comes out of the chain into the empty slot: at most an item, and then at
    /// most an ending. Nothing stands behind an ending (rule 1.7). An ending of the input is answered with an ending, and so is
    /// any signal by which the chain is over.
    ///
    /// The operators take memory as they do alone, and the chain takes none beside theirs. For want of it the signal comes back,
    /// and every operator is as it was; that comes only where one of the operators may allocate.
    fn react<O: Ops<Item = T>>(
        &mut self,
        alloc: Global,
        ops: &O,
        signal: Signal<T>,
        out: &mut OutSlot<T>,
    ) -> Result<(), Signal<T>>
        requires { out.old ≡ [] }
        ensures ok { OnOk result (Moves (chain_from (O.meaning ops.now)) (chain self.old) signal out.new (chain self.new)) }
        ensures cut { OnOk result (EndsLast out.new) }
        ensures ended { OnOk result (ends_input signal ≡ true → has_ending out.new ≡ true) }
        ensures over { OnOk result (chain_over (chain self.new) ≡ true → has_ending out.new ≡ true) }
        ensures err { IfErr result (λ s. s ≡ signal) }
        ensures memory { chain_allocates (O.allocates ops.now) (chain self.old) ≡ false → IsOk result }
        ensures same { OnErr result (self.new ≡ self.old) }
        ensures none { OnErr result (out.new ≡ []) };

    /// Takes an emission of the input, and answers the emission that comes out. So an item and the ending behind it are taken at
    /// once, or neither is. An ending is answered with an ending, and so is any emission by which the chain is over.
    ///
    /// The first operator answers, and its answer stands once the chain behind it has taken it; where that refuses it, the first
    /// operator goes back. So for want of memory the emission comes back, and nothing has changed; that comes only where one of
    /// the operators may allocate.
    fn take<O: Ops<Item = T>>(
        &mut self,
        alloc: Global,
        ops: &O,
        emission: Emission<T>,
    ) -> Result<Emission<T>, Emission<T>>
        ensures ok { IfOk result (λ out. MovesEmission (O.meaning ops.now) (chain self.old) emission out (chain self.new)) }
        ensures ended { IfOk result (λ out. has_ended emission.ending ≡ true → has_ended out.ending ≡ true) }
        ensures over { IfOk result (λ out. chain_over (chain self.new) ≡ true → has_ended out.ending ≡ true) }
        ensures err { IfErr result (λ p. p ≡ emission) }
        ensures memory { chain_allocates (O.allocates ops.now) (chain self.old) ≡ false → IsOk result }
        ensures same { OnErr result (self.new ≡ self.old) };

    /// What still comes out, where just this value still comes in. The chain stays as it is. For want of memory the answer is
    /// [`NoMemory`].
    fn rest<O: Ops<Item = T>>(
        &self,
        alloc: Global,
        ops: &O,
        value: StreamValue<T>,
    ) -> Result<StreamValue<T>, NoMemory>
        ensures { IfOk result (λ v. v ≡ chain_from (O.meaning ops.now) (chain self.now) value) };
}

impl<T: Drop> Chaining<T> for ChainState<T> {
    ghost chain = { λ c. c };

    fn new<O: Ops<Item = T>>(
        alloc: Global,
        ops: &O,
        stages: &[Stage<T>],
    ) -> Result<NewChain<T>, NoMemory>
        ensures fresh { IfOk result (λ b. IsChained (O.meaning ops.now) stages.now b.first b.chain) }
        ensures over { IfOk result (λ b. chain_over b.chain ≡ true → has_ended b.first.ending ≡ true) }
    {
        match stages.split_first() {
            None => Ok(NewChain {
                chain: ChainState::End,
                first: StreamValue::new(Vec::new(alloc), Ending::Open),
            }),
            Some((stage, behind)) => {
                let NewChain { chain, first } = ChainState::new(alloc, ops, behind)?;
                chain.linked(alloc, ops, stage, first)
            }
        }
    }

    fn react<O: Ops<Item = T>>(
        &mut self,
        alloc: Global,
        ops: &O,
        signal: Signal<T>,
        out: &mut OutSlot<T>,
    ) -> Result<(), Signal<T>>
        requires { out.old ≡ [] }
        ensures ok { OnOk result (Moves (chain_from (O.meaning ops.now)) self.old signal out.new self.new) }
        ensures cut { OnOk result (EndsLast out.new) }
        ensures ended { OnOk result (ends_input signal ≡ true → has_ending out.new ≡ true) }
        ensures over { OnOk result (chain_over self.new ≡ true → has_ending out.new ≡ true) }
        ensures err { IfErr result (λ s. s ≡ signal) }
        ensures memory { chain_allocates (O.allocates ops.now) self.old ≡ false → IsOk result }
        ensures same { OnErr result (self.new ≡ self.old) }
        ensures none { OnErr result (out.new ≡ []) }
    {
        match self.take(alloc, ops, from_signal(signal)) {
            Ok(emission) => {
                put_into(emission, out);
                Ok(())
            }
            Err(emission) => Err(into_signal(emission)),
        }
    }

    fn take<O: Ops<Item = T>>(
        &mut self,
        alloc: Global,
        ops: &O,
        emission: Emission<T>,
    ) -> Result<Emission<T>, Emission<T>>
        ensures ok { IfOk result (λ out. MovesEmission (O.meaning ops.now) self.old emission out self.new) }
        ensures ended { IfOk result (λ out. has_ended emission.ending ≡ true → has_ended out.ending ≡ true) }
        ensures over { IfOk result (λ out. chain_over self.new ≡ true → has_ended out.ending ≡ true) }
        ensures err { IfErr result (λ p. p ≡ emission) }
        ensures memory { chain_allocates (O.allocates ops.now) self.old ≡ false → IsOk result }
        ensures same { OnErr result (self.new ≡ self.old) }
    {
        match self {
            ChainState::End => Ok(emission),
            ChainState::Stage(state, behind) => {
                let ending = emission.ending;
                match state.prepare(alloc, ops, emission) {
                    Ok(prepared) => match behind.take(alloc, ops, prepared.answer) {
                        Ok(out) => {
                            state.commit(prepared.pending);
                            Ok(out)
                        }
                        Err(back) => Err(Emission {
                            item: state.roll_back(prepared.pending, back.item),
                            ending,
                        }),
                    },
                    Err(emission) => Err(emission),
                }
            }
        }
    }

    fn rest<O: Ops<Item = T>>(
        &self,
        alloc: Global,
        ops: &O,
        value: StreamValue<T>,
    ) -> Result<StreamValue<T>, NoMemory>
        ensures { IfOk result (λ v. v ≡ chain_from (O.meaning ops.now) self.now value) }
    {
        match self {
            ChainState::End => Ok(value),
            ChainState::Stage(state, behind) => {
                let out = state.rest(alloc, ops, Vec::new(alloc), value.items(), value.ending())?;
                behind.rest(alloc, ops, out)
            }
        }
    }
}

/// How an operator is put in front of a chain.
trait Linking<T: Drop> {
    ghost chain: { Self → ChainStateSpec T };

    /// Takes what comes out of this operator at the start, and puts what comes out of the chain behind what came out before.
    /// The chain is only borrowed here, so that no early return lets it go.
    fn take_start<O: Ops<Item = T>>(
        &mut self,
        alloc: Global,
        ops: &O,
        stage: &Stage<T>,
        first: StreamValue<T>,
    ) -> Result<StreamValue<T>, NoMemory>
        ensures fresh { IfOk result (λ r. TakesStart (O.meaning ops.now) stage.now first (chain self.old) r (chain self.new)) }
        ensures front { IfOk result (λ r. is_over (plain_start stage.now) ≡ true → has_ended r.ending ≡ true) }
        ensures over { IfOk result (λ r. chain_over (chain self.new) ≡ true → has_ended r.ending ≡ true) };

    /// This chain behind an operator that has taken nothing yet.
    fn behind<O: Ops<Item = T>>(
        self,
        alloc: Global,
        ops: &O,
        stage: &Stage<T>,
    ) -> Result<ChainState<T>, NoMemory>
        ensures from { IfOk result (λ c. (m : Meaning T) (v : Stream T) →
            chain_from m c v ≡ chain_from m (chain self) (plain_from m (plain_start stage.now) v)) }
        ensures over { IfOk result (λ c. chain_over c ≡ (is_over (plain_start stage.now) || chain_over (chain self))) };

    /// This chain, out of which this came at the start, behind an operator that has taken nothing yet, with what comes out of both
    /// at the start.
    fn linked<O: Ops<Item = T>>(
        self,
        alloc: Global,
        ops: &O,
        stage: &Stage<T>,
        first: StreamValue<T>,
    ) -> Result<NewChain<T>, NoMemory>
        ensures fresh { IfOk result (λ b. IsChainedFirst (O.meaning ops.now) stage.now first (chain self) b.first b.chain) }
        ensures over { IfOk result (λ b. chain_over b.chain ≡ true → has_ended b.first.ending ≡ true) };
}

impl<T: Drop> Linking<T> for ChainState<T> {
    ghost chain = { λ c. c };

    fn take_start<O: Ops<Item = T>>(
        &mut self,
        alloc: Global,
        ops: &O,
        stage: &Stage<T>,
        first: StreamValue<T>,
    ) -> Result<StreamValue<T>, NoMemory>
        ensures fresh { IfOk result (λ r. TakesStart (O.meaning ops.now) stage.now first self.old r self.new) }
        ensures front { IfOk result (λ r. is_over (plain_start stage.now) ≡ true → has_ended r.ending ≡ true) }
        ensures over { IfOk result (λ r. chain_over self.new ≡ true → has_ended r.ending ≡ true) }
    {
        let seed = stage.first_emission(alloc, ops)?;
        match self.take(alloc, ops, seed) {
            Ok(out) => put_behind(out, first),
            Err(_) => Err(NoMemory),
        }
    }

    fn behind<O: Ops<Item = T>>(
        self,
        alloc: Global,
        ops: &O,
        stage: &Stage<T>,
    ) -> Result<ChainState<T>, NoMemory>
        ensures from { IfOk result (λ c. (m : Meaning T) (v : Stream T) →
            chain_from m c v ≡ chain_from m self (plain_from m (plain_start stage.now) v)) }
        ensures over { IfOk result (λ c. chain_over c ≡ (is_over (plain_start stage.now) || chain_over self)) }
    {
        let behind = Box::new(alloc, self)?;
        let state = stage.started(alloc, ops)?;
        Ok(ChainState::Stage(state, behind))
    }

    fn linked<O: Ops<Item = T>>(
        self,
        alloc: Global,
        ops: &O,
        stage: &Stage<T>,
        first: StreamValue<T>,
    ) -> Result<NewChain<T>, NoMemory>
        ensures fresh { IfOk result (λ b. IsChainedFirst (O.meaning ops.now) stage.now first self b.first b.chain) }
        ensures over { IfOk result (λ b. chain_over b.chain ≡ true → has_ended b.first.ending ≡ true) }
    {
        let mut chain = self;
        let first = chain.take_start(alloc, ops, stage, first)?;
        let chain = chain.behind(alloc, ops, stage)?;
        Ok(NewChain { chain, first })
    }
}

impl<T: Drop> ChainState<T> {
    ghost use Rattle.std.specs.Prelude.{◌≡◌, IsTrue};
    ghost use Rattle.rsx_types.specs.Meaning.{Meaning};
    ghost use Rattle.rsx_types.specs.Stream.{Stream};
    ghost use Rattle.rsx_plain.specs.Chain.{chain_from, chain_over};

    /// Whether nothing more of the input matters, since a `take` of the chain has let all its items through. The ending that
    /// it brought has come out then.
    pub fn is_over(&self) -> bool
        ensures over { result ≡ chain_over self.now }
        ensures closed { IsTrue result → (m : Meaning T) (v w : Stream T) → chain_from m self.now v ≡ chain_from m self.now w }
    {
        match self {
            ChainState::End => false,
            ChainState::Stage(state, behind) => state.is_over() || behind.is_over(),
        }
    }
}

/// What comes out of an operator at the start.
trait FirstEmission<T: Drop> {
    ghost stage: { Self → StageSpec T };

    /// The seed of `scan`, and the completion of `take 0`.
    fn first_emission<O: Ops<Item = T>>(
        &self,
        alloc: Global,
        ops: &O,
    ) -> Result<Emission<T>, NoMemory>
        ensures fresh { IfOk result (λ p. (m : Meaning T) (v : Stream T) →
            plain m (stage self.now) v ≡ emission_then p (plain_from m (plain_start (stage self.now)) v)) }
        ensures over { IfOk result (λ p. is_over (plain_start (stage self.now)) ≡ true → has_ended p.ending ≡ true) };
}

impl<T: Drop> FirstEmission<T> for Stage<T> {
    ghost stage = { λ s. s };

    fn first_emission<O: Ops<Item = T>>(
        &self,
        alloc: Global,
        ops: &O,
    ) -> Result<Emission<T>, NoMemory> {
        let mut emission = Emission {
            item: None,
            ending: Ending::Open,
        };
        match self {
            Stage::Take(0) => emission.ending = Ending::Done,
            Stage::Scan(_, seed) => emission.item = Some(ops.copy(alloc, seed)?),
            _ => {}
        }
        Ok(emission)
    }
}
