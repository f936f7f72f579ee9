//! A graph with what each of its subscribers received: the state of a run.

ghost use Rattle.std.specs.Prelude.{◌≡◌, ◌≤◌, [], true, length, map, slice_get, Some, string_bytes, OnErr, OnOk, IsOk, IfOk, IfErr, Decides};
ghost use Rattle.rsx_graph.specs.Rows.{History};
ghost use Rattle.rsx_graph.specs.Steps.{no_history};
ghost use Rattle.rsx_graph_state.specs.Answers.{changed};
ghost use Rattle.rsx_subscriber.specs.Past.{IsPrefixOf};
ghost use Rattle.rsx_session.specs.Sessions.{AllPumpTo, GrowsByLine, IsHubsTrouble, IsLineOf, IsNextTrouble, IsNextValue, LeadsAll, OnText, IsLookTrouble, IsRestOf, IsRightOf, IsScratchTrouble, IsTroubleOf, IsValueOf, Says, SessionStands, place_of};
ghost use Rattle.rsx_session.specs.Kept.{all_taken, followed_by, known, taken};
ghost use Rattle.rsx_session.specs.Places.{AreChoices, AreJoins, HaveValues, IsAsked, IsChecked, IsCounted, IsDrawn, IsExplained, IsFeedExplained, IsShown, IsValued, IsViewed};
ghost use Rattle.rsx_session.specs.Answers.{IsAnswered, IsTrouble, is_asked, is_choices, is_count, is_drawn, is_joins, is_waits, is_feed_waits, is_hub, is_sub, is_done, is_pumped, is_received, is_value, is_shown, is_compared};

use crate::published::{HubSource, copied};
use rsx_demo::{Demo, Val, is_same_val};
use rsx_graph::{Deliveries, Graph, Pumped, Refusal, SubscriptionState};
use rsx_model::{Expr, ScratchRefusal, scratch};
use rsx_script::{Answer, Command, Rest, Shown};
use rsx_types::{
    Cause, Ending, HubId, HubKind, Move, NoMemory, NodeId, Signal, StreamValue, SubId, Tree,
};
use std::alloc::{AllocError, AllocFailed, Global};
use std::mem;

/// The most moves of one call of `Graph::pump`, so that what it delivers is taken in before it grows large.
const SLICE: u32 = 65_536;

/// What a run knows of a subscription.
#[derive(Drop)]
pub(crate) struct Record {
    expr: Expr<Val>,
    received: Vec<Val>,
    /// The ending that was received, or `Open`.
    ending: Ending,
}

/// Why a command has no answer of its own.
#[derive(Drop)]
pub enum Trouble {
    /// A call was refused, by this name.
    Refused(&'static str),
    /// A growth was refused.
    Memory,
}

impl From<Refusal> for Trouble {
    ghost from_gives = { λ r t. IsTrouble t × IsTroubleOf r t };

    fn from(refusal: Refusal) -> Trouble {
        match refusal {
            Refusal::NoMemory => Trouble::Memory,
            _ => Trouble::Refused(refusal.name()),
        }
    }
}

impl From<ScratchRefusal> for Trouble {
    ghost from_gives = { λ r t. IsTrouble t × IsScratchTrouble r t };

    fn from(refusal: ScratchRefusal) -> Trouble {
        match refusal {
            ScratchRefusal::NoMemory => Trouble::Memory,
            _ => Trouble::Refused(refusal.name()),
        }
    }
}

impl<T: Drop> From<AllocFailed<T>> for Trouble {
    ghost use Rattle.rsx_session.specs.declared.session.Trouble.TheVariants.{Memory};

    ghost from_gives = { λ _ t. t ≡ Memory };

    fn from(_e: AllocFailed<T>) -> Trouble {
        Trouble::Memory
    }
}

impl From<AllocError> for Trouble {
    ghost use Rattle.rsx_session.specs.declared.session.Trouble.TheVariants.{Memory};

    ghost from_gives = { λ _ t. t ≡ Memory };

    fn from(_e: AllocError) -> Trouble {
        Trouble::Memory
    }
}

impl From<NoMemory> for Trouble {
    ghost use Rattle.rsx_session.specs.declared.session.Trouble.TheVariants.{Memory};

    ghost from_gives = { λ _ t. t ≡ Memory };

    fn from(_e: NoMemory) -> Trouble {
        Trouble::Memory
    }
}

/// What `show` answers.
#[derive(Clone, Copy, Debug, PartialEq, Eq)]
pub enum View {
    /// What was received, and then the rest.
    Received,
    /// The value of the slow evaluator.
    FromScratch,
}

/// A graph with what each of its hubs publishes, and what each of its subscribers received.
#[derive(Drop)]
pub struct Session {
    pub(crate) view: View,
    pub(crate) graph: Graph<Demo>,
    /// What the hubs publish, in the order of their ids.
    pub(crate) published: Vec<HubSource>,
    /// The subscriptions, in the order of their ids.
    pub(crate) records: Vec<Record>,
    /// The list that deliveries are put into. It is empty between calls, and its memory is used again.
    pub(crate) spare: Vec<(SubId, Signal<Val>)>,
}

impl Session {
    /// An empty graph, of whose subscriptions `show` answers this. It takes no memory so far, and is never refused.
    pub fn new(alloc: Global, view: View) -> Result<Session, NoMemory>
        ensures made { IsOk result }
        ensures view { IfOk result (λ s. s.view ≡ view) }
        ensures empty { IfOk result (λ s. (s.published.items ≡ []) × (s.records.items ≡ [])) }
        ensures stands { IfOk result (λ s. SessionStands s no_history) }
    {
        match Graph::new(alloc, Demo) {
            Ok(graph) => Ok(Session {
                view,
                graph,
                published: Vec::new(alloc),
                records: Vec::new(alloc),
                spare: Vec::new(alloc),
            }),
            Err(_) => Err(NoMemory),
        }
    }

    /// Does what a command asks for, and adds its answer to the text, with a newline.
    ///
    /// # Errors
    ///
    /// `NoMemory` where a growth was refused; the text is then as it was.
    pub fn answer(
        &mut self,
        alloc: Global,
        command: Command,
        out: &mut String,
    ) -> Result<(), NoMemory>
        ensures same { OnErr result (string_bytes out.new ≡ string_bytes out.old) }
        ensures grows { OnOk result (IsAnswered self.old.view command (string_bytes out.old) (string_bytes out.new)) }

        // What the command did, and that the new line says it.
        ensures leads { OnOk result (GrowsByLine (string_bytes out.old) (string_bytes out.new) (λ line. LeadsAll command self.old line self.new)) }
    {
        match command {
            Command::Hub(kind, capacity) => write(alloc, self.hub(alloc, kind, capacity), out),
            Command::Feed(kind, capacity, expr) => write(
                alloc,
                self.feed(alloc, kind, capacity, expr),
                out,
            ),
            Command::Emit(hub, number) => write(alloc, self.emit(alloc, hub, number), out),
            Command::Complete(hub) => write(alloc, self.complete(alloc, hub), out),
            Command::Fail(hub, number) => write(alloc, self.fail(alloc, hub, number), out),
            Command::Subscribe(expr) => write(alloc, self.subscribe(alloc, expr), out),
            Command::Request(sub, count) => write(alloc, self.request(sub, count), out),
            Command::Cancel(sub) => write(alloc, self.cancel(sub), out),
            Command::Pump(budget) => write(alloc, self.pump(alloc, budget), out),
            Command::Pick(sub, node, input) => write(
                alloc,
                self.pick(alloc, sub, node, input),
                out,
            ),
            Command::Show(sub) => write(alloc, self.show(alloc, sub), out),
            Command::Asked(sub) => write(alloc, self.asked(sub), out),
            Command::Count(sub) => write(alloc, self.count(sub), out),
            Command::Joins(sub) => write(alloc, self.joins(alloc, sub), out),
            Command::Choices(sub) => write(alloc, self.choices(alloc, sub), out),
            Command::Check(sub) => write(alloc, self.check(alloc, sub), out),
            Command::Why(sub) => write(alloc, self.why(sub), out),
            Command::WhyFeed(hub) => write(alloc, self.why_feed(hub), out),
            Command::Draw(sub) => write(alloc, self.draw(alloc, sub), out),
        }
    }

    /// What is known of a subscription; the refusal of an unknown one where there is none.
    fn record(&self, sub: SubId) -> Result<&Record, Trouble>
        ensures found { IfOk result (λ r. slice_get self.now.records.items sub.0 ≡ Some r.now) }
        ensures none { IfErr result (λ t. IsTroubleOf Refusal.UnknownSub t × (length self.now.records.items ≤ sub.0)) }
        ensures err { IfErr result IsTrouble }
    {
        match self.records.get(sub.0 as usize) {
            Some(record) => Ok(record),
            None => Err(Trouble::from(Refusal::UnknownSub)),
        }
    }

    /// Makes a hub, at which nothing was published so far.
    fn hub(
        &mut self,
        alloc: Global,
        kind: HubKind,
        capacity: u64,
    ) -> Result<Answer<'static>, Trouble>
        ensures answer { IfOk result (λ a. is_hub a ≡ true) }
        ensures leads { OnText result (λ text. LeadsAll (Command.Hub kind capacity) self.old text self.new) }
        ensures err { IfErr result IsTrouble }
    {
        self.published.reserve(1)?;
        let hub = self.graph.hub(alloc, kind, capacity)?;
        self.published.push_reserved(HubSource::emitter(alloc));
        Ok(Answer::Hub(hub))
    }

    /// Makes a hub that is fed by an expression, and keeps that for `show` and `check`.
    fn feed(
        &mut self,
        alloc: Global,
        kind: HubKind,
        capacity: u64,
        expr: Expr<Val>,
    ) -> Result<Answer<'static>, Trouble>
        ensures answer { IfOk result (λ a. is_hub a ≡ true) }
        ensures leads { OnText result (λ text. LeadsAll (Command.Feed kind capacity expr) self.old text self.new) }
        ensures err { IfErr result IsTrouble }
    {
        self.published.reserve(1)?;
        let hub = self.graph.feed_hub(alloc, kind, capacity, &expr)?;
        self.published.push_reserved(HubSource::Fed(expr));
        Ok(Answer::Hub(hub))
    }

    /// Publishes an item. It is kept first, since that alone may want memory, and let go where the hub refuses it.
    ///
    /// # Errors
    ///
    /// The graph's refusal, or want of memory.
    pub fn emit(
        &mut self,
        alloc: Global,
        hub: HubId,
        number: i64,
    ) -> Result<Answer<'static>, Trouble>
        ensures answer { IfOk result (λ a. is_done a ≡ true) }
        ensures leads { OnText result (λ text. LeadsAll (Command.Emit hub number) self.old text self.new) }
        ensures err { IfErr result IsTrouble }
    {
        let at = hub.0 as usize;
        if at >= self.published.len() {
            return Err(Trouble::from(Refusal::UnknownHub));
        }
        let source = &mut self.published[at];
        source.keep_item(alloc, Val::Int(number))?;
        match self.graph.emit(hub, Val::Int(number)) {
            Ok(()) => Ok(Answer::Done),
            Err(back) => {
                let kept = &mut self.published[at];
                kept.let_item_go(alloc);
                Err(Trouble::from(back.refusal))
            }
        }
    }

    /// Completes a hub.
    ///
    /// # Errors
    ///
    /// As [`Session::emit`].
    pub fn complete(&mut self, alloc: Global, hub: HubId) -> Result<Answer<'static>, Trouble>
        ensures answer { IfOk result (λ a. is_done a ≡ true) }
        ensures leads { OnText result (λ text. LeadsAll (Command.Complete hub) self.old text self.new) }
        ensures err { IfErr result IsTrouble }
    {
        let at = hub.0 as usize;
        if at >= self.published.len() {
            return Err(Trouble::from(Refusal::UnknownHub));
        }
        self.graph.complete(hub)?;
        let source = &mut self.published[at];
        source.end(alloc, Ending::Done);
        Ok(Answer::Done)
    }

    /// Fails a hub with this number.
    ///
    /// # Errors
    ///
    /// As [`Session::emit`].
    pub fn fail(
        &mut self,
        alloc: Global,
        hub: HubId,
        number: u32,
    ) -> Result<Answer<'static>, Trouble>
        ensures answer { IfOk result (λ a. is_done a ≡ true) }
        ensures leads { OnText result (λ text. LeadsAll (Command.Fail hub number) self.old text self.new) }
        ensures err { IfErr result IsTrouble }
    {
        let at = hub.0 as usize;
        if at >= self.published.len() {
            return Err(Trouble::from(Refusal::UnknownHub));
        }
        self.graph.fail(hub, number)?;
        let source = &mut self.published[at];
        source.end(alloc, Ending::Failed(Cause::User(number)));
        Ok(Answer::Done)
    }

    /// Subscribes, and keeps the expression for `show` and `check`.
    fn subscribe(&mut self, alloc: Global, expr: Expr<Val>) -> Result<Answer<'static>, Trouble>
        ensures answer { IfOk result (λ a. is_sub a ≡ true) }
        ensures leads { OnText result (λ text. LeadsAll (Command.Subscribe expr) self.old text self.new) }
        ensures err { IfErr result IsTrouble }
    {
        self.records.reserve(1)?;
        let sub = self.graph.subscribe(alloc, &expr)?;
        self.records.push_reserved(Record {
            expr,
            received: Vec::new(alloc),
            ending: Ending::Open,
        });
        Ok(Answer::Sub(sub))
    }

    /// The error of a bad request is delivered at once (rule 3.9).
    fn request(&mut self, sub: SubId, count: i64) -> Result<Answer<'static>, Trouble>
        ensures answer { IfOk result (λ a. is_done a ≡ true) }
        ensures leads { OnText result (λ text. LeadsAll (Command.Request sub count) self.old text self.new) }
        ensures err { IfErr result IsTrouble }
    {
        match self.graph.request(sub, count)? {
            None => Ok(Answer::Done),
            Some(signal) => {
                take_in(&mut self.records, sub, signal)?;
                Ok(Answer::Done)
            }
        }
    }

    /// A subscription that ended or was closed stays as it is (rule 3.7).
    fn cancel(&mut self, sub: SubId) -> Result<Answer<'static>, Trouble>
        ensures answer { IfOk result (λ a. is_done a ≡ true) }
        ensures leads { OnText result (λ text. LeadsAll (Command.Cancel sub) self.old text self.new) }
        ensures err { IfErr result IsTrouble }
    {
        self.graph.cancel(sub)?;
        Ok(Answer::Done)
    }

    /// Makes one pick, which delivers nothing.
    fn pick(
        &mut self,
        alloc: Global,
        sub: SubId,
        node: NodeId,
        input: u64,
    ) -> Result<Answer<'static>, Trouble>
        ensures answer { IfOk result (λ a. is_done a ≡ true) }
        ensures leads { OnText result (λ text. LeadsAll (Command.Pick sub node input) self.old text self.new) }
        ensures err { IfErr result IsTrouble }
    {
        self.graph
            .make(alloc, Move::Pick(Tree::Sub(sub), node, input))?;
        Ok(Answer::Done)
    }

    /// Makes at most so many moves, a slice of them at a time.
    fn pump(&mut self, alloc: Global, budget: u32) -> Result<Answer<'static>, Trouble>
        ensures answer { IfOk result (λ a. is_pumped a ≡ true) }
        ensures leads { OnText result (λ text. LeadsAll (Command.Pump budget) self.old text self.new) }
        ensures err { IfErr result IsTrouble }
    {
        for _ in 0..budget / SLICE {
            if let Pumped::Idle = self.pump_slice(alloc, SLICE)? {
                return Ok(Answer::Idle);
            }
        }
        match self.pump_slice(alloc, budget % SLICE)? {
            Pumped::Idle => Ok(Answer::Idle),
            Pumped::Budget => Ok(Answer::Budget),
        }
    }

    /// Makes at most so many moves, and takes in what they delivered.
    fn pump_slice(&mut self, alloc: Global, budget: u32) -> Result<Pumped, Trouble>
        ensures pumped { IfOk result (λ ended. AllPumpTo budget self.old ended self.new) }
        ensures err { IfErr result (λ t. t ≡ Trouble.Memory) }
    {
        let spare = mem::replace(&mut self.spare, Vec::new(alloc));
        let mut deliveries = Deliveries::from_vec(spare);
        let pumped = self.graph.pump(alloc, budget, &mut deliveries)?;
        let mut signals = deliveries.into_vec();
        take_in_all(&mut self.records, &mut signals)?;
        self.spare = signals;
        Ok(pumped)
    }

    /// How many items a subscriber asked for in all.
    fn asked(&self, sub: SubId) -> Result<Answer<'_>, Trouble>
        ensures answer { IfOk result (λ a. is_asked a ≡ true) }
        ensures says { Says self.now result (λ place text. IsAsked place sub text) }
        ensures err { IfErr result IsTrouble }
    {
        Ok(Answer::Asked(self.graph.asked(sub)?))
    }

    /// How many items a subscriber received.
    fn count(&self, sub: SubId) -> Result<Answer<'_>, Trouble>
        ensures answer { IfOk result (λ a. is_count a ≡ true) }
        ensures says { Says self.now result (λ place text. IsCounted place sub text) }
        ensures err { IfErr result IsTrouble }
    {
        let received = self.record(sub)?.received.as_slice();
        Ok(Answer::Count(received.len() as u64))
    }

    /// How many items of its hub each leaf of a subscription misses.
    fn joins(&self, alloc: Global, sub: SubId) -> Result<Answer<'_>, Trouble>
        ensures answer { IfOk result (λ a. is_joins a ≡ true) }
        ensures says { Says self.now result (λ place text. AreJoins place sub text) }
        ensures err { IfErr result IsTrouble }
    {
        Ok(Answer::Joins(self.graph.joins(alloc, Tree::Sub(sub))?))
    }

    /// What each node of a subscription recorded.
    fn choices(&self, alloc: Global, sub: SubId) -> Result<Answer<'_>, Trouble>
        ensures answer { IfOk result (λ a. is_choices a ≡ true) }
        ensures says { Says self.now result (λ place text. AreChoices place sub text) }
        ensures err { IfErr result IsTrouble }
    {
        Ok(Answer::Choices(self.graph.notes(alloc, Tree::Sub(sub))?))
    }

    /// What a subscriber waits for.
    fn why(&self, sub: SubId) -> Result<Answer<'_>, Trouble>
        ensures answer { IfOk result (λ a. is_waits a ≡ true) }
        ensures says { Says self.now result (λ place text. IsExplained place sub text) }
        ensures err { IfErr result IsTrouble }
    {
        Ok(Answer::Waits(self.graph.explain(sub)?))
    }

    /// What the feed of a hub waits for.
    fn why_feed(&self, hub: HubId) -> Result<Answer<'_>, Trouble>
        ensures answer { IfOk result (λ a. is_feed_waits a ≡ true) }
        ensures says { Says self.now result (λ place text. IsFeedExplained place hub text) }
        ensures err { IfErr result IsTrouble }
    {
        Ok(Answer::FeedWaits(self.graph.explain_feed(hub)?))
    }

    /// What the nodes of a subscription do.
    fn draw(&self, alloc: Global, sub: SubId) -> Result<Answer<'_>, Trouble>
        ensures answer { IfOk result (λ a. is_drawn a ≡ true) }
        ensures says { Says self.now result (λ place text. IsDrawn place sub text) }
        ensures err { IfErr result IsTrouble }
    {
        Ok(Answer::Drawn(self.graph.picture(alloc, sub)?))
    }

    /// What `show` answers of a subscription.
    fn show(&self, alloc: Global, sub: SubId) -> Result<Answer<'_>, Trouble>
        ensures answer { IfOk result (λ a. is_shown self.now.view a ≡ true) }
        ensures says { Says self.now result (λ place text. IsViewed self.now.view place sub text) }
        ensures err { IfErr result IsTrouble }
    {
        match self.view {
            View::Received => self.show_received(alloc, sub),
            View::FromScratch => self.show_value(alloc, sub),
        }
    }

    /// What a subscriber received, and the rest.
    fn show_received(&self, alloc: Global, sub: SubId) -> Result<Answer<'_>, Trouble>
        ensures answer { IfOk result (λ a. is_received a ≡ true) }
        ensures says { Says self.now result (λ place text. IsShown place sub text) }
        ensures err { IfErr result IsTrouble }
    {
        let record = self.record(sub)?;
        let rest = self.rest(alloc, sub)?;
        Ok(Answer::Shown(Shown {
            received: record.received.as_slice(),
            ending: record.ending,
            rest,
        }))
    }

    /// What follows what a subscriber received.
    fn rest(&self, alloc: Global, sub: SubId) -> Result<Rest, Trouble>
        ensures says { IfOk result (λ rest. (h : History Val) → SessionStands self.now h → IsRestOf (place_of self.now h) sub rest) }
        ensures refused { IfErr result (λ t. IsLookTrouble (length self.now.graph.subscriptions.items) sub t) }
        ensures err { IfErr result IsTrouble }
    {
        match self.graph.standing(sub)? {
            SubscriptionState::Open | SubscriptionState::Ended => {
                Ok(Rest::Owed(self.graph.owed(alloc, sub)?))
            }
            SubscriptionState::Cancelled => Ok(Rest::Cancelled),
            SubscriptionState::Refused => Ok(Rest::Closed),
        }
    }

    /// What the slow evaluator answers for a subscription.
    fn show_value(&self, alloc: Global, sub: SubId) -> Result<Answer<'_>, Trouble>
        ensures answer { IfOk result (λ a. is_value a ≡ true) }
        ensures says { Says self.now result (λ place text. IsValued place sub text) }
        ensures err { IfErr result IsTrouble }
    {
        let record = self.record(sub)?;
        Ok(Answer::Value(self.value(alloc, sub, &record.expr)?))
    }

    /// The value of a subscription's expression, evaluated from scratch.
    fn value(
        &self,
        alloc: Global,
        sub: SubId,
        expr: &Expr<Val>,
    ) -> Result<StreamValue<Val>, Trouble>
        ensures says { (h : History Val) → SessionStands self.now h → IsValueOf (place_of self.now h) sub expr.now result }
        ensures err { IfErr result IsTrouble }
    {
        let notes = self.graph.notes(alloc, Tree::Sub(sub))?;
        let joins = self.graph.joins(alloc, Tree::Sub(sub))?;
        let published = self.values(alloc)?;
        Ok(scratch(alloc, &Demo, expr, &published, &joins, &notes)?)
    }

    /// The values of the hubs, in the order of their ids.
    fn values(&self, alloc: Global) -> Result<Vec<StreamValue<Val>>, Trouble>
        ensures says { IfOk result (λ vs. (h : History Val) → SessionStands self.now h → HaveValues (place_of self.now h) vs.items) }
        ensures refused { IfErr result (λ t. (h : History Val) → SessionStands self.now h → IsHubsTrouble (place_of self.now h) t) }
        ensures err { IfErr result IsTrouble }
    {
        let mut values = Vec::new(alloc);
        for source in &self.published {
            let value = self.value_after(alloc, &values, source)?;
            values.push(value)?;
        }
        Ok(values)
    }

    /// The value of the hub behind those with these values: what was published at its emitter, or the value of the expression
    /// that feeds it, evaluated from scratch.
    fn value_after(
        &self,
        alloc: Global,
        before: &[StreamValue<Val>],
        source: &HubSource,
    ) -> Result<StreamValue<Val>, Trouble>
        ensures says { IfOk result (λ v. (h : History Val) → SessionStands self.now h → IsNextValue (place_of self.now h) before.now source.now v) }
        ensures refused { IfErr result (λ t. (h : History Val) → SessionStands self.now h → IsNextTrouble (place_of self.now h) before.now source.now t) }
        ensures err { IfErr result IsTrouble }
    {
        let expr = match source {
            HubSource::Emitted(value) => return Ok(copied(alloc, value)?),
            HubSource::Fed(expr) => expr,
        };
        // A graph has at most 64 hubs, so each of their numbers is a u32.
        let Ok(number) = u32::try_from(before.len()) else {
            return Err(Trouble::Memory);
        };
        let tree = Tree::Feed(HubId(number));
        let notes = self.graph.notes(alloc, tree)?;
        let joins = self.graph.joins(alloc, tree)?;
        Ok(scratch(alloc, &Demo, expr, before, &joins, &notes)?)
    }

    /// Compares with the value of the expression, evaluated from scratch.
    fn check(&self, alloc: Global, sub: SubId) -> Result<Answer<'_>, Trouble>
        ensures answer { IfOk result (λ a. is_compared a ≡ true) }
        ensures says { Says self.now result (λ place text. IsChecked place sub text) }
        ensures err { IfErr result IsTrouble }
    {
        let record = self.record(sub)?;
        let value = self.value(alloc, sub, &record.expr)?;
        if self.is_right(alloc, sub, record, &value)? {
            Ok(Answer::Equal)
        } else {
            Ok(Answer::Different)
        }
    }

    /// Whether what a subscriber received, and what it is owed, is this value. Of one that cancelled or made a bad request,
    /// to which nothing is owed: whether the items that it received begin it.
    fn is_right(
        &self,
        alloc: Global,
        sub: SubId,
        kept: &Record,
        value: &StreamValue<Val>,
    ) -> Result<bool, Trouble>
        ensures says { IfOk result (λ right. (h : History Val) → SessionStands self.now h → IsRightOf (place_of self.now h) sub kept.now value.now right) }
        ensures refused { IfErr result (λ t. IsLookTrouble (length self.now.graph.subscriptions.items) sub t) }
        ensures err { IfErr result IsTrouble }
    {
        match self.graph.standing(sub)? {
            SubscriptionState::Open | SubscriptionState::Ended => {
                let owed = self.graph.owed(alloc, sub)?;
                Ok(kept.is_whole(&owed, value))
            }
            SubscriptionState::Cancelled | SubscriptionState::Refused => {
                Ok(begins(value.items(), kept.received.as_slice()))
            }
        }
    }
}

/// Adds what a command answers to the text, or the name of its refusal, with a newline.
///
/// # Errors
///
/// `NoMemory` where a growth was refused, also before; the text is then as it was.
fn write(alloc: Global, done: Result<Answer<'_>, Trouble>, out: &mut String) -> Result<(), NoMemory>
    ensures same { OnErr result (string_bytes out.new ≡ string_bytes out.old) }
    ensures grows { OnOk result (GrowsByLine (string_bytes out.old) (string_bytes out.new) (IsLineOf done.entry)) }
{
    match done {
        Ok(answer) => answer.add_to(alloc, out),
        Err(trouble) => match trouble {
            Trouble::Refused(name) => Answer::Refused(name).add_to(alloc, out),
            Trouble::Memory => Err(NoMemory),
        },
    }
}

/// Takes in a signal to a subscriber; where there is none, nothing.
#[inline]
pub(crate) fn take_in(
    records: &mut Vec<Record>,
    sub: SubId,
    signal: Signal<Val>,
) -> Result<(), Trouble>
    ensures taken { OnOk result (map known records.new.items ≡ changed (taken signal) (map known records.old.items) sub.0) }
    ensures err { IfErr result (λ t. t ≡ Trouble.Memory) }
{
    let at = sub.0 as usize;
    if at >= records.len() {
        return Ok(());
    }
    let record = &mut records[at];
    match record.take(signal) {
        Ok(()) => Ok(()),
        Err(NoMemory) => Err(Trouble::Memory),
    }
}

/// Takes in these signals, in their order, and empties their list, whose memory stays.
fn take_in_all(
    records: &mut Vec<Record>,
    signals: &mut Vec<(SubId, Signal<Val>)>,
) -> Result<(), Trouble>
    ensures taken { OnOk result (map known records.new.items ≡ all_taken signals.old.items (map known records.old.items)) }
    ensures emptied { OnOk result (signals.new.items ≡ []) }
    ensures err { IfErr result (λ t. t ≡ Trouble.Memory) }
{
    for (sub, signal) in signals.drain(..) {
        take_in(records, sub, signal)?;
    }
    Ok(())
}

impl Record {
    /// Takes in a signal.
    #[inline]
    fn take(&mut self, signal: Signal<Val>) -> Result<(), NoMemory>
        ensures { OnOk result (known self.new ≡ taken signal (known self.old)) }
    {
        match signal {
            Signal::Next(item) => match self.received.push(item) {
                Ok(()) => Ok(()),
                Err(_) => Err(NoMemory),
            },
            Signal::Complete => {
                self.ending = Ending::Done;
                Ok(())
            }
            Signal::Error(cause) => {
                self.ending = Ending::Failed(cause);
                Ok(())
            }
        }
    }

    /// Whether what was received, followed by what is owed, is this value.
    fn is_whole(&self, owed: &StreamValue<Val>, value: &StreamValue<Val>) -> bool
        ensures { Decides result (followed_by self.now.received.items self.now.ending owed.now ≡ value.now) }
    {
        let ending = match self.ending {
            Ending::Open => owed.ending(),
            received => received,
        };
        let received = self.received.as_slice();
        let items = value.items();
        if ending != value.ending() || !begins(items, received) {
            return false;
        }
        is_same_list(&items[received.len()..], owed.items())
    }
}

/// Whether the first items are these.
fn begins(items: &[Val], first: &[Val]) -> bool
    ensures { Decides result (IsPrefixOf first.now items.now) }
{
    first.len() <= items.len() && is_same_list(&items[..first.len()], first)
}

/// Whether two lists have the same items, one by one.
fn is_same_list(xs: &[Val], ys: &[Val]) -> bool
    ensures { Decides result (xs.now ≡ ys.now) }
{
    if xs.len() != ys.len() {
        return false;
    }
    for (i, x) in xs.iter().enumerate() {
        if !is_same_val(x, &ys[i]) {
            return false;
        }
    }
    true
}
