//! What a session keeps of a hub.

ghost use Rattle.std.specs.Prelude.{◌≡◌, ◌-◌, ◌++◌, ◌∷◌, [], length, take, IfOk, OnOk, OnErr};
ghost use Rattle.rsx_types.specs.Stream.{ended_by};
ghost use Rattle.rsx_types.specs.declared.signal.Signal.TheVariants.{Next};
ghost use Rattle.rsx_session.specs.Kept.{source_ended, source_with, source_without_last};

use rsx_demo::{Val, copy_items};
use rsx_model::Expr;
use rsx_types::{Ending, NoMemory, StreamValue};
use std::alloc::Global;
use std::mem;

/// What a hub publishes, as the slow evaluator takes it.
#[derive(Drop)]
pub(crate) enum HubSource {
    /// What was published at its emitter and not refused.
    Emitted(StreamValue<Val>),
    /// What this expression gives, which feeds it.
    Fed(Expr<Val>),
}

impl HubSource {
    /// That of an emitter at which nothing was published so far.
    pub(crate) fn emitter(alloc: Global) -> HubSource
        ensures { result ≡ HubSource.Emitted (ended_by Ending.Open) }
    {
        HubSource::Emitted(StreamValue::new(Vec::new(alloc), Ending::Open))
    }

    /// Puts an item behind what was published at an emitter. Of a hub that is fed, nothing is kept.
    ///
    /// # Errors
    ///
    /// `NoMemory` where a growth was refused; nothing changed then.
    pub(crate) fn keep_item(&mut self, alloc: Global, item: Val) -> Result<(), NoMemory>
        ensures kept { OnOk result (self.new ≡ source_with (Next item) self.old) }
        ensures same { OnErr result (self.new ≡ self.old) }
    {
        match self {
            HubSource::Emitted(value) => keep_item(alloc, value, item),
            HubSource::Fed(_) => Ok(()),
        }
    }

    /// Takes the last item off what was published at an emitter.
    pub(crate) fn let_item_go(&mut self, alloc: Global)
        ensures { self.new ≡ source_without_last self.old }
    {
        match self {
            HubSource::Emitted(value) => let_item_go(alloc, value),
            HubSource::Fed(_) => {}
        }
    }

    /// Ends what was published at an emitter.
    pub(crate) fn end(&mut self, alloc: Global, ending: Ending)
        ensures { self.new ≡ source_ended ending self.old }
    {
        match self {
            HubSource::Emitted(value) => end(alloc, value, ending),
            HubSource::Fed(_) => {}
        }
    }
}

/// A copy of a value.
///
/// # Errors
///
/// `NoMemory` where a growth was refused.
pub(crate) fn copied(alloc: Global, value: &StreamValue<Val>) -> Result<StreamValue<Val>, NoMemory>
    ensures { IfOk result (λ v. v ≡ value.now) }
{
    Ok(StreamValue::new(copy_items(alloc, value.items())?, value.ending()))
}

/// Takes the items out of a value, which has none then, and keeps its ending.
fn taken_out(alloc: Global, value: &mut StreamValue<Val>) -> Vec<Val>
    ensures items { result.items ≡ value.old.items }
    ensures left { value.new ≡ record { items = []; ending = value.old.ending } }
{
    let empty = StreamValue::new(Vec::new(alloc), value.ending());
    mem::replace(value, empty).into_items()
}

/// Puts an item behind those of a value.
///
/// # Errors
///
/// `NoMemory` where a growth was refused; the value is then as it was.
fn keep_item(alloc: Global, value: &mut StreamValue<Val>, item: Val) -> Result<(), NoMemory>
    ensures kept { OnOk result (value.new ≡ record { items = value.old.items ++ item ∷ []; ending = value.old.ending }) }
    ensures same { OnErr result (value.new ≡ value.old) }
{
    let mut items = taken_out(alloc, value);
    let room = items.reserve(1);
    if room.is_ok() {
        items.push_reserved(item);
    }
    *value = StreamValue::new(items, value.ending());
    match room {
        Ok(()) => Ok(()),
        Err(_) => Err(NoMemory),
    }
}

/// Takes the last item off a value.
fn let_item_go(alloc: Global, value: &mut StreamValue<Val>)
    ensures items { value.new.items ≡ take (length value.old.items - 1) value.old.items }
    ensures ending { value.new.ending ≡ value.old.ending }
{
    let mut items = taken_out(alloc, value);
    items.pop();
    *value = StreamValue::new(items, value.ending());
}

/// Ends a value.
fn end(alloc: Global, value: &mut StreamValue<Val>, ending: Ending)
    ensures { value.new ≡ record { items = value.old.items; ending = ending } }
{
    *value = StreamValue::new(taken_out(alloc, value), ending);
}
