//! Replay by choices.
//!
//! A node of several inputs, or of lanes, records which of them it took. What a subscriber gets is the value of its expression
//! under that record, in whatever order the moves were made. So a run can be checked, and told again.

ghost use Rattle.std.specs.Prelude.{◌≡◌, List};
ghost use Rattle.rsx_pipe.specs.Tree.{notes_of};
ghost use Rattle.rsx_subscriber.specs.Past.{Past};
ghost use Rattle.rsx_subscriber.specs.Stands.{owes_in};
ghost use Rattle.rsx_subscriber.specs.declared.state.SubscriptionState.TheVariants.{Open};
ghost use Rattle.rsx_subscriber.specs.declared.subscription.Subscription.{Subscription};
ghost use Rattle.rsx_types.specs.Meaning.{Meaning};
ghost use Rattle.rsx_types.specs.Stream.{Stream, signals_then};

use rsx_pipe::Nodes;
use rsx_types::Ops;

/// Equal records give equal values: of two open subscribers of the same expression, in one graph or in two, whose leaves joined the
/// hubs at the same places and whose nodes recorded the same choices, over the same values of the hubs, what the one received,
/// followed by what it is owed, is what the other received, followed by what that one is owed. What a subscriber is owed is what
/// `Graph::owed` answers (`owes_in`).
///
/// The function does nothing; its contract is the sentence.
pub fn equal_records_give_equal_values<N: Nodes<Item = O::Item>, O: Ops>()
    ensures { (m : Meaning O.Item) (hubs : List (Stream O.Item)) (a b : Subscription N O.Item) (p q : Past O.Item) (v w : Stream O.Item) →
        p.expression ≡ q.expression →
        p.joins ≡ q.joins →
        notes_of N.Machine a.part.tree ≡ notes_of N.Machine b.part.tree →
        owes_in N.Machine m hubs a p v Open → owes_in N.Machine m hubs b q w Open → signals_then p.received v ≡ signals_then q.received w }
{}
