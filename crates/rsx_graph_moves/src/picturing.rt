//! What the nodes of a subscriber's tree do now.

ghost use Rattle.std.specs.Prelude.{◌≡◌, ◌++◌, ◌≤◌, OnOk, IfOk, IfErr, Some, length, slice_get};
ghost use Rattle.rsx_graph_state.specs.Answers.{IsLookRefusal};
ghost use Rattle.rsx_graph_moves.specs.Pictures.{HasLooks, edge_look, kept_in, last_of, look, offer_of, offered_over, recorded, row_looks, tree_looks};

use rsx_graph_state::Refusal;
use rsx_pipe::Nodes;
use rsx_sources::Front;
use rsx_subscriber::Subscription;
use rsx_tree::{Edge, EdgeState, Inputs, Node};
use rsx_types::{NoMemory, Note, SubId};
use rsx_values::MAIN;
use rsx_waits::{EdgeLook, NodeLook, Offer, Picture, Recorded};
use std::alloc::Global;

/// What the nodes of the tree of the subscription with this number do now, in pre-order.
///
/// # Errors
/// G2 exactly where there is no such subscription, and G8 where a growth was refused.
pub fn picture<N: Nodes<Item = T>, T: Drop>(
    alloc: Global,
    subscriptions: &[Subscription<N, T>],
    sub: SubId,
) -> Result<Picture, Refusal>
    ensures looks { IfOk result (λ picture. HasLooks N.Machine N.Nodes.own subscriptions.now sub picture.nodes.items) }
    ensures err { IfErr result (λ r. IsLookRefusal (length subscriptions.now) sub r) }
{
    let at = sub.0 as usize;
    if at >= subscriptions.len() {
        return Err(Refusal::UnknownSub);
    }
    let subscription = &subscriptions[at];
    let queued = subscription.queue().len() as u64;
    let rooted = subscription.part().rooted();
    match looks_of(alloc, queued, &rooted.root, &rooted.tree) {
        Ok(nodes) => Ok(Picture { nodes }),
        Err(NoMemory) => Err(Refusal::NoMemory),
    }
}

/// What the nodes of a tree do, where this is its own edge, and so many signals wait for the subscriber.
fn looks_of<N: Nodes>(
    alloc: Global,
    queued: u64,
    root: &Edge,
    tree: &Node<N>,
) -> Result<Vec<NodeLook>, NoMemory>
    ensures { IfOk result (λ looks. looks.items ≡ tree_looks N.Machine N.Nodes.own queued root.now tree.now) }
{
    let mut looks = Vec::new(alloc);
    let look = look_at(alloc, None, Some(queued), root, &tree.machine)?;
    looks.push(look)?;
    add_row(alloc, &tree.inputs, &tree.machine, 0, 0, &mut looks)?;
    Ok(looks)
}

/// Puts what the nodes of a row do, and those below them, behind `looks`, in pre-order. The row's receiver is this node, and has this
/// number; the first node of the row is its input with the number `input`, and at least as many looks as that stand there.
fn add_row<N: Nodes>(
    alloc: Global,
    row: &Inputs<N>,
    machine: &N,
    receiver: u64,
    input: u64,
    looks: &mut Vec<NodeLook>,
) -> Result<(), NoMemory>
    requires { input ≤ length looks.old.items }
    ensures { OnOk result (looks.new.items ≡ looks.old.items ++ row_looks N.Machine N.Nodes.own machine.now receiver input (length looks.old.items) row.now) }
{
    match row {
        Inputs::End => Ok(()),
        Inputs::More(edge, sender, below, beside) => {
            let node = looks.len() as u64;
            let queued = machine.queued_at(input);
            let look = look_at(alloc, Some(receiver), queued, edge, sender)?;
            looks.push(look)?;
            match add_row(alloc, below, sender, node, 0, looks) {
                Ok(()) => add_row(alloc, beside, machine, receiver, input + 1, looks),
                Err(NoMemory) => Err(NoMemory),
            }
        }
    }
}

/// What one node does over its edge to this receiver, in whose queue for it so many signals wait.
fn look_at<N: Nodes>(
    alloc: Global,
    receiver: Option<u64>,
    queued: Option<u64>,
    edge: &Edge,
    machine: &N,
) -> Result<NodeLook, NoMemory>
    ensures { IfOk result (λ l. l ≡ look N.Machine N.Nodes.own receiver queued edge.now machine.now) }
{
    let note = machine.note(alloc)?;
    let crossing = machine.crossing();
    Ok(NodeLook {
        operator: machine.operator(),
        receiver,
        asked: edge.demand.asked,
        sent: edge.demand.sent,
        edge: look_of_edge(edge.state),
        crossing: kept_in(edge.state, crossing),
        queued,
        lanes: machine.lanes(),
        offer: offered_over(edge.state, crossing, offered(machine.front())),
        last: last_of(&note),
    })
}

/// What stands last in a record: a choice, or the input whose ending a `zip` took.
fn last_of(note: &Note) -> Option<Recorded>
    ensures { result ≡ last_of note.now }
{
    match note {
        Note::Nothing => None,
        Note::Picks(choices) => match choices.as_slice().last() {
            Some(choice) => Some(recorded(*choice)),
            None => None,
        },
        Note::Ended(None) => None,
        Note::Ended(Some(input)) => Some(Recorded::From(*input as u64)),
    }
}

/// What this choice took.
fn recorded(choice: u64) -> Recorded
    ensures { result ≡ recorded choice }
{
    if choice == MAIN {
        Recorded::Main
    } else {
        Recorded::From(choice)
    }
}

/// Whether signals still go over an edge.
fn look_of_edge(state: EdgeState) -> EdgeLook
    ensures { result ≡ edge_look state }
{
    match state {
        EdgeState::Live => EdgeLook::Live,
        EdgeState::Ended => EdgeLook::Ended,
        EdgeState::Closed => EdgeLook::Closed,
    }
}

/// How many signals stand in the queue of an edge that crosses: a closed edge keeps none. Its node holds them until it is let go, and
/// nothing can come of them.
fn kept_in(state: EdgeState, crossing: Option<u64>) -> Option<u64>
    ensures { result ≡ kept_in state crossing }
{
    match state {
        EdgeState::Live | EdgeState::Ended => crossing,
        EdgeState::Closed => match crossing {
            Some(_) => Some(0),
            None => None,
        },
    }
}

/// What a node offers over its edge: over a closed one that crosses nothing, since the queue offers it.
fn offered_over(state: EdgeState, crossing: Option<u64>, offer: Offer) -> Offer
    ensures { result ≡ offered_over state crossing offer }
{
    match state {
        EdgeState::Live | EdgeState::Ended => offer,
        EdgeState::Closed => match crossing {
            Some(_) => Offer::Nothing,
            None => offer,
        },
    }
}

/// What a node offers.
fn offered(front: Option<Front>) -> Offer
    ensures { result ≡ offer_of front }
{
    match front {
        None => Offer::Nothing,
        Some(Front::Item) => Offer::Item,
        Some(Front::Completion) => Offer::Completion,
        Some(Front::Failure(_)) => Offer::Failure,
    }
}
