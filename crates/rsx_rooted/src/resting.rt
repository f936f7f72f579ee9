//! Whether a tree rests, by one look at each of its nodes.

ghost use Rattle.std.specs.Prelude.{◌≡◌, Some, false, true, option_map, IfSome};
ghost use Rattle.rsx_types.specs.Meaning.{Meaning};
ghost use Rattle.rsx_sources.specs.Machine.{front_of};
ghost use Rattle.rsx_tree.specs.Driven.{IsRowIdle};
ghost use Rattle.rsx_tree.specs.Edges.{edge_view};
ghost use Rattle.rsx_tree.specs.Stepped.{IsStill, over};
ghost use Rattle.rsx_rooted.specs.Resting.{IsAtRest};
ghost use Rattle.rsx_rooted.specs.Tree.{can_go};

use crate::batch::Batches;
use rsx_sources::{Front, Machine};
use rsx_tree::{Edge, Inputs};

/// Where a node with a live edge of which `asked` is asked, and which carried `sent` items, rests: what it wants of its first input in
/// all. It rests where it can make no step, and nothing that it offers can go over the edge. None promises nothing.
#[inline(always)]
pub fn want_of_resting<M: Machine>(node: &M, asked: u64, sent: u64) -> Option<u64>
    ensures { IfSome result (λ want. IsAtRest M.Machine node.now asked sent want) }
{
    match node.front() {
        None => {}
        Some(Front::Item) => {
            if sent < asked {
                return None;
            }
        }
        Some(_) => return None,
    }
    if node.next_pick(asked, sent).is_some() || node.can_row(asked, sent) {
        return None;
    }
    Some(node.want(0, asked, sent))
}

/// Where neither a step of a node nor a Send over its edge is enabled, whoever receives: what it wants of its first input in all. None
/// promises nothing.
#[inline(always)]
pub(crate) fn want_over<M: Batches>(edge: &Edge, node: &M) -> Option<u64>
    ensures want { IfSome result (λ want. want ≡ M.wanted node.now 0 edge.now.demand.asked edge.now.demand.sent) }
    ensures stays { (m : Meaning M.Item) → IfSome result (λ want. can_go (edge_view edge.now) (option_map front_of (M.waiting m node.now)) ≡ false) }
    ensures still { IfSome result (λ want. IsStill M.Machine (Some (over edge.now node.now))) }
{
    let asked = edge.demand.asked;
    let sent = edge.demand.sent;
    if edge.is_live() {
        return node.want_at_rest(asked, sent);
    }
    Some(node.want(0, asked, sent))
}

/// Whether a row has no edges.
#[inline(always)]
fn is_end<M>(row: &Inputs<M>) -> bool
    ensures { result ≡ true → row.now ≡ Inputs.End }
{
    matches!(row, Inputs::End)
}

/// Whether no move of a row is enabled, where its first edge is input `input` of `receiver`, which wants `want` of it in all; so much is
/// asked of the receiver, and so many items it sent. Where it answers no, some move may be or not.
pub(crate) fn rests_in<M: Batches>(
    row: &Inputs<M>,
    receiver: &M,
    input: u64,
    want: u64,
    asked: u64,
    sent: u64,
) -> bool
    requires { want ≡ M.wanted receiver.now input asked sent }
    ensures { (m : Meaning M.Item) → result ≡ true → IsRowIdle M.Machine m receiver.now input asked sent row.now }
{
    match row {
        Inputs::End => true,
        Inputs::More(edge, sender, below, beside) => {
            if edge.can_ask(want) {
                return false;
            }
            let Some(want_below) = want_over(edge, sender) else {
                return false;
            };
            let asked_below = edge.demand.asked;
            let sent_below = edge.demand.sent;
            // Most nodes have one input. The look at what is below it is the last then, so it goes on in a loop.
            if is_end(beside) {
                return rests_in(below, sender, 0, want_below, asked_below, sent_below);
            }
            if !rests_in(below, sender, 0, want_below, asked_below, sent_below) {
                return false;
            }
            match input.checked_add(1) {
                Some(next) => {
                    let want = receiver.want(next, asked, sent);
                    rests_in(beside, receiver, next, want, asked, sent)
                }
                None => false,
            }
        }
    }
}
