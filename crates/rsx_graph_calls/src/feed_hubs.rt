//! New hubs that are fed by expressions.

ghost use Rattle.rsx_pipe.specs.Crossings.{IsPlaced, differ};
ghost use Rattle.rsx_model.specs.Region.{region_of};
ghost use Rattle.std.specs.Prelude.{◌≡◌, ◌≢◌, ℕ, ◌<◌, ◌≤◌, ◌^◌, ◌++◌, ◌∷◌, List, [], true, length, map, None, OnOk, OnErr, IfOk, IfErr, vec_len, vec_capacity};
ghost use Rattle.rsx_types.specs.Meaning.{Meaning};
ghost use Rattle.rsx_types.specs.Stream.{Stream, ended_by};
ghost use Rattle.rsx_types.specs.declared.signal.Ending.TheVariants.{Open};
ghost use Rattle.rsx_hub.specs.Hub.{HubState, fresh_hub};
ghost use Rattle.rsx_model.specs.declared.expr.Expr.{Expr as ExprOf};
ghost use Rattle.rsx_pipe.specs.Built.{IsBuilt, new_joins};
ghost use Rattle.rsx_pipe.specs.Published.{AreTaken};
ghost use Rattle.rsx_tree.specs.Edges.{edge_view};
ghost use Rattle.rsx_graph_state.specs.Begun.{have_places};
ghost use Rattle.rsx_graph_state.specs.Feeds.{FeedStands, begun_edge};
ghost use Rattle.rsx_graph_state.specs.declared.TheConstants.{MOST_HUBS};
ghost use Rattle.rsx_subscriber.specs.declared.subscription.Subscription.{Subscription as SubscriptionOf};
ghost use Rattle.rsx_graph_state.specs.History.{History};
ghost use Rattle.rsx_graph_state.specs.Moves.{rows_of};
ghost use Rattle.rsx_graph_state.specs.Stands.{StandsFor};
ghost use Rattle.rsx_graph_calls.specs.Edits.{IsFedHubMade, IsFedHubRefusal, NameHubs, fault_of, with_fed_hub};
ghost use Rattle.rsx_graph_state.specs.Joins.{JoinsStand};
ghost use Rattle.rsx_graph_calls.specs.Regions.{RegionsStand, regions_of, with_fed_regions};
ghost use Rattle.rsx_graph_calls.specs.Senders.{senders_into};

use crate::hubs::are_numbers;
use crate::regions::Regions;
use crate::senders::senders_of;
use rsx_graph_state::{Feed, HUB_REGION, MOST_HUBS, Refusal};
use rsx_hub::Hub;
use rsx_model::{BadExpr, Expr, check_expr};
use rsx_pipe::Nodes;
use rsx_rooted::{count_in, have_places, joins_of};
use rsx_tree::Node;
use rsx_types::{HubId, HubKind, NoMemory};
use std::alloc::Global;

/// A hub and its feed that don't stand in the rows yet, with the joins of the feed's leaves, and the senders of its edges that cross.
#[derive(Drop)]
struct FedHub<N, T> {
    hub: Hub<T>,
    feed: Feed<N>,
    joins: Vec<u64>,
    senders: Vec<u8>,
}

/// Whether there may be a hub more of this kind and capacity that is fed by this expression.
///
/// # Errors
/// G6 with kind 4 exactly where the capacity or the number of a replay is not 1 to 1,024, else G6 exactly where the expression goes
/// past a limit or names a hub that isn't there, else G5 exactly where there are [`MOST_HUBS`] or a hub has no place for the leaves.
pub fn admit_fed<T: Drop>(
    kind: HubKind,
    capacity: u64,
    expr: &Expr<T>,
    hubs: &Vec<Hub<T>>,
) -> Result<(), Refusal>
    requires few { length hubs.now.items ≤ MOST_HUBS }
    ensures fine { OnOk result (fault_of kind capacity (length hubs.now.items) expr.now ≡ None) }
    ensures fewer { OnOk result (length hubs.now.items < MOST_HUBS) }
    ensures places { OnOk result (have_places 0 expr.now hubs.now.items ≡ true) }
    ensures err { IfErr result (λ r. IsFedHubRefusal kind capacity expr.now hubs.now.items r) }
    ensures memory { IfErr result (λ r. r ≢ Refusal.NoMemory) }
{
    let count = hubs.len();
    if let Some(why) = fault_of(kind, capacity, count as u32, expr) {
        return Err(Refusal::BadExpr(why));
    }
    if count >= MOST_HUBS || !have_places(expr, hubs) {
        return Err(Refusal::TooMany);
    }
    Ok(())
}

/// A hub that publishes what an expression gives over the hubs that are there, for which this tree was made. It stands behind the
/// others, so its number is how many there were, its feed behind the other feeds, and the joins and the regions of the feed behind
/// theirs. Each leaf of the expression that reads a hub has joined that hub. So many items as `capacity` may wait at each of its
/// readers.
///
/// # Errors
/// [`NoMemory`] where a growth was refused. Nothing changed, and nobody has joined.
pub fn feed_hub<N: Nodes<Item = T> + Drop, T: Drop>(
    alloc: Global,
    hubs: &mut Vec<Hub<T>>,
    feeds: &mut Vec<Feed<N>>,
    joins: &mut Vec<Vec<u64>>,
    regions: &mut Regions,
    kind: HubKind,
    capacity: u64,
    expr: &Expr<T>,
    tree: Node<N>,
) -> Result<HubId, NoMemory>
    requires fine { fault_of kind capacity (length hubs.old.items) expr.now ≡ None }
    requires fewer { length hubs.old.items < MOST_HUBS }
    requires places { have_places 0 expr.now hubs.old.items ≡ true }
    requires named { NameHubs (length hubs.old.items) feeds.old.items }
    requires beside { length joins.old.items ≡ length feeds.old.items }
    requires sent { length regions.old.feed_senders.items ≡ length feeds.old.items }
    ensures few { OnOk result (length hubs.new.items ≤ MOST_HUBS) }
    ensures named { OnOk result (NameHubs (length hubs.new.items) feeds.new.items) }
    ensures beside { OnOk result (length joins.new.items ≡ length feeds.new.items) }
    ensures sent { OnOk result (length regions.new.feed_senders.items ≡ length feeds.new.items) }
    ensures roots { regions.new.roots.items ≡ regions.old.roots.items }
    ensures stands { OnOk result ((m : Meaning T) (subscriptions : List (SubscriptionOf N T)) (h : History T) →
        IsBuilt N.Machine m hubs.old.items expr.now tree →
        StandsFor N.Machine m (rows_of hubs.old.items feeds.old.items subscriptions) h →
        StandsFor N.Machine m (rows_of hubs.new.items feeds.new.items subscriptions) (with_fed_hub kind expr.now h)) }
    ensures effect { OnOk result ((m : Meaning T) → IsBuilt N.Machine m hubs.old.items expr.now tree →
        IsPlaced N.crosses expr.now (differ 0 (region_of expr.now)) tree →
        IsFedHubMade N.Machine kind capacity expr.now hubs.old.items hubs.new.items feeds.old.items feeds.new.items) }
    ensures missed { OnOk result (map (λ v. v.items) joins.new.items ≡ map (λ v. v.items) joins.old.items ++ new_joins hubs.old.items expr.now ∷ []) }

    // The joins that are kept go on being those of the history.
    ensures joins { OnOk result ((m : Meaning T) (subscriptions : List (SubscriptionOf N T)) (sub_joins : List (List ℕ)) (h : History T) →
        StandsFor N.Machine m (rows_of hubs.old.items feeds.old.items subscriptions) h →
        JoinsStand feeds.old.items sub_joins (map (λ v. v.items) joins.old.items) h →
        JoinsStand feeds.new.items sub_joins (map (λ v. v.items) joins.new.items) (with_fed_hub kind expr.now h)) }

    // The regions of the expression stand behind those of the others, and they go on being those of the history.
    ensures placed { OnOk result (regions_of regions.new ≡ with_fed_regions expr.now (regions_of regions.old)) }
    ensures regions { OnOk result ((m : Meaning T) (subscriptions : List (SubscriptionOf N T)) (h : History T) →
        StandsFor N.Machine m (rows_of hubs.old.items feeds.old.items subscriptions) h →
        RegionsStand feeds.old.items (regions_of regions.old) h → RegionsStand feeds.new.items (regions_of regions.new) (with_fed_hub kind expr.now h)) }
    ensures id { IfOk result (λ id. id.0 ≡ length hubs.old.items) }
    ensures same { OnErr result ((hubs.new.items ≡ hubs.old.items) × (feeds.new.items ≡ feeds.old.items) × (joins.new.items ≡ joins.old.items) × (regions_of regions.new ≡ regions_of regions.old)) }
{
    let count = hubs.len();
    let made = prepare(
        alloc, hubs, feeds, joins, regions, kind, capacity, expr, tree,
    )?;
    hubs.push_reserved(made.hub);
    feeds.push_reserved(made.feed);
    joins.push_reserved(made.joins);
    regions.feed_senders.push_reserved(made.senders);
    // No leaf reads the new hub, which has no member so.
    count_in(expr, hubs);
    Ok(HubId(count as u32))
}

/// What is wrong with a hub and its expression, if anything is: its own numbers first.
fn fault_of<T>(kind: HubKind, capacity: u64, hubs: u32, expr: &Expr<T>) -> Option<BadExpr>
    ensures { result ≡ fault_of kind capacity hubs expr.now }
{
    if !are_numbers(kind, capacity) {
        return Some(BadExpr::Number);
    }
    match check_expr(expr, hubs) {
        Ok(()) => None,
        Err(why) => Some(why),
    }
}

/// Makes room for one hub and one feed more, for its joins and for its regions, and makes these.
fn prepare<N: Nodes<Item = T> + Drop, T: Drop>(
    alloc: Global,
    hubs: &mut Vec<Hub<T>>,
    feeds: &mut Vec<Feed<N>>,
    joins: &mut Vec<Vec<u64>>,
    regions: &mut Regions,
    kind: HubKind,
    capacity: u64,
    expr: &Expr<T>,
    tree: Node<N>,
) -> Result<FedHub<N, T>, NoMemory>
    requires fine { fault_of kind capacity (length hubs.old.items) expr.now ≡ None }
    requires few { length hubs.old.items < 2 ^ 32 }
    ensures hubs { hubs.new.items ≡ hubs.old.items }
    ensures feeds { feeds.new.items ≡ feeds.old.items }
    ensures joins { joins.new.items ≡ joins.old.items }
    ensures regions { regions_of regions.new ≡ regions_of regions.old }
    ensures roots { regions.new.roots.items ≡ regions.old.roots.items }
    ensures sent { regions.new.feed_senders.items ≡ regions.old.feed_senders.items }
    ensures room { OnOk result (vec_len hubs.new < vec_capacity hubs.new) }
    ensures room_for_feed { OnOk result (vec_len feeds.new < vec_capacity feeds.new) }
    ensures room_for_joins { OnOk result (vec_len joins.new < vec_capacity joins.new) }
    ensures room_for_senders { OnOk result (vec_len regions.new.feed_senders < vec_capacity regions.new.feed_senders) }
    ensures hub { IfOk result (λ p. p.hub ≡ fresh_hub kind capacity) }
    ensures named { IfOk result (λ p. p.feed.hub ≡ length hubs.old.items) }
    ensures tree { IfOk result (λ p. p.feed.part.tree ≡ tree) }
    ensures root { IfOk result (λ p. edge_view p.feed.part.root ≡ begun_edge) }
    ensures missed { IfOk result (λ p. p.joins.items ≡ new_joins hubs.old.items expr.now) }
    ensures senders { IfOk result (λ p. p.senders.items ≡ senders_into 0 expr.now) }
    ensures stands { IfOk result (λ p. (m : Meaning T) (at : List (HubState T)) (e : ExprOf T) (published : List (Stream T)) →
        length hubs.old.items ≡ length at → IsBuilt N.Machine m at e tree → AreTaken at published →
        FeedStands N.Machine m (published ++ ended_by Open ∷ []) p.feed e (new_joins at e)) }
{
    hubs.reserve(1)?;
    feeds.reserve(1)?;
    joins.reserve(1)?;
    regions.feed_senders.reserve(1)?;
    let missed = joins_of(alloc, expr, hubs)?;
    let senders = senders_of(alloc, expr, HUB_REGION)?;
    let hub = match Hub::new(alloc, kind, capacity) {
        Ok(hub) => hub,
        Err(_) => return Err(NoMemory),
    };
    let feed = Feed::new(tree, hubs.len() as u32);
    Ok(FedHub {
        hub,
        feed,
        joins: missed,
        senders,
    })
}
