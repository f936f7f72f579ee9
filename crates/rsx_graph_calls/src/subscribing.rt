//! New subscriptions.

ghost use Rattle.std.specs.Prelude.{◌≡◌, ◌≢◌, ℕ, ◌<◌, ◌≤◌, ◌++◌, ◌∷◌, List, [], true, false, length, map, None, OnOk, OnErr, IfOk, IfErr, vec_len, vec_capacity};
ghost use Rattle.rsx_model.specs.Check.{refusal};
ghost use Rattle.rsx_model.specs.declared.expr.Expr.{Expr as ExprOf};
ghost use Rattle.rsx_hub.specs.Hub.{HubState};
ghost use Rattle.rsx_pipe.specs.Built.{IsBuilt, new_joins};
ghost use Rattle.rsx_pipe.specs.Crossings.{IsPlaced};
ghost use Rattle.rsx_pipe.specs.Published.{AreTaken};
ghost use Rattle.rsx_subscriber.specs.Begun.{IsFresh};
ghost use Rattle.rsx_subscriber.specs.Past.{subscribed};
ghost use Rattle.rsx_subscriber.specs.Stands.{Stands};
ghost use Rattle.rsx_types.specs.Meaning.{Meaning};
ghost use Rattle.rsx_types.specs.Stream.{Stream};
ghost use Rattle.rsx_graph_state.specs.declared.feed.Feed.{Feed as FeedOf};
ghost use Rattle.rsx_graph_state.specs.Begun.{HaveJoined, IsSubscribed, have_places};
ghost use Rattle.rsx_graph_state.specs.Answers.{IsSubscribeId};
ghost use Rattle.rsx_graph_state.specs.declared.TheConstants.{MOST_HUBS, MOST_SUBSCRIPTIONS};
ghost use Rattle.rsx_graph_state.specs.History.{History};
ghost use Rattle.rsx_graph_state.specs.Moves.{rows_of};
ghost use Rattle.rsx_graph_state.specs.Stands.{StandsFor};
ghost use Rattle.rsx_graph_state.specs.Joins.{JoinsStand};
ghost use Rattle.rsx_graph_calls.specs.Regions.{RegionsStand, regions_of, with_regions};
ghost use Rattle.rsx_graph_calls.specs.Senders.{senders_below};
ghost use Rattle.rsx_graph_calls.specs.Subscribing.{IsSubscribeRefusal, with_subscriber};

use crate::regions::Regions;
use crate::senders::senders_of;
use rsx_graph_state::{MOST_SUBSCRIPTIONS, Refusal};
use rsx_hub::Hub;
use rsx_model::{Expr, check_expr, region_of};
use rsx_pipe::Nodes;
use rsx_rooted::{count_in, have_places, joins_of};
use rsx_subscriber::Subscription;
use rsx_tree::Node;
use rsx_types::{NoMemory, SubId};
use std::alloc::Global;

/// A subscription that doesn't stand in the rows yet, with the joins of its leaves, and the senders of its edges that cross.
#[derive(Drop)]
struct Prepared<N, T> {
    subscription: Subscription<N, T>,
    joins: Vec<u64>,
    senders: Vec<u8>,
}

/// Whether there may be one subscription more, to this expression, over these hubs and beside so many subscriptions.
///
/// # Errors
/// G6 exactly where the expression goes past a limit or names a hub that isn't there, else G5 exactly where there are
/// [`MOST_SUBSCRIPTIONS`] or a hub has no place for the leaves.
pub fn admit<T: Drop>(expr: &Expr<T>, hubs: &Vec<Hub<T>>, count: usize) -> Result<(), Refusal>
    requires few { length hubs.now.items ≤ MOST_HUBS }
    ensures fine { OnOk result (refusal (length hubs.now.items) expr.now ≡ None) }
    ensures fewer { OnOk result (count < MOST_SUBSCRIPTIONS) }
    ensures places { OnOk result (have_places 0 expr.now hubs.now.items ≡ true) }
    ensures err { IfErr result (λ r. IsSubscribeRefusal expr.now hubs.now.items count r) }
    ensures memory { IfErr result (λ r. r ≢ Refusal.NoMemory) }
{
    if let Err(why) = check_expr(expr, hubs.len() as u32) {
        return Err(Refusal::BadExpr(why));
    }
    if count >= MOST_SUBSCRIPTIONS || !have_places(expr, hubs) {
        return Err(Refusal::TooMany);
    }
    Ok(())
}

/// Subscribes to an expression over the hubs that are there, for which this tree was made. The subscription stands behind the
/// others, so its number is how many there were, and its joins and its regions behind theirs. It is open, and nothing was asked of
/// it yet. Each of its leaves that reads a hub has joined that hub, where it is counted as a member: it misses the items that the
/// hub took in before, but for those that a replay keeps. Feeds have nothing to do with it, and stay.
///
/// # Errors
/// [`NoMemory`] where a growth was refused. Nothing changed, and nobody has joined.
pub fn subscribe<N: Nodes<Item = T> + Drop, T: Drop>(
    alloc: Global,
    hubs: &mut Vec<Hub<T>>,
    subscriptions: &mut Vec<Subscription<N, T>>,
    joins: &mut Vec<Vec<u64>>,
    regions: &mut Regions,
    expr: &Expr<T>,
    tree: Node<N>,
) -> Result<SubId, NoMemory>
    requires few { length hubs.old.items ≤ MOST_HUBS }
    requires fine { refusal (length hubs.old.items) expr.now ≡ None }
    requires fewer { length subscriptions.old.items < MOST_SUBSCRIPTIONS }
    requires places { have_places 0 expr.now hubs.old.items ≡ true }
    ensures hubs { length hubs.new.items ≡ length hubs.old.items }
    ensures stands { OnOk result ((m : Meaning T) (feeds : List (FeedOf N)) (h : History T) →
        IsBuilt N.Machine m hubs.old.items expr.now tree →
        StandsFor N.Machine m (rows_of hubs.old.items feeds subscriptions.old.items) h →
        StandsFor N.Machine m (rows_of hubs.new.items feeds subscriptions.new.items) (with_subscriber expr.now h)) }
    ensures effect { OnOk result ((m : Meaning T) → IsBuilt N.Machine m hubs.old.items expr.now tree →
        IsPlaced N.crosses expr.now false tree → IsSubscribed N.Machine expr.now subscriptions.old.items subscriptions.new.items) }
    ensures joined { OnOk result (HaveJoined expr.now hubs.old.items hubs.new.items) }
    ensures missed { OnOk result (map (λ v. v.items) joins.new.items ≡ map (λ v. v.items) joins.old.items ++ new_joins hubs.old.items expr.now ∷ []) }

    // The joins that are kept go on being those of the history.
    ensures joins { OnOk result ((m : Meaning T) (feeds : List (FeedOf N)) (feed_joins : List (List ℕ)) (h : History T) →
        StandsFor N.Machine m (rows_of hubs.old.items feeds subscriptions.old.items) h →
        JoinsStand feeds (map (λ v. v.items) joins.old.items) feed_joins h →
        JoinsStand feeds (map (λ v. v.items) joins.new.items) feed_joins (with_subscriber expr.now h)) }

    // The regions of the expression stand behind those of the others, and they go on being those of the history.
    ensures placed { OnOk result (regions_of regions.new ≡ with_regions expr.now (regions_of regions.old)) }
    ensures regions { OnOk result ((feeds : List (FeedOf N)) (h : History T) →
        RegionsStand feeds (regions_of regions.old) h → RegionsStand feeds (regions_of regions.new) (with_subscriber expr.now h)) }

    // As many joins and regions are kept as there are subscriptions, where it was so.
    ensures few { length subscriptions.new.items ≤ MOST_SUBSCRIPTIONS }
    ensures beside { length joins.old.items ≡ length subscriptions.old.items → length joins.new.items ≡ length subscriptions.new.items }
    ensures feed_senders { regions.new.feed_senders.items ≡ regions.old.feed_senders.items }
    ensures rooted { length regions.old.roots.items ≡ length subscriptions.old.items → length regions.new.roots.items ≡ length subscriptions.new.items }
    ensures id { IfOk result (λ id. IsSubscribeId (length hubs.old.items) (length subscriptions.old.items) expr.now id) }
    ensures same { OnErr result ((hubs.new.items ≡ hubs.old.items) × (subscriptions.new.items ≡ subscriptions.old.items) × (joins.new.items ≡ joins.old.items) × (regions_of regions.new ≡ regions_of regions.old)) }
{
    let count = subscriptions.len();
    let made = prepare(alloc, hubs, subscriptions, joins, regions, expr, tree)?;
    subscriptions.push_reserved(made.subscription);
    joins.push_reserved(made.joins);
    regions.roots.push_reserved(region_of(expr));
    regions.senders.push_reserved(made.senders);
    count_in(expr, hubs);
    Ok(SubId(count as u32))
}

/// Makes room for one subscription more, for its joins and for its regions, and makes it, with its joins and its senders.
fn prepare<N: Nodes<Item = T> + Drop, T: Drop>(
    alloc: Global,
    hubs: &Vec<Hub<T>>,
    subscriptions: &mut Vec<Subscription<N, T>>,
    joins: &mut Vec<Vec<u64>>,
    regions: &mut Regions,
    expr: &Expr<T>,
    tree: Node<N>,
) -> Result<Prepared<N, T>, NoMemory>
    ensures subscriptions { subscriptions.new.items ≡ subscriptions.old.items }
    ensures joins { joins.new.items ≡ joins.old.items }
    ensures regions { regions_of regions.new ≡ regions_of regions.old }
    ensures roots { regions.new.roots.items ≡ regions.old.roots.items }
    ensures all_senders { regions.new.senders.items ≡ regions.old.senders.items }
    ensures feed_senders { regions.new.feed_senders.items ≡ regions.old.feed_senders.items }
    ensures room { OnOk result (vec_len subscriptions.new < vec_capacity subscriptions.new) }
    ensures room_for_joins { OnOk result (vec_len joins.new < vec_capacity joins.new) }
    ensures room_for_roots { OnOk result (vec_len regions.new.roots < vec_capacity regions.new.roots) }
    ensures room_for_senders { OnOk result (vec_len regions.new.senders < vec_capacity regions.new.senders) }
    ensures stands { IfOk result (λ p. (m : Meaning T) (hubs : List (HubState T)) (e : ExprOf T) (published : List (Stream T)) →
        refusal (length hubs) e ≡ None → IsBuilt N.Machine m hubs e tree → AreTaken hubs published →
        Stands N.Machine m published p.subscription (subscribed e (new_joins hubs e))) }
    ensures fresh { IfOk result (λ p. (m : Meaning T) (hubs : List (HubState T)) (e : ExprOf T) →
        IsBuilt N.Machine m hubs e tree → IsPlaced N.crosses e false tree → IsFresh N.Machine e p.subscription) }
    ensures missed { IfOk result (λ p. p.joins.items ≡ new_joins hubs.now.items expr.now) }
    ensures senders { IfOk result (λ p. p.senders.items ≡ senders_below expr.now) }
{
    subscriptions.reserve(1)?;
    joins.reserve(1)?;
    regions.roots.reserve(1)?;
    regions.senders.reserve(1)?;
    let missed = joins_of(alloc, expr, hubs)?;
    let senders = senders_of(alloc, expr, region_of(expr))?;
    let subscription = Subscription::new(alloc, tree)?;
    Ok(Prepared {
        subscription,
        joins: missed,
        senders,
    })
}
