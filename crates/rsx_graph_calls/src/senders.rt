//! Which regions the edges of an expression's tree come from that cross, each of which joins two regions.

ghost use Rattle.std.specs.Prelude.{◌≡◌, ◌++◌, Bool, IfOk, OnOk, ℕ};
ghost use Rattle.rsx_graph_calls.specs.Senders.{HaveOneEach, all_senders, sender_over, senders_into};
ghost use Rattle.rsx_model.specs.declared.expr.Expr.{Expr as ExprOf};
ghost use Rattle.rsx_tree.specs.declared.node.Node.{Node as NodeOf};

use rsx_model::{Below, Expr, below_of, region_of};
use rsx_types::NoMemory;
use std::alloc::Global;

/// The regions of the senders of an expression's edges that cross, in pre-order: of the edge from its root, whose receiver is in the
/// region `receiver`, and of those below the root. An edge crosses where its two ends are in different regions. A `publishOn` is in
/// the region of its worker, each other node in that of its first input, and a leaf in region 0.
///
/// # Errors
/// [`NoMemory`] where a growth was refused.
pub fn senders_of<T>(alloc: Global, expr: &Expr<T>, receiver: u8) -> Result<Vec<u8>, NoMemory>
    ensures { IfOk result (λ v. v.items ≡ senders_into receiver expr.now) }
{
    let mut senders = Vec::new(alloc);
    add_senders(expr, receiver, &mut senders)?;
    Ok(senders)
}

/// Puts them behind these.
#[cycle(senders)]
fn add_senders<T>(expr: &Expr<T>, receiver: u8, senders: &mut Vec<u8>) -> Result<(), NoMemory>
    ensures { OnOk result (senders.new.items ≡ senders.old.items ++ senders_into receiver expr.now) }
{
    let region = region_of(expr);
    add_sender(region, receiver, senders)?;
    match below_of(expr) {
        Below::One(input) => add_senders(input, region, senders),
        Below::Inputs(inputs) => add_all_senders(inputs, region, senders),
    }
}

/// The same of several expressions, one behind the other, whose roots' edges have this receiver.
#[cycle(senders)]
fn add_all_senders<T>(
    inputs: &[Expr<T>],
    receiver: u8,
    senders: &mut Vec<u8>,
) -> Result<(), NoMemory>
    ensures { OnOk result (senders.new.items ≡ senders.old.items ++ all_senders receiver inputs.now) }
{
    for input in inputs {
        add_senders(input, receiver, senders)?;
    }
    Ok(())
}

/// Puts the region of an edge's sender behind these where the edge crosses into the region of its receiver.
fn add_sender(sender: u8, receiver: u8, senders: &mut Vec<u8>) -> Result<(), NoMemory>
    ensures { OnOk result (senders.new.items ≡ senders.old.items ++ sender_over receiver sender) }
{
    if sender != receiver {
        senders.push(sender)?;
    }
    Ok(())
}

/// A tree that was made for an expression has as many edges with a queue as [`senders_of`] names senders, where its root's own edge has
/// one just where its receiver is in another region.
///
/// The function does nothing; its contract is the sentence.
pub fn one_sender_for_each<T, N>()
    ensures { (crosses : N → Bool) (receiver : ℕ) (e : ExprOf T) (t : NodeOf N) → HaveOneEach crosses receiver e t }
{}
