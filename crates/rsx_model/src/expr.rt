//! Expressions.

ghost use Rattle.std.specs.Prelude.{◌≡◌};
ghost use Rattle.rsx_model.specs.Shape.{children, listed_below};
ghost use Rattle.rsx_model.specs.declared.expr.Expr.TheViews.{out-Expr};

use rsx_types::{HubId, Stage};

/// An expression: a tree of operators.
///
/// A bad one can be of any depth, and is refused (`check_expr`, `scratch`) without going deeper than the limit of 32
/// nodes. Dropping it takes some stack for each level, as do `nodes_of`, `leaves_of`, a comparison and `{:?}`: at a depth of
/// some 100,000 nodes that can end the program.
///
/// Two expressions are equal where they are the same tree of equal operators over equal items.
#[derive(Debug, PartialEq, Eq, Drop)]
pub enum Expr<T> {
    /// These items, and then the completion: at most 1,024.
    Items(Vec<T>),
    /// So many numbers, from the first on, and then the completion: at most 1,000,000, the last at most 2^63-1.
    Range(i64, u64),
    /// What this hub publishes, from the leaf's join on: a hub of the graph that the expression is subscribed to, made before
    /// it. `scratch` reads the hubs' values that it is handed.
    Hub(HubId),
    /// One plain operator over what is below it.
    Plain(Stage<T>, Box<Expr<T>>),
    /// The inputs one behind the other: each begins once those before it have completed. Like each of the kinds that follow,
    /// it has 1 to 16 inputs.
    Concat(Vec<Expr<T>>),
    /// The items of all inputs, in an order that is chosen while they come and recorded. The number is the prefetch, how many
    /// items of each input are asked for in advance: 1 to 1,024.
    Merge(u64, Vec<Expr<T>>),
    /// As `Merge`, but a failure ends its input alone (`mergeDelayError`): the first one taken goes out once all inputs have ended.
    MergeDelay(u64, Vec<Expr<T>>),
    /// Rows of one item of each input, as long as all have one. The number is the prefetch, as for `Merge`.
    Zip(u64, Vec<Expr<T>>),
    /// A row of the latest items of the inputs at each item, once every input has had one; the order of the items is chosen and
    /// recorded (`combineLatest`). The number is the prefetch, as for `Merge`.
    Latest(u64, Vec<Expr<T>>),
    /// What is below it by key (`groupBy`): the function of that number says each item's key, the items of a key go through a chain
    /// of 0 to 8 plain operators, and each that comes out is tagged with its key. The order among the keys, of which there are at most
    /// 1,024, is chosen and recorded.
    Group(u16, Vec<Stage<T>>, Box<Expr<T>>),
    /// What is below it in windows of so many items, each through a chain of plain operators of its own, one window behind the other:
    /// 1 to 1,024 items, and 0 to 8 operators. A full window is done, and a shorter last one has the input's ending; none is empty.
    Window(u64, Vec<Stage<T>>, Box<Expr<T>>),
    /// Each item below it expanded to a list by the function of the first number (`flatMap`), each list through a chain of 0 to 8
    /// plain operators; the order among the lists is chosen and recorded. The second number is the concurrency, how many of the lists
    /// are there at a time: 1 to 64.
    Flat(u16, u64, Vec<Stage<T>>, Box<Expr<T>>),
    /// As `Flat`, but a failure ends its list alone (`flatMapDelayError`): the first one taken goes out once all lists and the input
    /// have ended.
    FlatDelay(u16, u64, Vec<Stage<T>>, Box<Expr<T>>),
    /// What is below it, unchanged, from a queue (`publishOn`). The first number is that of the worker that is to serve what
    /// stands over it, 0 to 15; it changes no value. The second is the prefetch, the room of the queue, as for `Merge`.
    On(u8, u64, Box<Expr<T>>),
    /// As `On`, but the failure may overtake items that wait before it, which are then dropped (`publishOnEager`): what is taken next is
    /// chosen and recorded.
    OnEager(u8, u64, Box<Expr<T>>),
}

/// What a node stands over.
#[derive(Clone, Copy)]
pub enum Below<'e, T> {
    /// The one expression that an operator stands over.
    One(&'e Expr<T>),
    /// The inputs of a node of several inputs, in their order; none where the node is a leaf.
    Inputs(&'e [Expr<T>]),
}

/// What the root of an expression stands over: all its children, left to right.
pub fn below_of<T>(expr: &Expr<T>) -> Below<'_, T>
    ensures { listed_below result ≡ children (out-Expr T expr.now) }
{
    match expr {
        Expr::Items(_) => Below::Inputs(&[]),
        Expr::Range(_, _) => Below::Inputs(&[]),
        Expr::Hub(_) => Below::Inputs(&[]),
        Expr::Plain(_, below) => Below::One(below),
        Expr::Concat(inputs) => Below::Inputs(inputs),
        Expr::Merge(_, inputs) => Below::Inputs(inputs),
        Expr::MergeDelay(_, inputs) => Below::Inputs(inputs),
        Expr::Zip(_, inputs) => Below::Inputs(inputs),
        Expr::Latest(_, inputs) => Below::Inputs(inputs),
        Expr::Group(_, _, below) => Below::One(below),
        Expr::Window(_, _, below) => Below::One(below),
        Expr::Flat(_, _, _, below) => Below::One(below),
        Expr::FlatDelay(_, _, _, below) => Below::One(below),
        Expr::On(_, _, below) => Below::One(below),
        Expr::OnEager(_, _, below) => Below::One(below),
    }
}
