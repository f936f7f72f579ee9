//! Reads an expression.

ghost use Rattle.std.specs.Prelude.{◌≡◌, ◌<◌, ◌≤◌, ℕ, IfOk, IfSome, OnOk, map};
ghost use Rattle.rsx_script.specs.Reading.{Gives, GivesInMemory, left, bytes_left};
ghost use Rattle.rsx_script.specs.Orders.{tree_of, trees_of};
ghost use Rattle.rsx_script.specs.Expressions.{function_at, stage_at, opened_stage_at, chain_stage_at, stages_at, chain_at, item_at, items_at, range_at, hub_at, inputs_at, node_over, group_at, window_at, flat_at, flat_delay_at, on_at, on_eager_at, one_input_at, over_one_at, operator_at, expression_at};

use crate::parse::hub;
use crate::{LineRefusal, Word, Words, number_i64};
use rsx_demo::{Role, Val, function_number};
use rsx_model::Expr;
use rsx_types::Stage;
use std::alloc::Global;

/// An expression in its parentheses. Each one inside begins with a further parenthesis, so a line's length bounds how
/// deep this goes.
#[cycle(expression)]
#[tactic(auto, unfolding(crate::specs::Expressions::expression_at))]
pub(crate) fn expression(alloc: Global, words: &mut Words<'_>) -> Result<Expr<Val>, LineRefusal>
    ensures word { (n : ℕ) → bytes_left words.old < n → GivesInMemory (λ e. (tree_of e, left words.new)) result (expression_at n (left words.old)) }
    ensures less { OnOk result (bytes_left words.new < bytes_left words.old) }
    ensures most { bytes_left words.new ≤ bytes_left words.old }
{
    words.open()?;
    let (column, name) = words.name()?;
    operator(alloc, column, name, words)
}

/// What stands behind the name of an operator, which stands at this column, up to the parenthesis that closes it.
#[cycle(expression)]
#[tactic(auto, unfolding(crate::specs::Expressions::operator_at))]
fn operator(
    alloc: Global,
    column: u64,
    name: &str,
    words: &mut Words<'_>,
) -> Result<Expr<Val>, LineRefusal>
    ensures word { (n : ℕ) → bytes_left words.old < n → GivesInMemory (λ e. (tree_of e, left words.new)) result (operator_at (expression_at n) n column name.now (left words.old)) }
    ensures most { bytes_left words.new ≤ bytes_left words.old }
{
    match name {
        "items" => Ok(Expr::Items(items(alloc, words)?)),
        "range" => range(words),
        "hub" => reading(words),
        "concat" => Ok(Expr::Concat(inputs(alloc, words)?)),
        "merge" => {
            let prefetch = words.u64()?;
            Ok(Expr::Merge(prefetch, inputs(alloc, words)?))
        }
        "zip" => {
            let prefetch = words.u64()?;
            Ok(Expr::Zip(prefetch, inputs(alloc, words)?))
        }
        "combineLatest" => {
            let prefetch = words.u64()?;
            Ok(Expr::Latest(prefetch, inputs(alloc, words)?))
        }
        "mergeDelayError" => {
            let prefetch = words.u64()?;
            Ok(Expr::MergeDelay(prefetch, inputs(alloc, words)?))
        }
        _ => over_one(alloc, column, name, words),
    }
}

/// One expression or more, up to the parenthesis that closes the list. An expression takes at least a byte of the line.
#[cycle(expression)]
fn inputs(alloc: Global, words: &mut Words<'_>) -> Result<Vec<Expr<Val>>, LineRefusal>
    ensures word { (n : ℕ) → bytes_left words.old < n → GivesInMemory (λ es. (trees_of (map tree_of es.items), left words.new)) result (inputs_at (expression_at n) n (left words.old)) }
    ensures most { bytes_left words.new ≤ bytes_left words.old }
{
    let mut inputs = Vec::new(alloc);
    loop {
        let input = expression(alloc, words)?;
        inputs.push(input)?;
        if !words.is_open() {
            words.close()?;
            return Ok(inputs);
        }
    }
}

/// The operator with this name, which stands at this column, over the expression that follows.
#[cycle(expression)]
#[tactic(auto, unfolding(crate::specs::Expressions::over_one_at))]
fn over_one(
    alloc: Global,
    column: u64,
    name: &str,
    words: &mut Words<'_>,
) -> Result<Expr<Val>, LineRefusal>
    ensures word { (n : ℕ) → bytes_left words.old < n → GivesInMemory (λ e. (tree_of e, left words.new)) result (over_one_at (expression_at n) n column name.now (left words.old)) }
    ensures most { bytes_left words.new ≤ bytes_left words.old }
{
    let operator = one_input(alloc, column, name, words)?;
    let input = expression(alloc, words)?;
    words.close()?;
    Ok(operator.over(Box::new(alloc, input)?))
}

/// An operator with one input, without that.
#[derive(Drop)]
pub(crate) enum OneInput {
    /// A plain operator.
    Plain(Stage<Val>),
    /// `groupBy`: the number of the key function, and the chain.
    GroupBy(u16, Vec<Stage<Val>>),
    /// `window`: the size, and the chain.
    Window(u64, Vec<Stage<Val>>),
    /// `flatMap`: the number of the function that expands, the concurrency, and the chain.
    FlatMap(u16, u64, Vec<Stage<Val>>),
    /// `flatMapDelayError`: the same.
    FlatMapDelay(u16, u64, Vec<Stage<Val>>),
    /// `publishOn`: the worker, and the prefetch.
    PublishOn(u8, u64),
    /// `publishOnEager`: the same.
    PublishOnEager(u8, u64),
}

impl OneInput {
    /// The operator over this input.
    fn over(self, input: Box<Expr<Val>>) -> Expr<Val>
        ensures { tree_of result ≡ node_over self (tree_of input.value) }
    {
        match self {
            OneInput::Plain(stage) => Expr::Plain(stage, input),
            OneInput::GroupBy(key, stages) => Expr::Group(key, stages, input),
            OneInput::Window(size, stages) => Expr::Window(size, stages, input),
            OneInput::FlatMap(expand, concurrency, stages) => {
                Expr::Flat(expand, concurrency, stages, input)
            }
            OneInput::FlatMapDelay(expand, concurrency, stages) => {
                Expr::FlatDelay(expand, concurrency, stages, input)
            }
            OneInput::PublishOn(worker, prefetch) => Expr::On(worker, prefetch, input),
            OneInput::PublishOnEager(worker, prefetch) => Expr::OnEager(worker, prefetch, input),
        }
    }
}

/// The operator with one input of this name, which stands at this column, up to where its input begins.
#[tactic(auto, unfolding(crate::specs::Expressions::one_input_at))]
fn one_input(
    alloc: Global,
    column: u64,
    name: &str,
    words: &mut Words<'_>,
) -> Result<OneInput, LineRefusal>
    ensures word { (n : ℕ) → bytes_left words.old < n → GivesInMemory (λ o. (node_over o, left words.new)) result (one_input_at n column name.now (left words.old)) }
    ensures most { bytes_left words.new ≤ bytes_left words.old }
{
    match name {
        "groupBy" => group_by(alloc, words),
        "window" => window(alloc, words),
        "flatMap" => flat_map(alloc, words),
        "publishOn" => publish_on(words),
        "flatMapDelayError" => flat_map_delay(alloc, words),
        "publishOnEager" => publish_on_eager(words),
        _ => Ok(OneInput::Plain(stage(column, name, words)?)),
    }
}

/// The key function and the chain of a `groupBy`.
#[tactic(auto, unfolding(crate::specs::Expressions::group_at))]
fn group_by(alloc: Global, words: &mut Words<'_>) -> Result<OneInput, LineRefusal>
    ensures word { (n : ℕ) → bytes_left words.old < n → GivesInMemory (λ o. (node_over o, left words.new)) result (group_at n (left words.old)) }
    ensures most { bytes_left words.new ≤ bytes_left words.old }
{
    let key = function(words, Role::Key)?;
    let stages = chain(alloc, words)?;
    Ok(OneInput::GroupBy(key, stages))
}

/// The size and the chain of a `window`.
#[tactic(auto, unfolding(crate::specs::Expressions::window_at))]
fn window(alloc: Global, words: &mut Words<'_>) -> Result<OneInput, LineRefusal>
    ensures word { (n : ℕ) → bytes_left words.old < n → GivesInMemory (λ o. (node_over o, left words.new)) result (window_at n (left words.old)) }
    ensures most { bytes_left words.new ≤ bytes_left words.old }
{
    let size = words.u64()?;
    let stages = chain(alloc, words)?;
    Ok(OneInput::Window(size, stages))
}

/// The function, the concurrency and the chain of a `flatMap`.
#[tactic(auto, unfolding(crate::specs::Expressions::flat_at))]
fn flat_map(alloc: Global, words: &mut Words<'_>) -> Result<OneInput, LineRefusal>
    ensures word { (n : ℕ) → bytes_left words.old < n → GivesInMemory (λ o. (node_over o, left words.new)) result (flat_at n (left words.old)) }
    ensures most { bytes_left words.new ≤ bytes_left words.old }
{
    let expand = function(words, Role::Expand)?;
    let concurrency = words.u64()?;
    let stages = chain(alloc, words)?;
    Ok(OneInput::FlatMap(expand, concurrency, stages))
}

/// The function, the concurrency and the chain of a `flatMapDelayError`.
#[tactic(auto, unfolding(crate::specs::Expressions::flat_delay_at))]
fn flat_map_delay(alloc: Global, words: &mut Words<'_>) -> Result<OneInput, LineRefusal>
    ensures word { (n : ℕ) → bytes_left words.old < n → GivesInMemory (λ o. (node_over o, left words.new)) result (flat_delay_at n (left words.old)) }
    ensures most { bytes_left words.new ≤ bytes_left words.old }
{
    let expand = function(words, Role::Expand)?;
    let concurrency = words.u64()?;
    let stages = chain(alloc, words)?;
    Ok(OneInput::FlatMapDelay(expand, concurrency, stages))
}

/// The worker and the prefetch of a `publishOn`.
#[tactic(auto, unfolding(crate::specs::Expressions::on_at))]
fn publish_on(words: &mut Words<'_>) -> Result<OneInput, LineRefusal>
    ensures word { Gives (λ o. (node_over o, left words.new)) result (on_at (left words.old)) }
    ensures most { bytes_left words.new ≤ bytes_left words.old }
{
    let worker = words.u8()?;
    let prefetch = words.u64()?;
    Ok(OneInput::PublishOn(worker, prefetch))
}

/// The worker and the prefetch of a `publishOnEager`.
#[tactic(auto, unfolding(crate::specs::Expressions::on_eager_at))]
fn publish_on_eager(words: &mut Words<'_>) -> Result<OneInput, LineRefusal>
    ensures word { Gives (λ o. (node_over o, left words.new)) result (on_eager_at (left words.old)) }
    ensures most { bytes_left words.new ≤ bytes_left words.old }
{
    let worker = words.u8()?;
    let prefetch = words.u64()?;
    Ok(OneInput::PublishOnEager(worker, prefetch))
}

/// The plain operator with this name, which stands at this column, with its functions and numbers.
#[tactic(auto, unfolding(crate::specs::Expressions::stage_at))]
fn stage(column: u64, name: &str, words: &mut Words<'_>) -> Result<Stage<Val>, LineRefusal>
    ensures word { Gives (λ x. (x, left words.new)) result (stage_at column name.now (left words.old)) }
    ensures most { bytes_left words.new ≤ bytes_left words.old }
{
    match name {
        "map" => Ok(Stage::Map(function(words, Role::Map)?)),
        "filter" => Ok(Stage::Filter(function(words, Role::Test)?)),
        "take" => Ok(Stage::Take(words.u64()?)),
        "scan" => {
            let fold = function(words, Role::Fold)?;
            Ok(Stage::Scan(fold, Val::Int(words.i64()?)))
        }
        "buffer" => Ok(Stage::Buffer(words.u64()?)),
        "distinct" => Ok(Stage::Distinct(function(words, Role::Key)?)),
        _ => Err(LineRefusal::UnknownName(column)),
    }
}

/// The operators of a chain, in parentheses.
#[tactic(auto, unfolding(crate::specs::Expressions::chain_at))]
fn chain(alloc: Global, words: &mut Words<'_>) -> Result<Vec<Stage<Val>>, LineRefusal>
    ensures word { (n : ℕ) → bytes_left words.old < n → GivesInMemory (λ gs. (gs.items, left words.new)) result (chain_at n (left words.old)) }
    ensures most { bytes_left words.new ≤ bytes_left words.old }
{
    words.open()?;
    stages(alloc, words)
}

/// The operators up to the parenthesis that closes the chain. One takes at least a byte of the line.
fn stages(alloc: Global, words: &mut Words<'_>) -> Result<Vec<Stage<Val>>, LineRefusal>
    ensures word { (n : ℕ) → bytes_left words.old < n → GivesInMemory (λ gs. (gs.items, left words.new)) result (stages_at n (left words.old)) }
    ensures most { bytes_left words.new ≤ bytes_left words.old }
{
    let mut stages = Vec::new(alloc);
    loop {
        match chain_stage(words)? {
            None => return Ok(stages),
            Some(stage) => {
                stages.push(stage)?;
            }
        }
    }
}

/// The next operator of a chain, or none at the parenthesis that closes it.
#[tactic(auto, unfolding(crate::specs::Expressions::chain_stage_at))]
fn chain_stage(words: &mut Words<'_>) -> Result<Option<Stage<Val>>, LineRefusal>
    ensures word { Gives (λ g. (g, left words.new)) result (chain_stage_at (left words.old)) }
    ensures less { IfOk result (λ o. IfSome o (λ _. bytes_left words.new < bytes_left words.old)) }
    ensures most { bytes_left words.new ≤ bytes_left words.old }
{
    match words.next()? {
        (_, Word::Close) => Ok(None),
        (_, Word::Open) => Ok(Some(opened_stage(words)?)),
        (column, Word::Text(_)) => Err(LineRefusal::Syntax(column)),
        (column, Word::End) => Err(LineRefusal::Syntax(column)),
    }
}

/// An operator of a chain behind its opening parenthesis, and the one that closes it.
#[tactic(auto, unfolding(crate::specs::Expressions::opened_stage_at))]
fn opened_stage(words: &mut Words<'_>) -> Result<Stage<Val>, LineRefusal>
    ensures word { Gives (λ g. (g, left words.new)) result (opened_stage_at (left words.old)) }
    ensures most { bytes_left words.new ≤ bytes_left words.old }
{
    let (column, name) = words.name()?;
    let stage = stage(column, name, words)?;
    words.close()?;
    Ok(stage)
}

/// The first number and the count of a range.
#[tactic(auto, unfolding(crate::specs::Expressions::range_at))]
fn range(words: &mut Words<'_>) -> Result<Expr<Val>, LineRefusal>
    ensures word { Gives (λ e. (tree_of e, left words.new)) result (range_at (left words.old)) }
    ensures most { bytes_left words.new ≤ bytes_left words.old }
{
    let first = words.i64()?;
    let count = words.u64()?;
    words.close()?;
    Ok(Expr::Range(first, count))
}

/// The hub that a leaf reads.
#[tactic(auto, unfolding(crate::specs::Expressions::hub_at))]
fn reading(words: &mut Words<'_>) -> Result<Expr<Val>, LineRefusal>
    ensures word { Gives (λ e. (tree_of e, left words.new)) result (hub_at (left words.old)) }
    ensures most { bytes_left words.new ≤ bytes_left words.old }
{
    let hub = hub(words)?;
    words.close()?;
    Ok(Expr::Hub(hub))
}

/// The numbers up to the parenthesis that closes the list.
fn items(alloc: Global, words: &mut Words<'_>) -> Result<Vec<Val>, LineRefusal>
    ensures word { GivesInMemory (λ v. (v.items, left words.new)) result (items_at (left words.old)) }
    ensures most { bytes_left words.new ≤ bytes_left words.old }
{
    let mut items = Vec::new(alloc);
    loop {
        match item(words)? {
            None => return Ok(items),
            Some(number) => {
                items.push(Val::Int(number))?;
            }
        }
    }
}

/// The next number of a list, or none at the parenthesis that closes it.
#[tactic(auto, unfolding(crate::specs::Expressions::item_at))]
fn item(words: &mut Words<'_>) -> Result<Option<i64>, LineRefusal>
    ensures word { Gives (λ n. (n, left words.new)) result (item_at (left words.old)) }
    ensures less { IfOk result (λ o. IfSome o (λ _. bytes_left words.new < bytes_left words.old)) }
    ensures most { bytes_left words.new ≤ bytes_left words.old }
{
    match words.next()? {
        (_, Word::Close) => Ok(None),
        (column, Word::Text(word)) => match number_i64(word) {
            Some(number) => Ok(Some(number)),
            None => Err(LineRefusal::Syntax(column)),
        },
        (column, Word::Open) => Err(LineRefusal::Syntax(column)),
        (column, Word::End) => Err(LineRefusal::Syntax(column)),
    }
}

/// The number of the function that is named next.
#[tactic(auto, unfolding(crate::specs::Expressions::function_at))]
fn function(words: &mut Words<'_>, role: Role) -> Result<u16, LineRefusal>
    ensures word { Gives (λ f. (f, left words.new)) result (function_at role (left words.old)) }
    ensures most { bytes_left words.new ≤ bytes_left words.old }
{
    let (column, name) = words.name()?;
    function_number(role, name).ok_or(LineRefusal::UnknownName(column))
}
