//! Reads a line: its command, with numbers, names and expressions, or an expression alone.

ghost use Rattle.std.specs.Prelude.{◌≡◌, ◌<◌, ◌≤◌, ℕ, length, nat_lt, option_map};
ghost use Rattle.rsx_script.specs.Numbers.{u32_of};
ghost use Rattle.rsx_script.specs.Reading.{Gives, GivesInMemory, left, bytes_left, number_at};
ghost use Rattle.rsx_script.specs.Orders.{order_of, tree_of};
ghost use Rattle.rsx_script.specs.Commands.{input_of, input_at, pick_at, why_at, feed_at, hub_kind_at, hub_command_at, plain_command_at, command_at, line_at, meaning_of_line, expression_of_line};

use crate::command::Command;
use crate::expression::expression;
use crate::{LineRefusal, Word, Words, number_u32, number_u64};
use rsx_demo::Val;
use rsx_model::Expr;
use rsx_types::{HubId, HubKind, NodeId, SubId};
use rsx_values::MAIN;
use std::alloc::Global;

/// The most bytes of a line, without its newline.
pub const MOST_BYTES: usize = 4096;

/// Whether a line has more bytes than it may have.
pub(crate) fn is_too_long(line: &[u8]) -> bool
    ensures { result ≡ nat_lt 4096 (length line.now) }
{
    line.len() > MOST_BYTES
}

/// The command of a line, or none where the line is empty or spaces alone. Words are judged from left to right.
///
/// # Errors
///
/// `TooLong` before all others; else at the first wrong word `UnknownName` where a name is wanted and any other word
/// than a parenthesis stands, and `Syntax` elsewhere; `NoMemory` where a growth was refused.
#[tactic(auto, unfolding(crate::specs::Commands::meaning_of_line))]
pub fn parse_line(alloc: Global, line: &[u8]) -> Result<Option<Command>, LineRefusal>
    ensures meaning { GivesInMemory (λ command. option_map order_of command) result (meaning_of_line line.now) }
    ensures long { 4096 < length line.now → result ≡ Err LineRefusal.TooLong }
{
    if is_too_long(line) {
        return Err(LineRefusal::TooLong);
    }
    let mut words = Words::new(line);
    command_in(alloc, &mut words)
}

/// The expression of a line, which stands there alone, in its parentheses. Words are judged from left to right.
///
/// # Errors
///
/// As [`parse_line`]; a line that is empty or spaces alone is `Syntax` behind its last byte.
#[tactic(auto, unfolding(crate::specs::Commands::expression_of_line))]
pub fn parse_expr(alloc: Global, line: &[u8]) -> Result<Expr<Val>, LineRefusal>
    ensures meaning { GivesInMemory tree_of result (expression_of_line line.now) }
    ensures long { 4096 < length line.now → result ≡ Err LineRefusal.TooLong }
{
    if is_too_long(line) {
        return Err(LineRefusal::TooLong);
    }
    let mut words = Words::new(line);
    let expr = expression(alloc, &mut words)?;
    words.end()?;
    Ok(expr)
}

/// The command that these words ask for, if there are any.
#[tactic(auto, unfolding(crate::specs::Commands::line_at))]
fn command_in(alloc: Global, words: &mut Words<'_>) -> Result<Option<Command>, LineRefusal>
    ensures { (n : ℕ) → bytes_left words.old < n → GivesInMemory (λ command. option_map order_of command) result (line_at n (left words.old)) }
{
    match words.next()? {
        (_, Word::End) => Ok(None),
        (column, Word::Text(name)) => {
            let command = command_of(alloc, column, name, words)?;
            words.end()?;
            Ok(Some(command))
        }
        (column, Word::Open) => Err(LineRefusal::Syntax(column)),
        (column, Word::Close) => Err(LineRefusal::Syntax(column)),
    }
}

/// The command with this name, which stands at this column.
#[tactic(auto, unfolding(crate::specs::Commands::command_at))]
pub(crate) fn command_of(
    alloc: Global,
    column: u64,
    name: &str,
    words: &mut Words<'_>,
) -> Result<Command, LineRefusal>
    ensures { (n : ℕ) → bytes_left words.old < n → GivesInMemory (λ x. (order_of x, left words.new)) result (command_at n column name.now (left words.old)) }
{
    match name {
        "subscribe" => Ok(Command::Subscribe(expression(alloc, words)?)),
        "feed" => feed(alloc, words),
        _ => plain_command_of(column, name, words),
    }
}

/// A hub that is fed: its kind and capacity, and the expression.
#[tactic(auto, unfolding(crate::specs::Commands::feed_at))]
fn feed(alloc: Global, words: &mut Words<'_>) -> Result<Command, LineRefusal>
    ensures { (n : ℕ) → bytes_left words.old < n → GivesInMemory (λ x. (order_of x, left words.new)) result (feed_at n (left words.old)) }
{
    let kind = hub_kind(words)?;
    let capacity = words.u64()?;
    Ok(Command::Feed(kind, capacity, expression(alloc, words)?))
}

/// The command with this name, which stands at this column and is followed by numbers alone.
#[tactic(auto, unfolding(crate::specs::Commands::plain_command_at))]
fn plain_command_of(column: u64, name: &str, words: &mut Words<'_>) -> Result<Command, LineRefusal>
    ensures { Gives (λ x. (order_of x, left words.new)) result (plain_command_at column name.now (left words.old)) }
{
    match name {
        "request" => {
            let sub = subscription(words)?;
            Ok(Command::Request(sub, words.i64()?))
        }
        "cancel" => Ok(Command::Cancel(subscription(words)?)),
        "pump" => Ok(Command::Pump(words.u32()?)),
        "pick" => pick(words),
        "show" => Ok(Command::Show(subscription(words)?)),
        "asked" => Ok(Command::Asked(subscription(words)?)),
        "count" => Ok(Command::Count(subscription(words)?)),
        "joins" => Ok(Command::Joins(subscription(words)?)),
        "choices" => Ok(Command::Choices(subscription(words)?)),
        "check" => Ok(Command::Check(subscription(words)?)),
        "why" => why(words),
        "draw" => Ok(Command::Draw(subscription(words)?)),
        _ => hub_command_of(column, name, words),
    }
}

/// The command with this name, which makes a hub or publishes to one. The name stands at this column.
#[tactic(auto, unfolding(crate::specs::Commands::hub_command_at))]
fn hub_command_of(column: u64, name: &str, words: &mut Words<'_>) -> Result<Command, LineRefusal>
    ensures { Gives (λ x. (order_of x, left words.new)) result (hub_command_at column name.now (left words.old)) }
{
    match name {
        "hub" => {
            let kind = hub_kind(words)?;
            Ok(Command::Hub(kind, words.u64()?))
        }
        "emit" => {
            let hub = hub(words)?;
            Ok(Command::Emit(hub, words.i64()?))
        }
        "complete" => Ok(Command::Complete(hub(words)?)),
        "fail" => {
            let hub = hub(words)?;
            Ok(Command::Fail(hub, words.u32()?))
        }
        _ => Err(LineRefusal::UnknownName(column)),
    }
}

/// A pick: the subscription, the node and its input.
#[tactic(auto, unfolding(crate::specs::Commands::pick_at))]
fn pick(words: &mut Words<'_>) -> Result<Command, LineRefusal>
    ensures { Gives (λ x. (order_of x, left words.new)) result (pick_at (left words.old)) }
{
    let sub = subscription(words)?;
    let node = NodeId(words.u32()?);
    Ok(Command::Pick(sub, node, input(words)?))
}

/// What is to be explained: a subscription by its number, or behind `feed` the feed of a hub by the number of the hub.
#[tactic(auto, unfolding(crate::specs::Commands::why_at))]
fn why(words: &mut Words<'_>) -> Result<Command, LineRefusal>
    ensures { Gives (λ x. (order_of x, left words.new)) result (why_at (left words.old)) }
{
    let (column, word) = words.name()?;
    match word {
        "feed" => Ok(Command::WhyFeed(hub(words)?)),
        _ => {
            let number = number_u32(word).ok_or(LineRefusal::Syntax(column))?;
            Ok(Command::Why(SubId(number)))
        }
    }
}

/// The input of a pick: its number, or `m` for Main.
#[tactic(auto, unfolding(crate::specs::Commands::input_at))]
fn input(words: &mut Words<'_>) -> Result<u64, LineRefusal>
    ensures { Gives (λ n. (n, left words.new)) result (input_at (left words.old)) }
{
    let (column, word) = words.name()?;
    number_of_input(word).ok_or(LineRefusal::Syntax(column))
}

/// The number of the input that a word names.
fn number_of_input(word: &str) -> Option<u64>
    ensures { result ≡ input_of word.now }
{
    match word {
        "m" => Some(MAIN),
        _ => number_u64(word),
    }
}

/// The kind of a hub: `multicast`, or `replay` and how many items it keeps.
#[tactic(auto, unfolding(crate::specs::Commands::hub_kind_at))]
fn hub_kind(words: &mut Words<'_>) -> Result<HubKind, LineRefusal>
    ensures word { Gives (λ x. (x, left words.new)) result (hub_kind_at (left words.old)) }
    ensures most { bytes_left words.new ≤ bytes_left words.old }
{
    let (column, name) = words.name()?;
    match name {
        "multicast" => Ok(HubKind::Multicast),
        "replay" => Ok(HubKind::Replay(words.u64()?)),
        _ => Err(LineRefusal::UnknownName(column)),
    }
}

/// The number of a hub.
pub(crate) fn hub(words: &mut Words<'_>) -> Result<HubId, LineRefusal>
    ensures word { Gives (λ h. (h.0, left words.new)) result (number_at u32_of (left words.old)) }
    ensures most { bytes_left words.new ≤ bytes_left words.old }
{
    Ok(HubId(words.u32()?))
}

/// The number of a subscription.
pub(crate) fn subscription(words: &mut Words<'_>) -> Result<SubId, LineRefusal>
    ensures { Gives (λ s. (s.0, left words.new)) result (number_at u32_of (left words.old)) }
{
    Ok(SubId(words.u32()?))
}
