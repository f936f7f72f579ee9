//! The text of answers.

ghost use Rattle.std.specs.Prelude.{◌≡◌, ◌++◌, ◌∷◌, [], ℕ, List, string_bytes, OnErr, OnOk};
ghost use Rattle.std.specs.Fmt.{WritesOnOk};
ghost use Rattle.rsx_script.specs.Answers.{IsTextOf, numbers_text, picks_text, note_text, notes_text, ending_text, items_text, signals_text, rest_text};

use rsx_demo::Val;
use rsx_types::{Cause, Ending, HubId, NoMemory, Note, StreamValue, SubId};
use rsx_values::MAIN;
use rsx_waits::{FeedWait, Picture, Wait};
use std::alloc::Global;
use std::fmt;

/// What a command answers.
#[derive(Drop)]
pub enum Answer<'a> {
    /// A hub was made.
    Hub(HubId),
    /// A subscription was made.
    Sub(SubId),
    /// It was done.
    Done,
    /// No move is enabled.
    Idle,
    /// The budget is used up, and a move is enabled.
    Budget,
    /// What a subscriber received, and the rest.
    Shown(Shown<'a>),
    /// The value of the slow evaluator.
    Value(StreamValue<Val>),
    /// How much a subscriber asked for in all.
    Asked(u64),
    /// How many items a subscriber received.
    Count(u64),
    /// How many items of its hub each leaf of a subscription's expression misses, from left to right.
    Joins(Vec<u64>),
    /// What each node of a subscription's expression recorded, in pre-order.
    Choices(Vec<Note>),
    /// What was received and what is owed is the value of the expression.
    Equal,
    /// It is not.
    Different,
    /// What a subscriber waits for.
    Waits(Wait),
    /// What the feed of a hub waits for.
    FeedWaits(FeedWait),
    /// What the nodes of a subscription's tree do.
    Drawn(Picture),
    /// The call was refused, by this name.
    Refused(&'static str),
}

/// What a subscriber received, and the rest.
#[derive(Drop)]
pub struct Shown<'a> {
    /// The items that it received.
    pub received: &'a [Val],
    /// The ending that it received, or `Open`.
    pub ending: Ending,
    /// What follows.
    pub rest: Rest,
}

/// What follows what a subscriber received.
#[derive(Drop)]
pub enum Rest {
    /// What the graph owes it.
    Owed(StreamValue<Val>),
    /// Nothing: it cancelled while the subscription was open.
    Cancelled,
    /// Nothing: a bad request closed the subscription.
    Closed,
}

impl Answer<'_> {
    /// Adds the answer to the text, with a newline.
    ///
    /// # Errors
    ///
    /// `NoMemory` where a growth was refused; the text is then as it was.
    pub fn add_to(&self, alloc: Global, out: &mut String) -> Result<(), NoMemory>
        ensures same { OnErr result (string_bytes out.new ≡ string_bytes out.old) }
        ensures grows { OnOk result ((text : List ℕ) × IsTextOf self.now text × (string_bytes out.new ≡ string_bytes out.old ++ (text ++ 10 ∷ []))) }
    {
        let mut text = format!(in alloc; "{self}")?;
        text.push_str("\n")?;
        out.push_str(text.as_str())?;
        Ok(())
    }
}

impl fmt::Display for Answer<'_> {
    ghost use Rattle.std.specs.Prelude.{Some};
    ghost use Rattle.rsx_script.specs.Answers.{answer_text};

    ghost output = { λ answer. Some (answer_text answer) };

    fn fmt<W: fmt::Write>(&self, f: &mut fmt::Formatter<W>) -> fmt::Result {
        match self {
            Answer::Hub(hub) => write!(f, "hub {}", hub.0),
            Answer::Sub(sub) => write!(f, "sub {}", sub.0),
            Answer::Done => f.write_str("ok"),
            Answer::Idle => f.write_str("idle"),
            Answer::Budget => f.write_str("budget"),
            Answer::Shown(shown) => write!(f, "{shown}"),
            Answer::Value(value) => {
                f.write_str("scratch")?;
                write_signals(f, value.items(), value.ending())
            }
            Answer::Asked(asked) => write!(f, "asked {asked}"),
            Answer::Count(count) => write!(f, "count {count}"),
            Answer::Joins(joins) => {
                f.write_str("joins")?;
                write_numbers(f, joins)
            }
            Answer::Choices(notes) => {
                f.write_str("choices")?;
                write_notes(f, notes)
            }
            Answer::Equal => f.write_str("equal"),
            Answer::Different => f.write_str("different"),
            Answer::Waits(wait) => write!(f, "waits: {wait}"),
            Answer::FeedWaits(wait) => write!(f, "waits: {wait}"),
            Answer::Drawn(picture) => write!(f, "tree{picture}"),
            Answer::Refused(name) => write!(f, "refused {name}"),
        }
    }
}

impl fmt::Display for Shown<'_> {
    ghost use Rattle.std.specs.Prelude.{Some};
    ghost use Rattle.rsx_script.specs.Answers.{shown_text};

    ghost output = { λ shown. Some (shown_text shown) };

    fn fmt<W: fmt::Write>(&self, f: &mut fmt::Formatter<W>) -> fmt::Result {
        f.write_str("received")?;
        write_signals(f, self.received, self.ending)?;
        write_rest(f, &self.rest)
    }
}

/// What follows what a subscriber received.
fn write_rest<W: fmt::Write>(f: &mut fmt::Formatter<W>, rest: &Rest) -> fmt::Result
    ensures { WritesOnOk W.write_str_gives f.old result (rest_text rest.now) f.new }
{
    match rest {
        Rest::Owed(value) => {
            f.write_str(" | owed")?;
            write_signals(f, value.items(), value.ending())
        }
        Rest::Cancelled => f.write_str(" | cancelled"),
        Rest::Closed => f.write_str(" | closed"),
    }
}

/// Each number behind a space.
fn write_numbers<W: fmt::Write>(f: &mut fmt::Formatter<W>, numbers: &[u64]) -> fmt::Result
    ensures { WritesOnOk W.write_str_gives f.old result (numbers_text numbers.now) f.new }
{
    for number in numbers {
        write!(f, " {number}")?;
    }
    Ok(())
}

/// What each node that records recorded, behind a space, its number and a colon.
fn write_notes<W: fmt::Write>(f: &mut fmt::Formatter<W>, notes: &[Note]) -> fmt::Result
    ensures { WritesOnOk W.write_str_gives f.old result (notes_text 0 notes.now) f.new }
{
    for (node, note) in notes.iter().enumerate() {
        write_note(f, node, note)?;
    }
    Ok(())
}

/// The same of one node.
fn write_note<W: fmt::Write>(f: &mut fmt::Formatter<W>, node: usize, note: &Note) -> fmt::Result
    ensures { WritesOnOk W.write_str_gives f.old result (note_text node note.now) f.new }
{
    match note {
        Note::Nothing => Ok(()),
        Note::Picks(choices) => {
            write!(f, " {node}:")?;
            write_picks(f, choices.as_slice())
        }
        Note::Ended(None) => write!(f, " {node}:"),
        Note::Ended(Some(input)) => write!(f, " {node}:{input}"),
    }
}

/// Choices with a comma between them.
fn write_picks<W: fmt::Write>(f: &mut fmt::Formatter<W>, choices: &[u64]) -> fmt::Result
    ensures { WritesOnOk W.write_str_gives f.old result (picks_text choices.now) f.new }
{
    let Some((first, others)) = choices.split_first() else {
        return Ok(());
    };
    write!(f, "{}", Choice(*first))?;
    for other in others {
        write!(f, ",{}", Choice(*other))?;
    }
    Ok(())
}

/// The number of an input that was chosen.
#[derive(Clone, Copy)]
struct Choice(u64);

/// As `0`, and `m` for Main.
impl fmt::Display for Choice {
    ghost use Rattle.std.specs.Prelude.{Some};
    ghost use Rattle.rsx_script.specs.Answers.{choice_text};

    ghost output = { λ choice. Some (choice_text choice.0) };

    fn fmt<W: fmt::Write>(&self, f: &mut fmt::Formatter<W>) -> fmt::Result {
        if self.0 == MAIN {
            f.write_str("m")
        } else {
            write!(f, "{}", self.0)
        }
    }
}

/// Each item behind a space, and then the ending.
fn write_signals<W: fmt::Write>(
    f: &mut fmt::Formatter<W>,
    items: &[Val],
    ending: Ending,
) -> fmt::Result
    ensures { WritesOnOk W.write_str_gives f.old result (signals_text items.now ending) f.new }
{
    write_items(f, items)?;
    write_ending(f, ending)
}

/// Each item behind a space.
fn write_items<W: fmt::Write>(f: &mut fmt::Formatter<W>, items: &[Val]) -> fmt::Result
    ensures { WritesOnOk W.write_str_gives f.old result (items_text items.now) f.new }
{
    for item in items {
        write!(f, " {item}")?;
    }
    Ok(())
}

/// The ending behind a space, where there is one.
fn write_ending<W: fmt::Write>(f: &mut fmt::Formatter<W>, ending: Ending) -> fmt::Result
    ensures { WritesOnOk W.write_str_gives f.old result (ending_text ending) f.new }
{
    match ending {
        Ending::Open => Ok(()),
        Ending::Done => f.write_str(" complete"),
        Ending::Failed(Cause::User(number)) => write!(f, " error user {number}"),
        Ending::Failed(Cause::Function(number)) => write!(f, " error function {number}"),
        Ending::Failed(Cause::NonPositiveRequest) => f.write_str(" error bad-request"),
    }
}
