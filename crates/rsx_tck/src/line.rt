//! Reading one line of a trace, word by word.

ghost use Rattle.std.specs.Prelude.{◌≡◌, ◌≤◌, ◌==◌, length, pos, neg_ℤ, IfSome, IfOk};
ghost use Rattle.std.specs.List.{position, position_or_len};
ghost use Rattle.std.specs.Str.{bytes_eq};
ghost use Rattle.rsx_tck.specs.Reading.{behind, word_at, ends, number_of, option_map_to, signed_of, number_at, signed_at, kind_of, cause_at, tail_of, event_at, stamped_at, line_at, first_at};
ghost use Rattle.rsx_tck.specs.Gives.{Gives};

use crate::event::{Event, Stamped};
use rsx_types::Cause;

/// A word of a line is wrong.
#[derive(Clone, Copy, Debug, PartialEq, Eq)]
pub struct Wrong {
    /// How many bytes of the line stand from the word on: none where it is missing.
    pub left: usize,
}

/// The first word of an event.
#[derive(Clone, Copy, Debug, PartialEq, Eq)]
pub enum Kind {
    Subscribe,
    OnSubscribe,
    Next,
    Complete,
    Error,
    Exit,
    Request,
    Cancel,
    CancelNew,
}

/// A line behind the first.
#[derive(Clone, Copy, Debug, PartialEq, Eq)]
pub enum Line {
    Event(Stamped),
    End,
}

/// Whether the word is this one.
fn is(word: &[u8], name: &str) -> bool
    ensures { result ≡ bytes_eq word.now name.now }
{
    word == name.as_bytes()
}

/// The place of the first separator.
fn place_of(bytes: &[u8], separator: u8) -> Option<usize>
    ensures { result ≡ position (λ b. b == separator) bytes.now }
{
    bytes.iter().position(|b| *b == separator)
}

/// The place of the first separator, or the length where there is none.
pub fn len_to(bytes: &[u8], separator: u8) -> usize
    ensures place { result ≡ position_or_len (λ b. b == separator) bytes.now }
    ensures bound { result ≤ length bytes.now }
{
    match place_of(bytes, separator) {
        Some(place) => place,
        None => bytes.len(),
    }
}

/// What is left from the next word on.
fn next_of(bytes: &[u8]) -> &[u8]
    ensures { result.now ≡ behind bytes.now }
{
    match bytes {
        [_, _, ..] => &bytes[1..],
        _ => bytes,
    }
}

/// The word that begins here, and what is left from the next word on.
#[tactic(auto, unfolding(crate::specs::Reading::word_at))]
fn word(bytes: &[u8]) -> Result<(&[u8], &[u8]), Wrong>
    ensures { Gives (λ x. (x.0.now, x.1.now)) result (word_at bytes.now) }
{
    let len = len_to(bytes, b' ');
    if len == 0 {
        return Err(Wrong { left: bytes.len() });
    }
    Ok((&bytes[..len], next_of(&bytes[len..])))
}

/// The number that a text is: digits alone, of a value up to `most`.
fn number_in(most: u64, text: &[u8]) -> Option<u64>
    requires { 9 ≤ most }
    ensures value { result ≡ number_of most text.now }
    ensures small { IfSome result (λ n. n ≤ most) }
{
    if text.is_empty() {
        return None;
    }
    let mut value: u64 = 0;
    for b in text {
        if !b.is_ascii_digit() {
            return None;
        }
        let digit = u64::from(*b - b'0');
        if value > (most - digit) / 10 {
            return None;
        }
        value = value * 10 + digit;
    }
    Some(value)
}

/// The number of `0` and more that a text is.
fn positive_in(text: &[u8]) -> Option<i64>
    ensures { result ≡ option_map_to pos (number_of 9223372036854775807 text.now) }
{
    let value = number_in((1 << 63) - 1, text)?;
    0i64.checked_add_unsigned(value)
}

/// The number of `0` and less whose digits these are.
fn negative_in(digits: &[u8]) -> Option<i64>
    ensures { result ≡ option_map_to (λ n. neg_ℤ (pos n)) (number_of 9223372036854775808 digits.now) }
{
    let value = number_in(1 << 63, digits)?;
    0i64.checked_sub_unsigned(value)
}

/// The number with a sign that a text is: digits, with `-` before them or not, of a value that fits.
#[tactic(auto, unfolding(crate::specs::Reading::signed_of))]
fn signed_in(text: &[u8]) -> Option<i64>
    ensures { result ≡ signed_of text.now }
{
    match text {
        [] => None,
        [b'-', digits @ ..] => negative_in(digits),
        _ => positive_in(text),
    }
}

/// The kind that a word names.
fn kind_in(text: &[u8]) -> Option<Kind>
    ensures { result ≡ kind_of text.now }
{
    if is(text, "subscribe") {
        Some(Kind::Subscribe)
    } else if is(text, "on-subscribe") {
        Some(Kind::OnSubscribe)
    } else if is(text, "next") {
        Some(Kind::Next)
    } else if is(text, "complete") {
        Some(Kind::Complete)
    } else if is(text, "error") {
        Some(Kind::Error)
    } else if is(text, "exit") {
        Some(Kind::Exit)
    } else if is(text, "request") {
        Some(Kind::Request)
    } else if is(text, "cancel") {
        Some(Kind::Cancel)
    } else if is(text, "cancel-new") {
        Some(Kind::CancelNew)
    } else {
        None
    }
}

/// A number up to `most`, and what is left behind it.
#[tactic(auto, unfolding(crate::specs::Reading::number_at))]
fn number(most: u64, bytes: &[u8]) -> Result<(u64, &[u8]), Wrong>
    requires { 9 ≤ most }
    ensures value { Gives (λ x. (x.0, x.1.now)) result (number_at most bytes.now) }
    ensures small { IfOk result (λ x. x.0 ≤ most) }
{
    let (text, rest) = word(bytes)?;
    match number_in(most, text) {
        Some(value) => Ok((value, rest)),
        None => Err(Wrong { left: bytes.len() }),
    }
}

/// A number of a subscriber or of a cause, and what is left behind it.
fn small_number(bytes: &[u8]) -> Result<(u32, &[u8]), Wrong>
    ensures { Gives (λ x. (x.0, x.1.now)) result (number_at 4294967295 bytes.now) }
{
    let (value, rest) = number(u64::from(u32::MAX), bytes)?;
    Ok((value as u32, rest))
}

/// A number with a sign, and what is left behind it.
#[tactic(auto, unfolding(crate::specs::Reading::signed_at))]
fn signed(bytes: &[u8]) -> Result<(i64, &[u8]), Wrong>
    ensures { Gives (λ x. (x.0, x.1.now)) result (signed_at bytes.now) }
{
    let (text, rest) = word(bytes)?;
    match signed_in(text) {
        Some(value) => Ok((value, rest)),
        None => Err(Wrong { left: bytes.len() }),
    }
}

/// A cause, and what is left behind it.
#[tactic(auto, unfolding(crate::specs::Reading::cause_at))]
fn cause(bytes: &[u8]) -> Result<(Cause, &[u8]), Wrong>
    ensures { Gives (λ x. (x.0, x.1.now)) result (cause_at bytes.now) }
{
    let (text, rest) = word(bytes)?;
    if is(text, "bad-request") {
        Ok((Cause::NonPositiveRequest, rest))
    } else if is(text, "user") {
        let (number, rest) = small_number(rest)?;
        Ok((Cause::User(number), rest))
    } else if is(text, "function") {
        let (number, rest) = small_number(rest)?;
        Ok((Cause::Function(number), rest))
    } else {
        Err(Wrong { left: bytes.len() })
    }
}

/// The value that was read, where the line ends here.
#[tactic(auto, unfolding(crate::specs::Reading::ends))]
fn ended<T: Drop>(bytes: &[u8], value: T) -> Result<T, Wrong>
    ensures { Gives (λ x. x) result (ends bytes.now value) }
{
    if bytes.is_empty() {
        Ok(value)
    } else {
        Err(Wrong { left: bytes.len() })
    }
}

/// What stands behind the number of the subscriber, up to the line's end.
#[tactic(auto, unfolding(crate::specs::Reading::tail_of))]
fn tail(kind: Kind, s: u32, bytes: &[u8]) -> Result<Event, Wrong>
    ensures { Gives (λ x. x) result (tail_of kind s bytes.now) }
{
    match kind {
        Kind::Subscribe => ended(bytes, Event::Subscribe(s)),
        Kind::OnSubscribe => ended(bytes, Event::OnSubscribe(s)),
        Kind::Next => ended(bytes, Event::Next(s)),
        Kind::Complete => ended(bytes, Event::Complete(s)),
        Kind::Error => {
            let (cause, rest) = cause(bytes)?;
            ended(rest, Event::Error(s, cause))
        }
        Kind::Exit => ended(bytes, Event::Exit(s)),
        Kind::Request => {
            let (amount, rest) = signed(bytes)?;
            ended(rest, Event::Request(s, amount))
        }
        Kind::Cancel => ended(bytes, Event::Cancel(s)),
        Kind::CancelNew => ended(bytes, Event::CancelNew(s)),
    }
}

/// An event, up to the line's end.
#[tactic(auto, unfolding(crate::specs::Reading::event_at))]
fn event(bytes: &[u8]) -> Result<Event, Wrong>
    ensures { Gives (λ x. x) result (event_at bytes.now) }
{
    let (text, rest) = word(bytes)?;
    let Some(kind) = kind_in(text) else {
        return Err(Wrong { left: bytes.len() });
    };
    let (s, rest) = small_number(rest)?;
    tail(kind, s, rest)
}

/// An event, behind the number of its worker where the trace has those.
#[tactic(auto, unfolding(crate::specs::Reading::stamped_at))]
fn stamped_event(stamped: bool, bytes: &[u8]) -> Result<Stamped, Wrong>
    ensures { Gives (λ x. x) result (stamped_at stamped bytes.now) }
{
    if stamped {
        let (worker, rest) = number(15, bytes)?;
        let event = event(rest)?;
        Ok(Stamped {
            worker: worker as u8,
            event,
        })
    } else {
        let event = event(bytes)?;
        Ok(Stamped { worker: 0, event })
    }
}

/// A line behind the first: `end`, or an event.
#[tactic(auto, unfolding(crate::specs::Reading::line_at))]
pub fn line_of(stamped: bool, bytes: &[u8]) -> Result<Line, Wrong>
    ensures { Gives (λ x. x) result (line_at stamped bytes.now) }
{
    let (text, rest) = word(bytes)?;
    if is(text, "end") {
        ended(rest, Line::End)
    } else {
        let event = stamped_event(stamped, bytes)?;
        Ok(Line::Event(event))
    }
}

/// The first line: whether each event has the number of its worker.
#[tactic(auto, unfolding(crate::specs::Reading::first_at))]
pub fn first_of(bytes: &[u8]) -> Result<bool, Wrong>
    ensures { Gives (λ x. x) result (first_at bytes.now) }
{
    let (text, behind_text) = word(bytes)?;
    if !is(text, "trace") {
        return Err(Wrong { left: bytes.len() });
    }
    let (version, rest) = word(behind_text)?;
    if is(version, "1") {
        ended(rest, false)
    } else if is(version, "2") {
        ended(rest, true)
    } else {
        Err(Wrong {
            left: behind_text.len(),
        })
    }
}
