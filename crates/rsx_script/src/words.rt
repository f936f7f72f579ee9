//! The words of a line, with their columns.
//!
//! A parenthesis is a word of its own; other words are runs of the bytes 0x21 to 0x7E between spaces and parentheses.
//! Columns count bytes from 1.

ghost use Rattle.std.specs.Prelude.{◌≡◌, ◌+◌, ◌-◌, ◌^◌, ◌≤◌, ◌<◌, length, IsSomeAnd, OnOk, IfOk, None, [], ◌∷◌};
ghost use Rattle.std.specs.List.{before_first, position, position_or_len};
ghost use Rattle.rsx_script.specs.Words.{is_written, is_separator, is_strange, from_word, column_of, Written, BeginsText, written};
ghost use Rattle.rsx_script.specs.Reading.{Gives, left, line_of, bytes_left, TakesText, next_at, opening_at, closing_at, end_at, name_at, number_at, is_opening_next};
ghost use Rattle.rsx_script.specs.Numbers.{u8_of, u32_of, u64_of, signed_of};

use crate::numbers::{number_i64, number_u8, number_u32, number_u64};
use std::alloc::{AllocError, AllocFailed};
use std::error::Error;
use std::{fmt, str};

/// Why a line can't be read.
#[derive(Clone, Copy, Debug, PartialEq, Eq)]
pub enum LineRefusal {
    /// X1: the word at this column can't stand there, or a word is missing at it.
    Syntax(u64),
    /// X2: the word at this column names nothing of the kind that is wanted there.
    UnknownName(u64),
    /// X3: the line has more than 4,096 bytes.
    TooLong,
    /// X4: a growth was refused.
    NoMemory,
}

/// As `syntax at column 11`.
impl fmt::Display for LineRefusal {
    ghost use Rattle.std.specs.Prelude.{Some};
    ghost use Rattle.rsx_script.specs.Texts.{refusal_text};

    ghost output = { λ refusal. Some (refusal_text refusal) };

    fn fmt<W: fmt::Write>(&self, f: &mut fmt::Formatter<W>) -> fmt::Result {
        match *self {
            LineRefusal::Syntax(column) => write!(f, "syntax at column {column}"),
            LineRefusal::UnknownName(column) => write!(f, "unknown name at column {column}"),
            LineRefusal::TooLong => f.write_str("longer than 4096 bytes"),
            LineRefusal::NoMemory => f.write_str("out of memory"),
        }
    }
}

impl Error for LineRefusal {}

impl From<AllocError> for LineRefusal {
    ghost use Rattle.rsx_script.specs.declared.words.LineRefusal.TheVariants.{NoMemory};

    ghost from_gives = { λ _ refusal. refusal ≡ NoMemory };

    fn from(_e: AllocError) -> LineRefusal {
        LineRefusal::NoMemory
    }
}

impl<T: Drop> From<AllocFailed<T>> for LineRefusal {
    ghost use Rattle.rsx_script.specs.declared.words.LineRefusal.TheVariants.{NoMemory};

    ghost from_gives = { λ _ refusal. refusal ≡ NoMemory };

    fn from(_e: AllocFailed<T>) -> LineRefusal {
        LineRefusal::NoMemory
    }
}

/// One word of a line.
#[derive(Clone, Copy)]
pub enum Word<'a> {
    /// `(`
    Open,
    /// `)`
    Close,
    /// Any other word.
    Text(&'a str),
    /// No word: the line ends here.
    End,
}

/// Whether a byte isn't the space.
fn is_written(byte: u8) -> bool
    ensures { result ≡ is_written byte }
{
    byte != b' '
}

/// Whether a byte ends the word before it: a space or a parenthesis.
fn is_separator(byte: u8) -> bool
    ensures { result ≡ is_separator byte }
{
    byte == b' ' || byte == b'(' || byte == b')'
}

/// The place of the first byte that isn't the space.
fn written_place(bytes: &[u8]) -> Option<usize>
    ensures { result ≡ position is_written bytes.now }
{
    bytes.iter().position(|b| is_written(*b))
}

/// The place of the first byte that isn't the space, or the length where there is none.
fn len_of_spaces(bytes: &[u8]) -> usize
    ensures place { result ≡ position_or_len is_written bytes.now }
    ensures bound { result ≤ length bytes.now }
{
    match written_place(bytes) {
        Some(place) => place,
        None => bytes.len(),
    }
}

/// The bytes from the first on that isn't the space.
fn behind_spaces(bytes: &[u8]) -> &[u8]
    ensures rest { result.now ≡ from_word bytes.now }
    ensures most { length result.now ≤ length bytes.now }
{
    &bytes[len_of_spaces(bytes)..]
}

/// The place of the first separator.
fn separator_place(bytes: &[u8]) -> Option<usize>
    ensures { result ≡ position is_separator bytes.now }
{
    bytes.iter().position(|b| is_separator(*b))
}

/// The place of the first separator, or the length where there is none.
fn len_of_word(bytes: &[u8]) -> usize
    ensures place { result ≡ position_or_len is_separator bytes.now }
    ensures bound { result ≤ length bytes.now }
{
    match separator_place(bytes) {
        Some(place) => place,
        None => bytes.len(),
    }
}

/// The place of the first byte that no word has.
fn strange_place(word: &[u8]) -> Option<usize>
    ensures { result ≡ position is_strange word.now }
{
    word.iter().position(|b| !b.is_ascii_graphic())
}

/// The text of these bytes, all of which words have.
fn text_of(word: &[u8]) -> Option<&str>
    requires { position is_strange word.now ≡ None }
    ensures { IsSomeAnd result (λ text. text.now ≡ word.now) }
{
    match str::from_utf8(word) {
        Ok(text) => Some(text),
        Err(_) => None,
    }
}

/// What is left to read of a line.
#[derive(Drop)]
pub struct Words<'a> {
    rest: &'a [u8],
    /// The column behind the line's last byte.
    end: u64,
}

impl<'a> Words<'a> {
    /// The words of this line.
    #[tactic(auto, unfolding(crate::specs::Reading::left, crate::specs::Reading::bytes_left))]
    pub fn new(line: &'a [u8]) -> Words<'a>
        ensures line { length line.entry.now < 2 ^ 64 - 1 → left result ≡ line_of line.entry.now }
        ensures bytes { bytes_left result ≡ length line.entry.now }
    {
        let end = (line.len() as u64).saturating_add(1);
        Words { rest: line, end }
    }

    /// The column of the next byte.
    fn column(&self) -> u64
        ensures value { result ≡ column_of self.now.end self.now.rest.now }
        ensures within { result + length self.now.rest.now < 2 ^ 64 }
    {
        self.end.saturating_sub(self.rest.len() as u64)
    }

    /// Goes on to the next byte that is not a space.
    #[tactic(auto, unfolding(crate::specs::Reading::left, crate::specs::Reading::bytes_left))]
    fn skip_spaces(&mut self)
        ensures rest { self.new.rest.now ≡ from_word self.old.rest.now }
        ensures end { self.new.end ≡ self.old.end }
        ensures same { left self.new ≡ left self.old }
        ensures most { bytes_left self.new ≤ bytes_left self.old }
    {
        self.rest = behind_spaces(self.rest);
    }

    /// The next word with its column. At the line's end there is none, and the column is that behind the last byte.
    ///
    /// # Errors
    ///
    /// `Syntax` at the first byte of the word that is outside 0x21 to 0x7E.
    #[tactic(auto, unfolding(crate::specs::Reading::left, crate::specs::Reading::bytes_left, crate::specs::Reading::next_at))]
    pub fn next(&mut self) -> Result<(u64, Word<'a>), LineRefusal>
        ensures word { Gives (λ x. ((x.0, written x.1), left self.new)) result (next_at (left self.old)) }
        ensures less { IfOk result (λ x. TakesText x.1 (bytes_left self.old) (bytes_left self.new)) }
        ensures most { bytes_left self.new ≤ bytes_left self.old }
    {
        self.skip_spaces();
        let column = self.column();
        let Some((first, rest)) = self.rest.split_first() else {
            return Ok((column, Word::End));
        };
        if *first == b'(' {
            self.rest = rest;
            return Ok((column, Word::Open));
        }
        if *first == b')' {
            self.rest = rest;
            return Ok((column, Word::Close));
        }
        Ok((column, Word::Text(self.text()?)))
    }

    /// The word that begins here, with a byte that is no separator.
    #[tactic(auto, unfolding(crate::specs::Reading::left, crate::specs::Reading::bytes_left, crate::specs::Reading::next_at))]
    fn text(&mut self) -> Result<&'a str, LineRefusal>
        requires { BeginsText self.old.rest.now }
        ensures word { Gives (λ text. ((column_of self.old.end self.old.rest.now, Written.text text.now), left self.new)) result (next_at (left self.old)) }
        ensures less { OnOk result (bytes_left self.new < bytes_left self.old) }
        ensures most { bytes_left self.new ≤ bytes_left self.old }
    {
        let (word, rest) = self.rest.split_at(len_of_word(self.rest));
        if let Some(place) = strange_place(word) {
            let column = self.column().saturating_add(place as u64);
            return Err(LineRefusal::Syntax(column));
        }
        match text_of(word) {
            Some(text) => {
                self.rest = rest;
                Ok(text)
            }
            None => Err(LineRefusal::Syntax(self.column())),
        }
    }

    /// Whether the next word is `(`. It stays the next.
    #[tactic(auto, unfolding(crate::specs::Reading::left, crate::specs::Reading::is_opening_next))]
    pub fn is_open(&mut self) -> bool
        ensures is { result ≡ is_opening_next (left self.old) }
        ensures same { left self.new ≡ left self.old }
        ensures most { bytes_left self.new ≤ bytes_left self.old }
    {
        self.skip_spaces();
        match self.rest.first() {
            Some(byte) => *byte == b'(',
            None => false,
        }
    }

    /// The next word, which is `(`.
    ///
    /// # Errors
    ///
    /// `Syntax` where it is another, or missing.
    #[tactic(auto, unfolding(crate::specs::Reading::opening_at))]
    pub fn open(&mut self) -> Result<(), LineRefusal>
        ensures word { Gives (λ _. left self.new) result (opening_at (left self.old)) }
        ensures less { OnOk result (bytes_left self.new < bytes_left self.old) }
        ensures most { bytes_left self.new ≤ bytes_left self.old }
    {
        match self.next()? {
            (_, Word::Open) => Ok(()),
            (column, Word::Close) => Err(LineRefusal::Syntax(column)),
            (column, Word::Text(_)) => Err(LineRefusal::Syntax(column)),
            (column, Word::End) => Err(LineRefusal::Syntax(column)),
        }
    }

    /// The next word, which is `)`.
    ///
    /// # Errors
    ///
    /// `Syntax` where it is another, or missing.
    #[tactic(auto, unfolding(crate::specs::Reading::closing_at))]
    pub fn close(&mut self) -> Result<(), LineRefusal>
        ensures word { Gives (λ _. left self.new) result (closing_at (left self.old)) }
        ensures most { bytes_left self.new ≤ bytes_left self.old }
    {
        match self.next()? {
            (_, Word::Close) => Ok(()),
            (column, Word::Open) => Err(LineRefusal::Syntax(column)),
            (column, Word::Text(_)) => Err(LineRefusal::Syntax(column)),
            (column, Word::End) => Err(LineRefusal::Syntax(column)),
        }
    }

    /// No further word.
    ///
    /// # Errors
    ///
    /// `Syntax` at the next word.
    #[tactic(auto, unfolding(crate::specs::Reading::end_at))]
    pub fn end(&mut self) -> Result<(), LineRefusal>
        ensures { Gives (λ _. left self.new) result (end_at (left self.old)) }
    {
        match self.next()? {
            (_, Word::End) => Ok(()),
            (column, Word::Open) => Err(LineRefusal::Syntax(column)),
            (column, Word::Close) => Err(LineRefusal::Syntax(column)),
            (column, Word::Text(_)) => Err(LineRefusal::Syntax(column)),
        }
    }

    /// The next word in the place of a name, with its column.
    ///
    /// # Errors
    ///
    /// `Syntax` where it is a parenthesis, or missing.
    #[tactic(auto, unfolding(crate::specs::Reading::name_at))]
    pub fn name(&mut self) -> Result<(u64, &'a str), LineRefusal>
        ensures word { Gives (λ x. ((x.0, x.1.now), left self.new)) result (name_at (left self.old)) }
        ensures most { bytes_left self.new ≤ bytes_left self.old }
    {
        match self.next()? {
            (column, Word::Text(name)) => Ok((column, name)),
            (column, Word::Open) => Err(LineRefusal::Syntax(column)),
            (column, Word::Close) => Err(LineRefusal::Syntax(column)),
            (column, Word::End) => Err(LineRefusal::Syntax(column)),
        }
    }

    /// The next word, a number of type `u8` in decimal digits.
    ///
    /// # Errors
    ///
    /// `Syntax` where it is no such number, or missing.
    #[tactic(auto, unfolding(crate::specs::Reading::number_at))]
    pub fn u8(&mut self) -> Result<u8, LineRefusal>
        ensures word { Gives (λ n. (n, left self.new)) result (number_at u8_of (left self.old)) }
        ensures most { bytes_left self.new ≤ bytes_left self.old }
    {
        let (column, word) = self.name()?;
        number_u8(word).ok_or(LineRefusal::Syntax(column))
    }

    /// The next word, a number of type `u32` in decimal digits.
    ///
    /// # Errors
    ///
    /// `Syntax` where it is no such number, or missing.
    #[tactic(auto, unfolding(crate::specs::Reading::number_at))]
    pub fn u32(&mut self) -> Result<u32, LineRefusal>
        ensures word { Gives (λ n. (n, left self.new)) result (number_at u32_of (left self.old)) }
        ensures most { bytes_left self.new ≤ bytes_left self.old }
    {
        let (column, word) = self.name()?;
        number_u32(word).ok_or(LineRefusal::Syntax(column))
    }

    /// The next word, a number of type `u64` in decimal digits.
    ///
    /// # Errors
    ///
    /// `Syntax` where it is no such number, or missing.
    #[tactic(auto, unfolding(crate::specs::Reading::number_at))]
    pub fn u64(&mut self) -> Result<u64, LineRefusal>
        ensures word { Gives (λ n. (n, left self.new)) result (number_at u64_of (left self.old)) }
        ensures most { bytes_left self.new ≤ bytes_left self.old }
    {
        let (column, word) = self.name()?;
        number_u64(word).ok_or(LineRefusal::Syntax(column))
    }

    /// The next word, a number of type `i64` in decimal digits, with `-` in front or not.
    ///
    /// # Errors
    ///
    /// `Syntax` where it is no such number, or missing.
    #[tactic(auto, unfolding(crate::specs::Reading::number_at))]
    pub fn i64(&mut self) -> Result<i64, LineRefusal>
        ensures word { Gives (λ n. (n, left self.new)) result (number_at signed_of (left self.old)) }
        ensures most { bytes_left self.new ≤ bytes_left self.old }
    {
        let (column, word) = self.name()?;
        number_i64(word).ok_or(LineRefusal::Syntax(column))
    }
}
