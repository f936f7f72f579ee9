//! Where a run stands.

ghost use Rattle.std.specs.Prelude.{◌<◌, ◌≤◌, length};

/// An input that is being answered.
#[derive(Drop)]
pub struct Run<A> {
    /// What answers the lines.
    pub answers: A,
    /// What was read of the line.
    pub line: Vec<u8>,
    ghost small: { length line.items ≤ 4096 },
    /// The number of the line, from 1.
    pub number: u64,
    ghost from_one: { 0 < number },
    /// The answers that weren't written yet.
    pub out: String,
}
