//! The numbers that words write.

ghost use Rattle.std.specs.Prelude.{◌≡◌};
ghost use Rattle.rsx_script.specs.Numbers.{ParsedWithoutPlus, u8_of, u32_of, u64_of, signed_of};

use std::str::FromStr;

/// The number of type `u8` that a word writes, in decimal digits.
pub fn number_u8(word: &str) -> Option<u8>
    ensures { result ≡ u8_of word.now }
{
    number_of(word)
}

/// The number of type `u32` that a word writes, in decimal digits.
pub fn number_u32(word: &str) -> Option<u32>
    ensures { result ≡ u32_of word.now }
{
    number_of::<u32>(word)
}

/// The number of type `u64` that a word writes, in decimal digits.
pub fn number_u64(word: &str) -> Option<u64>
    ensures { result ≡ u64_of word.now }
{
    number_of::<u64>(word)
}

/// The number of type `i64` that a word writes, in decimal digits, with `-` in front or not.
pub fn number_i64(word: &str) -> Option<i64>
    ensures { result ≡ signed_of word.now }
{
    number_of::<i64>(word)
}

/// The number of this type that a word is. `parse` takes a `+` in front, which is no part of a number here.
fn number_of<T: FromStr>(word: &str) -> Option<T>
where
    T::Err: Drop,
    ensures { ParsedWithoutPlus T.from_str_gives word.now result }
{
    match word.as_bytes() {
        [b'+', ..] => None,
        _ => match word.parse() {
            Ok(number) => Some(number),
            Err(_) => None,
        },
    }
}
