//! The functions of the demonstration.

ghost use Rattle.std.specs.Prelude.{◌≡◌, ◌+◌, ◌≤◌, ◌%◌, ◌==◌, IfOk, ℤ, pos, ◌+ℤ◌, neg_ℤ, FitsSigned, unsigned_abs, int_lt, [], ◌∷◌, map};
ghost use Rattle.std.specs.Int.{w64, int_max, int_rem_euclid, cast_unsigned};
ghost use Rattle.std.specs.List.{range_with_len};
ghost use Rattle.std.specs.Option.{SomeIff};
ghost use Rattle.rsx_types.specs.Meaning.{AnswersList};
ghost use Rattle.rsx_demo.specs.Demo.{exactly, of_number, both_numbers, number_item, size_of, list_item, up_to, demo_meaning, demo_allocates};
ghost use Rattle.rsx_demo.specs.Lawful.{demo_lawful};

use crate::val::{Val, Vals, copy_items, copy_val};
use rsx_types::{Fault, MOST_ITEMS, NoMemory, Ops};
use std::alloc::Global;

/// The fault of a result that leaves the type `i64`.
pub const TOO_LARGE: u32 = 1;
/// The fault of an item of the wrong kind: a list where a number is wanted, or a number where a list is.
pub const WRONG_KIND: u32 = 2;
/// The fault of an expansion that has more than 1,024 items.
pub const TOO_LONG: u32 = 3;
/// The fault of a function that isn't listed.
pub const UNLISTED: u32 = 4;

/// The demonstration's functions, each by its number:
///
/// | call | number and name |
/// |---|---|
/// | `map` | 1 `inc`, 2 `double`, 3 `neg`, 4 `size` (the length of a list) |
/// | `test` | 1 `even`, 2 `positive` |
/// | `fold` | 1 `add`, 2 `max` |
/// | `key` | 1 `mod3` (0, 1 or 2), 2 `same` (the number's 64 bits) |
/// | `expand` | 1 `upto` (1 to the number), 2 `twice` |
///
/// Faults: 1 where a result leaves `i64`; 2 for a list, or for a number where `size` wants a list; 3 where `upto` has
/// more than 1,024 items; 4 for a number that isn't listed.
#[derive(Clone, Copy)]
pub struct Demo;

/// The number of an item.
fn number(x: &Val) -> Result<i64, Fault>
    ensures { result ≡ exactly (of_number (λ z. Ok z) x.now) }
{
    match x {
        Val::Int(n) => Ok(*n),
        Val::List(_) => Err(Fault::Code(WRONG_KIND)),
    }
}

/// The item of a number, where it didn't leave the type.
fn in_range(n: Option<i64>) -> Result<Val, Fault>
    ensures { (z : ℤ) → SomeIff n (FitsSigned w64 z) z → result ≡ exactly (number_item z) }
{
    match n {
        Some(n) => Ok(Val::Int(n)),
        None => Err(Fault::Code(TOO_LARGE)),
    }
}

/// `map` 1: one more. Fault 1 at the greatest number, and fault 2 at a list.
fn inc(x: &Val) -> Result<Val, Fault>
    ensures { result ≡ exactly (of_number (λ z. number_item (z +ℤ pos 1)) x.now) }
{
    in_range(number(x)?.checked_add(1))
}

/// `map` 2: twice the number. Fault 1 where that leaves the type, and fault 2 at a list.
fn double(x: &Val) -> Result<Val, Fault>
    ensures { result ≡ exactly (of_number (λ z. number_item (z +ℤ z)) x.now) }
{
    let n = number(x)?;
    in_range(n.checked_add(n))
}

/// `map` 3: the number with the other sign. Fault 1 at the least number, and fault 2 at a list.
fn negate(x: &Val) -> Result<Val, Fault>
    ensures { result ≡ exactly (of_number (λ z. number_item (neg_ℤ z)) x.now) }
{
    in_range(number(x)?.checked_neg())
}

/// `map` 4: the length of a list. Fault 2 at a number, and fault 1 where the length leaves the type.
fn size(x: &Val) -> Result<Val, Fault>
    ensures { result ≡ exactly (size_of x.now) }
{
    match x {
        Val::Int(_) => Err(Fault::Code(WRONG_KIND)),
        Val::List(items) => in_range(i64::try_from(items.len()).ok()),
    }
}

/// `test` 1: whether the number is even. Fault 2 at a list.
fn even(x: &Val) -> Result<bool, Fault>
    ensures { result ≡ exactly (of_number (λ z. Ok (unsigned_abs z % 2 == 0)) x.now) }
{
    Ok(number(x)?.unsigned_abs() % 2 == 0)
}

/// `test` 2: whether the number is above 0. Fault 2 at a list.
fn positive(x: &Val) -> Result<bool, Fault>
    ensures { result ≡ exactly (of_number (λ z. Ok (int_lt (pos 0) z)) x.now) }
{
    Ok(number(x)? > 0)
}

/// `fold` 1: the sum. Fault 1 where that leaves the type, and fault 2 at a list.
fn add(acc: &Val, x: &Val) -> Result<Val, Fault>
    ensures { result ≡ exactly (both_numbers (λ n z. number_item (n +ℤ z)) acc.now x.now) }
{
    in_range(number(acc)?.checked_add(number(x)?))
}

/// `fold` 2: the greater of the two numbers. Fault 2 at a list.
fn greater(acc: &Val, x: &Val) -> Result<Val, Fault>
    ensures { result ≡ exactly (both_numbers (λ n z. Ok (Val.Int (int_max n z))) acc.now x.now) }
{
    Ok(Val::Int(number(acc)?.max(number(x)?)))
}

/// `key` 1: the remainder by 3, which is 0, 1 or 2. Fault 2 at a list.
fn remainder(x: &Val) -> Result<u64, Fault>
    ensures { result ≡ exactly (of_number (λ z. Ok (unsigned_abs (int_rem_euclid z (pos 3)))) x.now) }
{
    Ok(number(x)?.rem_euclid(3).unsigned_abs())
}

/// `key` 2: the 64 bits of the number, so that different numbers have different keys. Fault 2 at a list.
fn bits(x: &Val) -> Result<u64, Fault>
    ensures { result ≡ exactly (of_number (λ z. Ok (cast_unsigned w64 z)) x.now) }
{
    Ok(number(x)?.cast_unsigned())
}

/// The list of these items.
fn listed(alloc: Global, xs: &[Val]) -> Result<Val, NoMemory>
    ensures { IfOk result (λ y. y ≡ list_item xs.now) }
{
    Ok(Val::List(Vals::new(alloc, copy_items(alloc, xs)?)?))
}

/// The numbers from 1 to `n`.
fn counting(alloc: Global, n: u64) -> Result<Vec<Val>, NoMemory>
    requires { n ≤ MOST_ITEMS }
    ensures { IfOk result (λ ys. ys.items ≡ map (λ k. Val.Int (pos (k + 1))) (range_with_len 0 n)) }
{
    let mut out = Vec::new(alloc);
    for k in 0..n {
        out.push(Val::Int(k as i64 + 1))?;
    }
    Ok(out)
}

/// `expand` 1: the numbers from 1 to the number; none where it is below 1. Fault 3 where it is above [`MOST_ITEMS`], and
/// fault 2 at a list.
fn up_to_number(alloc: Global, x: &Val) -> Result<Vec<Val>, Fault>
    ensures { AnswersList result (of_number up_to x.now) }
{
    let n = number(x)?;
    if n > MOST_ITEMS as i64 {
        return Err(Fault::Code(TOO_LONG));
    }
    counting(alloc, n.max(0).unsigned_abs()).map_err(|_| Fault::Memory)
}

/// `expand` 2: the number two times. Fault 2 at a list.
fn twice(alloc: Global, x: &Val) -> Result<Vec<Val>, Fault>
    ensures { AnswersList result (of_number (λ z. Ok (Val.Int z ∷ Val.Int z ∷ [])) x.now) }
{
    let n = number(x)?;
    vec![in alloc; Val::Int(n), Val::Int(n)].map_err(|_| Fault::Memory)
}

impl Ops for Demo {
    type Item = Val;

    ghost meaning = { λ _. demo_meaning };

    ghost allocates = { λ _. demo_allocates };

    fn map(&self, _alloc: Global, f: u16, x: &Val) -> Result<Val, Fault> {
        match f {
            1 => inc(x),
            2 => double(x),
            3 => negate(x),
            4 => size(x),
            _ => Err(Fault::Code(UNLISTED)),
        }
    }

    fn test(&self, f: u16, x: &Val) -> Result<bool, Fault> {
        match f {
            1 => even(x),
            2 => positive(x),
            _ => Err(Fault::Code(UNLISTED)),
        }
    }

    fn fold(&self, _alloc: Global, f: u16, acc: &Val, x: &Val) -> Result<Val, Fault> {
        match f {
            1 => add(acc, x),
            2 => greater(acc, x),
            _ => Err(Fault::Code(UNLISTED)),
        }
    }

    fn key(&self, f: u16, x: &Val) -> Result<u64, Fault> {
        match f {
            1 => remainder(x),
            2 => bits(x),
            _ => Err(Fault::Code(UNLISTED)),
        }
    }

    fn expand(&self, alloc: Global, f: u16, x: &Val) -> Result<Vec<Val>, Fault> {
        match f {
            1 => up_to_number(alloc, x),
            2 => twice(alloc, x),
            _ => Err(Fault::Code(UNLISTED)),
        }
    }

    fn row(&self, alloc: Global, xs: &[Val]) -> Result<Val, NoMemory> {
        listed(alloc, xs)
    }

    fn list(&self, alloc: Global, xs: &[Val]) -> Result<Val, NoMemory> {
        listed(alloc, xs)
    }

    fn tag(&self, alloc: Global, key: u64, x: &Val) -> Result<Val, NoMemory> {
        let pair = vec![in alloc; Val::Int(key.cast_signed()), copy_val(alloc, x)?]?;
        Ok(Val::List(Vals::new(alloc, pair)?))
    }

    fn copy(&self, alloc: Global, x: &Val) -> Result<Val, NoMemory> {
        copy_val(alloc, x)
    }

    fn from_i64(&self, _alloc: Global, v: i64) -> Result<Val, NoMemory> {
        Ok(Val::Int(v))
    }

    ghost lawful = { λ _. demo_lawful };
}
