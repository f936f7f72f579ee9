//! Integers, with the functions of the demonstration that take numbers to numbers.

use rsx_types::{Fault, NoMemory, Ops};
use std::alloc::Global;

/// The fault of a sum that leaves the type.
const TOO_LARGE: u32 = 1;
/// The fault of a function that isn't listed.
const UNLISTED: u32 = 4;

/// 64-bit integers. `map` 2 doubles, `test` 1 is whether a number is even, `fold` 1 is the sum, `key` 1 is the remainder by
/// 3, `key` 2 the number's 64 bits, `key` 3 the remainder by 1,000, and the item of a list is its first number. Faults: 1 where a sum leaves the type, 4
/// for a function that isn't listed.
#[derive(Clone, Copy)]
pub struct Integers;

impl Ops for Integers {
    type Item = i64;

    ghost use Rattle.std.specs.Prelude.{Ok, Err, Result, ℤ, ℕ, pos, ◌+ℤ◌, ◌%◌, ◌==◌, ◌∷◌, [], if◌then◌else◌, unsigned_abs};
    ghost use Rattle.std.specs.Int.{int_rem_euclid, cast_unsigned, w64};
    ghost use Rattle.std.proofs.Common.{rules};
    ghost use Rattle.rsx_types.specs.Meaning.{none_allocates};
    ghost use Rattle.test_random.specs.Integers.{first_of, sum_of};

    ghost meaning = { λ o. record {
      mapped = λ f x. if f == 2 then sum_of x x else Err 4;
      tested = λ f x. if f == 1 then Ok (unsigned_abs x % 2 == 0) else Err 4;
      folded = λ f a x. if f == 1 then sum_of a x else Err 4;
      keyed = λ f x. if f == 1 then Ok (unsigned_abs (int_rem_euclid x (pos 3))) else (if f == 2 then Ok (cast_unsigned w64 x) else (if f == 3 then Ok (unsigned_abs (int_rem_euclid x (pos 1000))) else Err 4));
      expanded = λ f x. Err 4;
      row_of = λ xs. pos 0;
      list_of = λ xs. first_of xs;
      tagged = λ k x. x;
      number = λ v. v;
    } };

    ghost allocates = { λ o. none_allocates };

    ghost lawful = { λ o. record { map_fault = λ f x. Prim.search rules; test_fault = λ f x. Prim.search rules; fold_fault = λ f a x. Prim.search rules; key_fault = λ f x. Prim.search rules; expansion = λ f x. Prim.search rules } };

    #[inline]
    fn map(&self, _alloc: Global, f: u16, x: &i64) -> Result<i64, Fault> {
        match f {
            2 => match x.checked_add(*x) {
                Some(sum) => Ok(sum),
                None => Err(Fault::Code(TOO_LARGE)),
            },
            _ => Err(Fault::Code(UNLISTED)),
        }
    }

    #[inline]
    fn test(&self, f: u16, x: &i64) -> Result<bool, Fault> {
        match f {
            1 => Ok(x.unsigned_abs() % 2 == 0),
            _ => Err(Fault::Code(UNLISTED)),
        }
    }

    #[inline]
    fn fold(&self, _alloc: Global, f: u16, acc: &i64, x: &i64) -> Result<i64, Fault> {
        match f {
            1 => match acc.checked_add(*x) {
                Some(sum) => Ok(sum),
                None => Err(Fault::Code(TOO_LARGE)),
            },
            _ => Err(Fault::Code(UNLISTED)),
        }
    }

    #[inline]
    fn key(&self, f: u16, x: &i64) -> Result<u64, Fault> {
        match f {
            1 => Ok(x.rem_euclid(3).unsigned_abs()),
            2 => Ok(x.cast_unsigned()),
            3 => Ok(x.rem_euclid(1000).unsigned_abs()),
            _ => Err(Fault::Code(UNLISTED)),
        }
    }

    fn expand(&self, _alloc: Global, _f: u16, _x: &i64) -> Result<Vec<i64>, Fault> {
        Err(Fault::Code(UNLISTED))
    }

    fn row(&self, _alloc: Global, _xs: &[i64]) -> Result<i64, NoMemory> {
        Ok(0)
    }

    fn list(&self, _alloc: Global, xs: &[i64]) -> Result<i64, NoMemory> {
        match xs.first() {
            Some(x) => Ok(*x),
            None => Ok(0),
        }
    }

    fn tag(&self, _alloc: Global, _key: u64, x: &i64) -> Result<i64, NoMemory> {
        Ok(*x)
    }

    #[inline]
    fn copy(&self, _alloc: Global, x: &i64) -> Result<i64, NoMemory> {
        Ok(*x)
    }

    #[inline]
    fn from_i64(&self, _alloc: Global, v: i64) -> Result<i64, NoMemory> {
        Ok(v)
    }
}
