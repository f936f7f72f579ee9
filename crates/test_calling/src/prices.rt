//! Prices in cents, and the functions that operators call on them.

use rsx::{ExpandFn, Fault, FoldFn, MapFn, NoMemory, Ops, TestFn};
use std::alloc::Global;

/// `map`: the price with 5.00 of postage. Fault 1 where the sum leaves the type.
pub const WITH_POSTAGE: MapFn = MapFn(1);

/// `filter`: whether a price is below 20.00.
pub const CHEAP: TestFn = TestFn(1);

/// `scan`: the total with the next price. Fault 3 where it is above 50.00 or leaves the type.
pub const WITHIN_BUDGET: FoldFn = FoldFn(1);

/// `flatMap`: the price, and behind it 5.00 of postage.
pub const PARTS: ExpandFn = ExpandFn(1);

/// The functions of this program. A function that isn't listed has fault 2.
#[derive(Clone, Copy)]
pub struct Prices;

impl Ops for Prices {
    type Item = i64;

    ghost use Rattle.std.specs.Prelude.{Ok, Err, pos, negsuc, true, [], ◌∷◌, int_le, int_lt, ◌+ℤ◌, ◌==◌, ◌&&◌, if◌then◌else◌};
    ghost use Rattle.std.proofs.Common.{rules};
    ghost use Rattle.rsx.specs.Meaning.{none_allocates};

    ghost meaning = { λ o. record {
      mapped = λ f x. if f == 1 then (if int_le (x +ℤ pos 500) (pos 9223372036854775807) then Ok (x +ℤ pos 500) else Err 1) else Err 2;
      tested = λ f x. if f == 1 then Ok (int_lt x (pos 2000)) else Err 2;
      folded = λ f a x. if f == 1 then (if int_le (negsuc 9223372036854775807) (a +ℤ x) && int_le (a +ℤ x) (pos 5000) then Ok (a +ℤ x) else Err 3) else Err 2;
      keyed = λ f x. Err 2;
      expanded = λ f x. if f == 1 then Ok (x ∷ pos 500 ∷ []) else Err 2;
      row_of = λ xs. pos 0;
      list_of = λ xs. pos 0;
      tagged = λ k x. x;
      number = λ v. v;
    } };

    ghost allocates = { λ o. record none_allocates { expanded = true } };

    ghost lawful = { λ o. record { map_fault = λ f x. Prim.search rules; test_fault = λ f x. Prim.search rules; fold_fault = λ f a x. Prim.search rules; key_fault = λ f x. Prim.search rules; expansion = λ f x. Prim.search rules } };

    fn map(&self, _alloc: Global, f: u16, x: &i64) -> Result<i64, Fault> {
        if f != WITH_POSTAGE.0 {
            return Err(Fault::Code(2));
        }
        match x.checked_add(500) {
            Some(sum) => Ok(sum),
            None => Err(Fault::Code(1)),
        }
    }

    fn test(&self, f: u16, x: &i64) -> Result<bool, Fault> {
        if f == CHEAP.0 {
            Ok(*x < 2000)
        } else {
            Err(Fault::Code(2))
        }
    }

    fn fold(&self, _alloc: Global, f: u16, acc: &i64, x: &i64) -> Result<i64, Fault> {
        if f != WITHIN_BUDGET.0 {
            return Err(Fault::Code(2));
        }
        match acc.checked_add(*x) {
            Some(total) if total <= 5000 => Ok(total),
            _ => Err(Fault::Code(3)),
        }
    }

    fn key(&self, _f: u16, _x: &i64) -> Result<u64, Fault> {
        Err(Fault::Code(2))
    }

    fn expand(&self, alloc: Global, f: u16, x: &i64) -> Result<Vec<i64>, Fault> {
        if f != PARTS.0 {
            return Err(Fault::Code(2));
        }
        match vec![in alloc; *x, 500] {
            Ok(parts) => Ok(parts),
            Err(_) => Err(Fault::Memory),
        }
    }

    fn row(&self, _alloc: Global, _xs: &[i64]) -> Result<i64, NoMemory> {
        Ok(0)
    }

    fn list(&self, _alloc: Global, _xs: &[i64]) -> Result<i64, NoMemory> {
        Ok(0)
    }

    fn tag(&self, _alloc: Global, _key: u64, x: &i64) -> Result<i64, NoMemory> {
        Ok(*x)
    }

    fn copy(&self, _alloc: Global, x: &i64) -> Result<i64, NoMemory> {
        Ok(*x)
    }

    fn from_i64(&self, _alloc: Global, v: i64) -> Result<i64, NoMemory> {
        Ok(v)
    }
}
