//! An expression that is run, where its items find no memory.

use rsx_demo::{Demo, Val};
use rsx_model::Expr;
use rsx_modes::{VerifyRefusal, verify};
use rsx_types::{Fault, NoMemory, Ops};
use std::alloc::Global;

/// The functions of the demonstration, where no number of a range finds memory.
#[derive(Clone, Copy)]
struct Scarce;

impl Ops for Scarce {
    type Item = Val;

    ghost use Rattle.std.specs.Prelude.{true};
    ghost use Rattle.rsx_demo.specs.Demo.{demo_allocates, demo_meaning};
    ghost use Rattle.rsx_demo.specs.Lawful.{demo_lawful};

    ghost meaning = { λ _. demo_meaning };

    ghost allocates = { λ _. record demo_allocates { number = true } };

    fn map(&self, alloc: Global, f: u16, x: &Val) -> Result<Val, Fault> {
        Demo.map(alloc, f, x)
    }

    fn test(&self, f: u16, x: &Val) -> Result<bool, Fault> {
        Demo.test(f, x)
    }

    fn fold(&self, alloc: Global, f: u16, acc: &Val, x: &Val) -> Result<Val, Fault> {
        Demo.fold(alloc, f, acc, x)
    }

    fn key(&self, f: u16, x: &Val) -> Result<u64, Fault> {
        Demo.key(f, x)
    }

    fn expand(&self, alloc: Global, f: u16, x: &Val) -> Result<Vec<Val>, Fault> {
        Demo.expand(alloc, f, x)
    }

    fn row(&self, alloc: Global, xs: &[Val]) -> Result<Val, NoMemory> {
        Demo.row(alloc, xs)
    }

    fn list(&self, alloc: Global, xs: &[Val]) -> Result<Val, NoMemory> {
        Demo.list(alloc, xs)
    }

    fn tag(&self, alloc: Global, key: u64, x: &Val) -> Result<Val, NoMemory> {
        Demo.tag(alloc, key, x)
    }

    fn copy(&self, alloc: Global, x: &Val) -> Result<Val, NoMemory> {
        Demo.copy(alloc, x)
    }

    fn from_i64(&self, _alloc: Global, _v: i64) -> Result<Val, NoMemory> {
        Err(NoMemory)
    }

    ghost lawful = { λ _. demo_lawful };
}

/// The items of the range are asked for, so want of memory for them is met.
#[test]
fn an_expression_is_run(rt: HostRuntime) {
    let refusal = verify(rt.alloc(), Scarce, &Expr::Range(1, 5)).err();
    assert_eq!(rt; refusal, Some(VerifyRefusal::NoMemory));
}
