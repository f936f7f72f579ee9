//! The operator at the root of an expression, in words, and what it stands over: one level of its text.

ghost use Rattle.std.specs.Prelude.{◌≡◌};
ghost use Rattle.rsx_demo.specs.declared.val.Val.{Val};
ghost use Rattle.rsx_model.specs.Shape.{children};
ghost use Rattle.rsx_model.specs.declared.expr.Expr.TheViews.{out-Expr};

use crate::names::Named;
use rsx_demo::{Role, Val};
use rsx_model::{Below, Expr, below_of};
use rsx_types::Stage;
use std::{fmt, slice};

/// The expressions that the root of an expression stands over, left to right.
pub(crate) fn inputs_of(expr: &Expr<Val>) -> &[Expr<Val>]
    ensures { result.now ≡ children (out-Expr Val expr.now) }
{
    match below_of(expr) {
        Below::One(input) => slice::from_ref(input),
        Below::Inputs(inputs) => inputs,
    }
}

/// The operator at the root of an expression.
#[derive(Clone, Copy)]
pub(crate) struct Operator<'e>(pub(crate) &'e Expr<Val>);

/// As its line has it, without the parentheses and the inputs.
impl fmt::Display for Operator<'_> {
    ghost use Rattle.std.specs.Prelude.{Some};
    ghost use Rattle.rsx_script.specs.Orders.{tree_of};
    ghost use Rattle.rsx_drive.specs.Drawn.{operator_text};

    ghost output = { λ operator. Some (operator_text (tree_of operator.0.now)) };

    fn fmt<W: fmt::Write>(&self, f: &mut fmt::Formatter<W>) -> fmt::Result {
        match self.0 {
            Expr::Items(items) => write!(f, "items{}", Items(items)),
            Expr::Range(first, count) => write!(f, "range {first} {count}"),
            Expr::Hub(hub) => write!(f, "hub {}", hub.0),
            Expr::Plain(stage, _) => write!(f, "{}", OneStage(stage)),
            Expr::Concat(_) => f.write_str("concat"),
            Expr::Merge(prefetch, _) => write!(f, "merge {prefetch}"),
            Expr::MergeDelay(prefetch, _) => write!(f, "mergeDelayError {prefetch}"),
            Expr::Zip(prefetch, _) => write!(f, "zip {prefetch}"),
            Expr::Latest(prefetch, _) => write!(f, "combineLatest {prefetch}"),
            Expr::Group(key, stages, _) => {
                let key = Named(Role::Key, *key);
                write!(f, "groupBy {key} ({})", Chain(stages))
            }
            Expr::Window(size, stages, _) => write!(f, "window {size} ({})", Chain(stages)),
            Expr::Flat(expand, concurrency, stages, _) => {
                let expand = Named(Role::Expand, *expand);
                write!(f, "flatMap {expand} {concurrency} ({})", Chain(stages))
            }
            Expr::FlatDelay(expand, concurrency, stages, _) => {
                let expand = Named(Role::Expand, *expand);
                write!(
                    f,
                    "flatMapDelayError {expand} {concurrency} ({})",
                    Chain(stages)
                )
            }
            Expr::On(worker, prefetch, _) => write!(f, "publishOn {worker} {prefetch}"),
            Expr::OnEager(worker, prefetch, _) => write!(f, "publishOnEager {worker} {prefetch}"),
        }
    }
}

/// The items of a list.
#[derive(Clone, Copy)]
struct Items<'e>(&'e [Val]);

/// Each item behind a space.
impl fmt::Display for Items<'_> {
    ghost use Rattle.std.specs.Prelude.{Some};
    ghost use Rattle.rsx_script.specs.Answers.{items_text};

    ghost output = { λ items. Some (items_text items.0.now) };

    fn fmt<W: fmt::Write>(&self, f: &mut fmt::Formatter<W>) -> fmt::Result {
        for item in self.0 {
            write!(f, " {item}")?;
        }
        Ok(())
    }
}

/// A plain operator with its functions and numbers.
#[derive(Clone, Copy)]
struct OneStage<'e>(&'e Stage<Val>);

impl fmt::Display for OneStage<'_> {
    ghost use Rattle.std.specs.Prelude.{Some};
    ghost use Rattle.rsx_drive.specs.Text.{stage_text};

    ghost output = { λ one. Some (stage_text one.0.now) };

    fn fmt<W: fmt::Write>(&self, f: &mut fmt::Formatter<W>) -> fmt::Result {
        match self.0 {
            Stage::Map(map) => write!(f, "map {}", Named(Role::Map, *map)),
            Stage::Filter(test) => write!(f, "filter {}", Named(Role::Test, *test)),
            Stage::Take(count) => write!(f, "take {count}"),
            Stage::Scan(fold, seed) => write!(f, "scan {} {seed}", Named(Role::Fold, *fold)),
            Stage::Buffer(size) => write!(f, "buffer {size}"),
            Stage::Distinct(key) => write!(f, "distinct {}", Named(Role::Key, *key)),
        }
    }
}

/// The operators of a chain.
#[derive(Clone, Copy)]
struct Chain<'e>(&'e [Stage<Val>]);

/// Each operator in parentheses, with a space between them.
impl fmt::Display for Chain<'_> {
    ghost use Rattle.std.specs.Prelude.{Some};
    ghost use Rattle.rsx_drive.specs.Text.{stages_text};

    ghost output = { λ chain. Some (stages_text chain.0.now) };

    fn fmt<W: fmt::Write>(&self, f: &mut fmt::Formatter<W>) -> fmt::Result {
        let Some((first, others)) = self.0.split_first() else {
            return Ok(());
        };
        write!(f, "({})", OneStage(first))?;
        for other in others {
            write!(f, " ({})", OneStage(other))?;
        }
        Ok(())
    }
}
