//! Rule tables: [`rules!`] writes a `match` by rows, in the body of a function.
//!
//! A table goes over a state and a signal, of any two types. Each row has a pattern for the state, a
//! pattern for the signal, where it needs one a guard, and then the new state and the effect:
//!
//! ```text
//! rules! { turnstile, touch;
//!     _, Touch::Kick => Turnstile::Broken, Effect::Alarm;
//!     same @ (Turnstile::Locked | Turnstile::Broken), Touch::Push => same, Effect::Held;
//!     Turnstile::Locked, Touch::Coin(worth), worth > 0 => Turnstile::Paid(worth), Effect::Opened;
//!     Turnstile::Paid(1), Touch::Push => Turnstile::Locked, Effect::Passed;
//!     Turnstile::Paid(left), Touch::Push, left > 0 => Turnstile::Paid(left - 1), Effect::Passed;
//!     same, _ => same, Effect::Nothing;
//! }
//! ```
//!
//! The module [`example`] has this table whole, with its contract.
//!
//! - The rows are tried in the order written, and the first that fits decides. So rows may overlap.
//! - The patterns are those of a `match`: they bind values, which the guard, the new state and the
//!   effect may use, and have alternatives by `|`, and `_`.
//! - The new state and the effect are any expressions. The table's value is the pair of them.
//! - **The last row is total**: it has no guard, and its patterns fit whatever comes, as `_` or a name
//!   does. A table whose last row isn't total doesn't compile, even where its rows name every case:
//!   what happens in all the other cases is always written. Nor does a table with a row that no case
//!   reaches, or with no row.
//! - A table has at most 100 rows.
//!
//! The macro has no contract. What it writes is proved as part of the function around it, a sum in a
//! row under that row's guard.
#![tactic(auto)]

pub mod example;

/// A table over a state and a signal, as the crate's page says: rows
/// `state, signal, guard => new state, effect;`, of which the last is total. Its value is the pair of
/// the new state and the effect.
#[macro_export]
macro_rules! rules {
    ($state:expr, $signal:expr; $($rows:tt)+) => {
        $crate::rules!(@rows [$state, $signal] [] $($rows)+)
    };
    // The last row. Each `let` refuses a pattern that does not fit whatever comes.
    (@rows [$state:expr, $signal:expr] [$($arms:tt)*] $from:pat, $on:pat => $to:expr, $effect:expr $(;)?) => {
        match ($state, $signal) {
            $($arms)*
            (state, signal) => {
                let ($from) = state;
                let ($on) = signal;
                ($to, $effect)
            }
        }
    };
    // A row above the last becomes an arm.
    (@rows [$state:expr, $signal:expr] [$($arms:tt)*] $from:pat, $on:pat $(, $guard:expr)? => $to:expr, $effect:expr; $($rows:tt)+) => {
        $crate::rules!(@rows [$state, $signal] [$($arms)* ($from, $on) $(if $guard)? => ($to, $effect),] $($rows)+)
    };
}
