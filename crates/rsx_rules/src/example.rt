//! A table as a reader should write one: a turnstile that is paid by coins.
//!
//! It has guards, bound values, alternatives, and rows that overlap, where the upper one decides.

ghost use Rattle.std.specs.Prelude.{◌≡◌};
ghost use Rattle.rsx_rules.specs.Turnstile.{turned};

use crate::rules;

/// Where a turnstile stands.
#[derive(Clone, Copy, Debug, PartialEq, Eq)]
pub enum Turnstile {
    /// Nothing is paid.
    Locked,
    /// So many passages are paid.
    Paid(u32),
    /// It lets nobody pass any more.
    Broken,
}

/// What is done to a turnstile.
#[derive(Clone, Copy, Debug, PartialEq, Eq)]
pub enum Touch {
    /// A coin that pays so many passages.
    Coin(u32),
    /// Somebody pushes it, to pass.
    Push,
    /// Somebody kicks it.
    Kick,
}

/// What a touch does.
#[derive(Clone, Copy, Debug, PartialEq, Eq)]
pub enum Effect {
    /// Passages were paid.
    Opened,
    /// Somebody passed.
    Passed,
    /// Nobody passed.
    Held,
    /// It broke, or was kicked again.
    Alarm,
    /// The touch did nothing. A coin is returned.
    Nothing,
}

/// The turnstile after the touch, and what the touch did.
pub fn turn(turnstile: Turnstile, touch: Touch) -> (Turnstile, Effect)
    ensures { result ≡ turned turnstile touch }
{
    rules! { turnstile, touch;
        _, Touch::Kick => Turnstile::Broken, Effect::Alarm;
        same @ (Turnstile::Locked | Turnstile::Broken), Touch::Push => same, Effect::Held;

        Turnstile::Locked, Touch::Coin(worth), worth > 0 => Turnstile::Paid(worth), Effect::Opened;
        Turnstile::Paid(left), Touch::Coin(worth), worth <= u32::MAX - left =>
            Turnstile::Paid(left + worth), Effect::Opened;

        // Both fit the last passage that is paid, and the upper one decides.
        Turnstile::Paid(1), Touch::Push => Turnstile::Locked, Effect::Passed;
        Turnstile::Paid(left), Touch::Push, left > 0 => Turnstile::Paid(left - 1), Effect::Passed;

        same, _ => same, Effect::Nothing;
    }
}
