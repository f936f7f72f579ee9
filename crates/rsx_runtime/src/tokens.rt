//! What is known of a parker's token.

ghost use Rattle.rsx_runtime.specs.Tokens.{AreTaken, Takes, Unparks, tokens};

use crossbeam_utils::rule::{Outcome, Protocol};

/// What a pass of a parker knows. No value of it is made.
pub struct Tokens {
    /// How often it unparked.
    pub unparks: u64,
    /// How often an unpark gave a token, since none was there.
    pub given: u64,
    /// How often it took the token.
    pub taken: u64,
}

/// The rule of a parker: over all its passes, what was given was taken, but for the token that is there.
pub struct TokenRule;

impl Protocol<bool, Tokens> for TokenRule {
    ghost holds = { AreTaken };

    ghost first = { tokens 0 0 0 };
}

/// What an unpark tells.
pub(crate) struct Unpark;

impl Outcome<bool, Tokens> for Unpark {
    ghost then = { Unparks };
}

/// What a park tells.
pub(crate) struct Take;

impl Outcome<bool, Tokens> for Take {
    ghost then = { Takes };
}
