//! How a subscription stands.

/// How a subscription stands.
#[derive(Clone, Copy, Debug, PartialEq, Eq)]
pub enum SubscriptionState {
    /// It may get signals.
    Open,
    /// It got the ending of its expression (rule 1.6).
    Ended,
    /// Its subscriber cancelled it while it was open (rule 3.5).
    Cancelled,
    /// A bad request closed it (rule 3.9).
    Refused,
}
