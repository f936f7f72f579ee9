//! Signals, endings and causes.

/// Why a stream failed.
#[derive(Clone, Copy, Debug, PartialEq, Eq)]
pub enum Cause {
    /// The emitter of a hub failed it with this number.
    User(u32),
    /// A function of the caller had the fault with this number.
    Function(u32),
    /// A subscriber requested 0 items or fewer (rule 3.9).
    NonPositiveRequest,
}

/// How a stream value ends.
#[derive(Clone, Copy, Debug, PartialEq, Eq)]
pub enum Ending {
    /// Not yet: more may come.
    Open,
    /// By a completion.
    Done,
    /// By a failure.
    Failed(Cause),
}

/// One signal to a subscriber.
#[derive(Debug, PartialEq, Eq, Drop)]
pub enum Signal<T> {
    /// `onNext` with this item.
    Next(T),
    /// `onComplete` (rule 1.5).
    Complete,
    /// `onError` with this cause (rule 1.4).
    Error(Cause),
}
