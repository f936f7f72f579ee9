//! Numbers that lanes keep to.

/// The number by which a choice names Main, which has the ending of the input; lanes are numbered from 0 on.
pub const MAIN: u64 = 18_446_744_073_709_551_615;

/// How many keys one `groupBy` has at most, and so how many lanes.
pub const MOST_KEYS: usize = 1_024;

/// The number of the fault that stands for a key too many of one `groupBy`. No function of a caller has it.
pub const TOO_MANY_KEYS: u32 = 4_294_967_295;
