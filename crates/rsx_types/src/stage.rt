//! Plain operators: one input, one output, and no choice.

/// One plain operator. The number of a function names a function of the caller.
#[derive(Debug, PartialEq, Eq, Drop)]
pub enum Stage<T> {
    /// The answer for each item, by `Ops::map`.
    Map(u16),
    /// The items whose test is true, by `Ops::test`.
    Filter(u16),
    /// The first items, as many as this, and then the completion: 0 to 1,000,000 (`MOST_COUNT` of `rsx_model`).
    Take(u64),
    /// A seed, and then the accumulation after each item, by `Ops::fold`.
    Scan(u16, T),
    /// Lists of so many items, by `Ops::list`: 1 to [`MOST_ITEMS`](crate::MOST_ITEMS). A shorter last list comes out at the
    /// completion alone.
    Buffer(u64),
    /// The first item of each key, by `Ops::key`.
    ///
    /// The keys that were seen stand in a hash table whose hash is the same in every run. Whoever picks the keys can make
    /// them fall together, so that each new key takes time in proportion to those before it, and with ever new keys the
    /// table grows without a limit. What comes out stays right. Where keys come from strangers, let `Ops::key` put the number
    /// through a permutation of the 64 bits by a secret of the caller's (an `impl Ops` may have fields), and bound the items
    /// by a `Take` below.
    Distinct(u16),
}
