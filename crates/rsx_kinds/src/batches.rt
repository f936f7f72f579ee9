//! Batches through nodes of any kind. Ranges make them, and nodes that read a hub, of items that are copied at next to no cost; and plain
//! operators, a concat, a merge, a combineLatest and a `publishOn` with an empty queue pass them on. A node that reads a hub takes in
//! several of its items at once, and as the root of its tree it lets several out at once, with no copy.

ghost use Rattle.std.specs.Prelude.{◌≡◌, [], true, IfSome};
ghost use Rattle.rsx_kinds.specs.Spaces.{any_spaces, source_spaces};
ghost use Rattle.rsx_kinds.specs.Went.{any_went, several_went, source_went};
ghost use Rattle.rsx_merging.specs.PublishOn.{publish_takes};
ghost use Rattle.rsx_rooted.specs.Resting.{IsAtRest};

use crate::zip_rows::RowsOut;
use crate::{AnyNode, SeveralNode, SourceNode};
use rsx_combining::PassingRows;
use rsx_merging::PublishOnNode;
use rsx_rooted::{After, Batches, FEWEST_IN_BATCH, Noted, want_of_resting};
use rsx_sources::{Front, Machine};
use rsx_types::Ops;
use std::alloc::Global;

/// The most rows that are made at once. For more of them a piece of memory would be wanted that is so large that allocators put all
/// small free ones together first, in which the rows of lists of items find their place.
const MOST_ROWS: u64 = 32;

impl<T: Drop> Batches for SourceNode<T> {
    ghost went = { source_went };

    ghost spaces_of = { source_spaces };

    #[inline]
    fn most(&self) -> u64 {
        match self {
            SourceNode::Range(node) => node.most(),
            SourceNode::Hub(node) => node.most(),
            SourceNode::Items(_) => 0,
        }
    }

    #[inline(always)]
    fn peek<O: Ops<Item = T>>(
        &self,
        alloc: Global,
        ops: &O,
        most: u64,
        items: &mut Vec<T>,
    ) -> Option<Noted<T>> {
        match self {
            SourceNode::Range(node) => node.peek(alloc, ops, most, items),
            SourceNode::Hub(node) => node.peek(alloc, ops, most, items),
            SourceNode::Items(_) => None,
        }
    }

    fn try_pass<O: Ops<Item = T>>(
        &self,
        alloc: Global,
        ops: &O,
        input: u64,
        items: &mut Vec<T>,
        spare: &mut Vec<T>,
    ) -> Option<Noted<T>> {
        None
    }

    #[inline]
    fn take_out<O: Ops<Item = T>>(
        &mut self,
        alloc: Global,
        ops: &O,
        most: u64,
        items: &mut Vec<T>,
    ) -> bool {
        match self {
            SourceNode::Hub(node) => node.take_out(alloc, ops, most, items),
            SourceNode::Items(_) | SourceNode::Range(_) => false,
        }
    }

    fn go_on(&mut self, noted: Noted<T>)
        ensures { source_went self.old noted self.new }
    {
        match self {
            SourceNode::Range(node) => node.go_on(noted),
            SourceNode::Hub(node) => node.go_on(noted),
            SourceNode::Items(_) => {},
        }
    }

    fn spaces(&self) -> u64 {
        match self {
            SourceNode::Hub(node) => node.spaces(),
            SourceNode::Items(_) | SourceNode::Range(_) => 0,
        }
    }

    fn take_in_many(&mut self, items: &mut Vec<T>, count: u64) {
        match self {
            SourceNode::Hub(node) => Batches::take_in_many(node, items, count),
            SourceNode::Items(_) | SourceNode::Range(_) => {},
        }
    }
}

impl<T: Drop> Batches for SeveralNode<T> {
    ghost went = { several_went };

    ghost spaces_of = { λ n. 0 };

    #[inline]
    fn most(&self) -> u64 {
        match self {
            SeveralNode::Concat(_) => u64::MAX,
            SeveralNode::Merge(node) => match node.records().last() {
                Some(run) if node.merges_through(run.input, FEWEST_IN_BATCH) => u64::MAX,
                _ => 0,
            },
            SeveralNode::Latest(node) => match node.records().last() {
                Some(run) if node.rows_through(run.input, FEWEST_IN_BATCH) => u64::MAX,
                _ => 0,
            },
            SeveralNode::MergeDelay(_) | SeveralNode::Zip(_) => 0,
        }
    }

    fn peek<O: Ops<Item = T>>(
        &self,
        alloc: Global,
        ops: &O,
        most: u64,
        items: &mut Vec<T>,
    ) -> Option<Noted<T>> {
        None
    }

    /// The items of a concat's input whose turn it is go through as they are. Where the last choice was of the same input, so do those of
    /// a merge, and those of a combineLatest as rows; each is picked at once.
    fn try_pass<O: Ops<Item = T>>(
        &self,
        alloc: Global,
        ops: &O,
        input: u64,
        items: &mut Vec<T>,
        spare: &mut Vec<T>,
    ) -> Option<Noted<T>> {
        match self {
            SeveralNode::Concat(node) => {
                if !node.can_take(input, Front::Item) {
                    return None;
                }
                Some(Noted {
                    took: items.len() as u64,
                    steps: 0,
                    by_step: false,
                    after: After::Counted,
                })
            }
            SeveralNode::Merge(node) => {
                let count = items.len() as u64;
                if !node.merges_through(input, count) {
                    return None;
                }
                Some(Noted {
                    took: count,
                    steps: count,
                    by_step: true,
                    after: After::Picked(input),
                })
            }
            SeveralNode::Latest(node) => {
                let count = items.len() as u64;
                match node.try_rows(alloc, ops, input, items) {
                    Some(last) => Some(Noted {
                        took: count,
                        steps: count,
                        by_step: true,
                        after: After::Latest(input, last),
                    }),
                    None => None,
                }
            }
            SeveralNode::MergeDelay(_) | SeveralNode::Zip(_) => None,
        }
    }

    /// A zip makes rows of the items that wait at all of its inputs.
    #[inline]
    fn step_items<O: Ops<Item = T>>(
        &mut self,
        alloc: Global,
        ops: &O,
        most: u64,
        items: &mut Vec<T>,
    ) -> bool {
        match self {
            SeveralNode::Zip(node) => match node.queued_at(0) {
                Some(waiting) if waiting >= FEWEST_IN_BATCH => node.rows_out(
                    alloc,
                    ops,
                    most.min(MOST_ROWS),
                    items,
                ),
                _ => false,
            },
            SeveralNode::Concat(_)
            | SeveralNode::Merge(_)
            | SeveralNode::MergeDelay(_)
            | SeveralNode::Latest(_) => false,
        }
    }

    fn go_on(&mut self, noted: Noted<T>)
        ensures { several_went self.old noted self.new }
    {
        let took = noted.took;
        match self {
            SeveralNode::Concat(node) => {
                if let After::Counted = noted.after {
                    node.count_passed(took);
                }
            }
            SeveralNode::Merge(node) => {
                if let After::Picked(input) = noted.after {
                    // It does so each time that it noted this.
                    if node.merges_through(input, took) {
                        node.count_merged(input, took);
                    }
                }
            }
            SeveralNode::Latest(node) => {
                if let After::Latest(input, last) = noted.after {
                    if node.rows_through(input, took) {
                        node.count_rows(input, took, last);
                    }
                }
            }
            SeveralNode::MergeDelay(_) | SeveralNode::Zip(_) => {},
        }
    }

    fn spaces(&self) -> u64 {
        0
    }

    fn take_in_many(&mut self, items: &mut Vec<T>, count: u64) {}
}

impl<T: Drop> Batches for AnyNode<T> {
    ghost went = { any_went };

    ghost spaces_of = { any_spaces };

    #[inline]
    fn want_at_rest(&self, asked: u64, sent: u64) -> Option<u64> {
        match self {
            AnyNode::Plain(node) => want_of_resting(node, asked, sent),
            AnyNode::Source(node) => want_of_resting(node, asked, sent),
            AnyNode::Several(node) => want_of_another(node, asked, sent),
            AnyNode::PublishOn(node) => want_of_another(node, asked, sent),
            AnyNode::PublishOnEager(node) => want_of_another(node, asked, sent),
            AnyNode::Window(node) => want_of_another(node, asked, sent),
            AnyNode::FlatMap(node) => want_of_another(node, asked, sent),
            AnyNode::FlatMapDelay(node) => want_of_another(node, asked, sent),
            AnyNode::GroupBy(node) => want_of_another(node, asked, sent),
        }
    }

    #[inline]
    fn most(&self) -> u64 {
        match self {
            AnyNode::Source(node) => node.most(),
            AnyNode::Plain(node) => node.most(),
            AnyNode::Several(node) => node.most(),
            AnyNode::PublishOn(_) => u64::MAX,
            AnyNode::PublishOnEager(_)
            | AnyNode::Window(_)
            | AnyNode::FlatMap(_)
            | AnyNode::FlatMapDelay(_)
            | AnyNode::GroupBy(_) => 0,
        }
    }

    #[inline(always)]
    fn peek<O: Ops<Item = T>>(
        &self,
        alloc: Global,
        ops: &O,
        most: u64,
        items: &mut Vec<T>,
    ) -> Option<Noted<T>> {
        match self {
            AnyNode::Source(node) => node.peek(alloc, ops, most, items),
            AnyNode::Plain(_)
            | AnyNode::Several(_)
            | AnyNode::PublishOn(_)
            | AnyNode::PublishOnEager(_)
            | AnyNode::Window(_)
            | AnyNode::FlatMap(_)
            | AnyNode::FlatMapDelay(_)
            | AnyNode::GroupBy(_) => None,
        }
    }

    fn try_pass<O: Ops<Item = T>>(
        &self,
        alloc: Global,
        ops: &O,
        input: u64,
        items: &mut Vec<T>,
        spare: &mut Vec<T>,
    ) -> Option<Noted<T>> {
        match self {
            AnyNode::Plain(node) => node.try_pass(alloc, ops, input, items, spare),
            AnyNode::Several(node) => node.try_pass(alloc, ops, input, items, spare),
            AnyNode::PublishOn(node) => {
                if !goes_through(node, input) {
                    return None;
                }
                Some(Noted {
                    took: items.len() as u64,
                    steps: 0,
                    by_step: false,
                    after: After::Counted,
                })
            }
            AnyNode::Source(_)
            | AnyNode::PublishOnEager(_)
            | AnyNode::Window(_)
            | AnyNode::FlatMap(_)
            | AnyNode::FlatMapDelay(_)
            | AnyNode::GroupBy(_) => None,
        }
    }

    #[inline]
    fn take_out<O: Ops<Item = T>>(
        &mut self,
        alloc: Global,
        ops: &O,
        most: u64,
        items: &mut Vec<T>,
    ) -> bool {
        match self {
            AnyNode::Source(node) => node.take_out(alloc, ops, most, items),
            AnyNode::Plain(_)
            | AnyNode::Several(_)
            | AnyNode::PublishOn(_)
            | AnyNode::PublishOnEager(_)
            | AnyNode::Window(_)
            | AnyNode::FlatMap(_)
            | AnyNode::FlatMapDelay(_)
            | AnyNode::GroupBy(_) => false,
        }
    }

    #[inline]
    fn step_items<O: Ops<Item = T>>(
        &mut self,
        alloc: Global,
        ops: &O,
        most: u64,
        items: &mut Vec<T>,
    ) -> bool {
        match self {
            AnyNode::Several(node) => node.step_items(alloc, ops, most, items),
            AnyNode::Source(_)
            | AnyNode::Plain(_)
            | AnyNode::PublishOn(_)
            | AnyNode::PublishOnEager(_)
            | AnyNode::Window(_)
            | AnyNode::FlatMap(_)
            | AnyNode::FlatMapDelay(_)
            | AnyNode::GroupBy(_) => false,
        }
    }

    fn go_on(&mut self, noted: Noted<T>)
        ensures { any_went self.old noted self.new }
    {
        match self {
            AnyNode::Source(node) => node.go_on(noted),
            AnyNode::Plain(node) => node.go_on(noted),
            AnyNode::Several(node) => node.go_on(noted),
            AnyNode::PublishOn(_)
            | AnyNode::PublishOnEager(_)
            | AnyNode::Window(_)
            | AnyNode::FlatMap(_)
            | AnyNode::FlatMapDelay(_)
            | AnyNode::GroupBy(_) => {},
        }
    }

    #[inline]
    fn spaces(&self) -> u64 {
        match self {
            AnyNode::Source(node) => node.spaces(),
            AnyNode::Plain(_)
            | AnyNode::Several(_)
            | AnyNode::PublishOn(_)
            | AnyNode::PublishOnEager(_)
            | AnyNode::Window(_)
            | AnyNode::FlatMap(_)
            | AnyNode::FlatMapDelay(_)
            | AnyNode::GroupBy(_) => 0,
        }
    }

    #[inline]
    fn take_in_many(&mut self, items: &mut Vec<T>, count: u64) {
        match self {
            AnyNode::Source(node) => node.take_in_many(items, count),
            AnyNode::Plain(_)
            | AnyNode::Several(_)
            | AnyNode::PublishOn(_)
            | AnyNode::PublishOnEager(_)
            | AnyNode::Window(_)
            | AnyNode::FlatMap(_)
            | AnyNode::FlatMapDelay(_)
            | AnyNode::GroupBy(_) => {},
        }
    }
}

/// As [`want_of_resting`], of a node that is neither a plain operator nor a source. It isn't inlined, so that the look at those stays
/// short.
#[inline(never)]
fn want_of_another<M: Machine>(node: &M, asked: u64, sent: u64) -> Option<u64>
    ensures { IfSome result (λ want. IsAtRest M.Machine node.now asked sent want) }
{
    want_of_resting(node, asked, sent)
}

/// Whether an item of this input goes through without a stay in the queue.
fn goes_through<T: Drop>(node: &PublishOnNode<T>, input: u64) -> bool
    ensures { result ≡ true → (node.now.input.queue.items ≡ []) × (publish_takes node.now input Front.Item ≡ true) }
{
    node.input.queue.is_empty() && node.can_take(input, Front::Item)
}
