//! How many workers the regions of a graph need.

ghost use Rattle.std.specs.Prelude.{◌≡◌, ◌<◌, false, true};
ghost use Rattle.rsx_live.specs.Workers.{HaveRegions};
ghost use Rattle.rsx_region.specs.Pieces.{Each};

use rsx_graph::Regions;
use rsx_runtime::MOST_WORKERS;

/// Whether there may be so many workers, and all regions of subscriptions and feeds are below their number.
pub(crate) fn has_regions(regions: &Regions, workers: u8) -> bool
    ensures yes { result ≡ true → HaveRegions workers regions.now }
    ensures no { result ≡ false → HaveRegions workers regions.now → ⊥ }
{
    if workers == 0 || workers > MOST_WORKERS {
        return false;
    }
    are_below(&regions.roots, workers)
        && all_below(&regions.senders, workers)
        && all_below(&regions.feed_senders, workers)
}

/// Whether each of these numbers is below that.
fn are_below(regions: &[u8], workers: u8) -> bool
    ensures yes { result ≡ true → Each (λ r. r < workers) regions.now }
    ensures no { result ≡ false → Each (λ r. r < workers) regions.now → ⊥ }
{
    let Some((first, others)) = regions.split_first() else {
        return true;
    };
    *first < workers && are_below(others, workers)
}

/// Whether each number of all these lists is.
fn all_below(lists: &[Vec<u8>], workers: u8) -> bool
    ensures yes { result ≡ true → Each (λ l. Each (λ r. r < workers) l.items) lists.now }
    ensures no { result ≡ false → Each (λ l. Each (λ r. r < workers) l.items) lists.now → ⊥ }
{
    let Some((first, others)) = lists.split_first() else {
        return true;
    };
    are_below(first, workers) && all_below(others, workers)
}
