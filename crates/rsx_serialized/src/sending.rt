//! The signal that was delivered first is sent to its tap.

ghost use Rattle.std.specs.Prelude.{◌≡◌, ◌<◌, IfNone, IfSome, [], false, length};
ghost use Rattle.rsx_link.specs.Ends.{IsUpOf};
ghost use Rattle.rsx_link.specs.Signals.{is_item as is_item_signal};
ghost use Rattle.rsx_serialized.specs.Resting.{FindsNoRoom};
ghost use Rattle.rsx_serialized.specs.Sending.{IsFirstFor, IsOffered, SendsFirst};

use crate::ends::ToTap;
use rsx_link::Link;
use rsx_types::{Signal, SubId};
use std::collections::VecDeque;

/// The number of the subscription to which the first of these goes, if there is one.
pub(crate) fn first_sub<T>(pending: &VecDeque<(SubId, Signal<T>)>) -> Option<usize>
    ensures some { IfSome result (λ n. IsFirstFor n pending.now.items) }
    ensures none { IfNone result (length pending.now.items ≡ 0) }
{
    if pending.is_empty() {
        return None;
    }
    Some(pending[0].0.0 as usize)
}

/// Sends the first of these to its tap, where that takes it, and whether it did.
pub(crate) fn send_first<T: Drop>(
    pending: &mut VecDeque<(SubId, Signal<T>)>,
    outlet: &mut ToTap<T>,
    link: &Link<T>,
) -> bool
    requires end { IsUpOf link.now outlet.old.up }
    requires some { 0 < length pending.old.items }
    ensures kept { IsOffered link.now outlet.old outlet.new }
    ensures sent { SendsFirst result pending.old.items pending.new.items outlet.old outlet.new }
    ensures full { result ≡ false → FindsNoRoom pending.new.items outlet.new }
{
    let item = is_item(&pending[0].1);
    if !outlet.has_room(item) {
        return false;
    }
    match pending.pop_front() {
        Some((_, signal)) => {
            outlet.send(link, signal);
            true
        }
        // One waits.
        None => false,
    }
}

/// Whether the signal is an item.
fn is_item<T>(signal: &Signal<T>) -> bool
    ensures { result ≡ is_item_signal signal.now }
{
    matches!(signal, Signal::Next(_))
}
