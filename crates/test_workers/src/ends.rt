//! A link's two ends in one thread. That a queue which is called empty or full was so no clause says.

ghost use Rattle.std.specs.Prelude.{◌≡◌};
ghost use Rattle.rsx_link.specs.Ends.{IsCancelSeatOf, IsDownOf, IsUpOf};

use rsx_link::{CancelSeat, Down, Found, Link, Up};
use rsx_types::{Cause, Signal};
use std::test::Fail;

fn found(asked: u64, cancelled: bool, refused: bool) -> Found {
    Found {
        asked,
        cancelled,
        refused,
    }
}

// The number of an item; none for an ending, and where no signal was taken.
fn item(taken: Option<Signal<u64>>) -> Option<u64> {
    match taken {
        Some(Signal::Next(number)) => Some(number),
        Some(Signal::Complete | Signal::Error(_)) | None => None,
    }
}

// Whether it is the error of a bad request.
fn is_bad_request(answer: Option<Signal<u64>>) -> bool {
    matches!(answer, Some(Signal::Error(Cause::NonPositiveRequest)))
}

// Sends an item where it was asked for, and says whether the queue took it.
fn sends(link: &Link<u64>, up: &mut Up<u64>, item: u64) -> bool
    requires { IsUpOf link.now up.old }
    ensures { IsUpOf link.now up.new }
{
    up.room() > 0 && up.send(link, Signal::Next(item)).is_ok()
}

// Sends three items where they were asked for, and says how many the queue took.
fn sends_three(link: &Link<u64>, up: &mut Up<u64>) -> u64
    requires { IsUpOf link.now up.old }
    ensures { IsUpOf link.now up.new }
{
    let first = sends(link, up, 1);
    let second = sends(link, up, 2);
    let third = sends(link, up, 3);
    u64::from(first) + u64::from(second) + u64::from(third)
}

// Asks for no item and for less, and says which of the two was answered by an error.
fn asks_badly(link: &Link<u64>, down: &mut Down<u64>) -> (bool, bool)
    requires { IsDownOf link.now down.old }
    ensures { IsDownOf link.now down.new }
{
    let first = is_bad_request(down.ask(link, 0));
    let second = is_bad_request(down.ask(link, -1));
    (first, second)
}

// Cancels by a seat that is split off, and joined again.
fn cancels(link: &Link<u64>, cancel: &mut CancelSeat)
    requires { IsCancelSeatOf link.now cancel.old }
    ensures { IsCancelSeatOf link.now cancel.new }
{
    let mut other = cancel.split(link);
    other.cancel(link);
    cancel.join(link, other);
}

#[test]
fn one_thread(rt: HostRuntime) -> Result<(), Fail> {
    let (link, mut up, mut down, mut cancel) = Link::new(rt.alloc(), 4)?;
    let fresh = up.look(&link);
    let unasked = sends(&link, &mut up, 9);
    let asked = down.ask(&link, 3);
    let three = up.look(&link);
    let sent = sends_three(&link, &mut up);
    let first = item(down.take(&link));
    let refused = asks_badly(&link, &mut down);
    let bad = up.look(&link);
    cancels(&link, &mut cancel);
    let both = up.look(&link);
    let second = item(down.take(&link));
    let completed = up.send(&link, Signal::Complete).is_ok();
    let counts = (down.asked(), down.taken(), up.room());
    let mut closed = link.close(up, down, cancel);
    let words = (closed.asked, closed.cancelled, closed.refused);
    let left = closed.remaining.len();
    let third = item(closed.remaining.pop());
    let ending = closed.remaining.pop();
    let none = closed.remaining.pop();
    let is_empty = closed.remaining.is_empty();
    assert_eq!(rt; (unasked, sent, completed), (false, 3, true));
    assert_eq!(rt;
        (fresh, three),
        (found(0, false, false), found(3, false, false))
    );
    assert_eq!(rt; (bad, both), (found(3, false, true), found(3, true, true)));
    assert_eq!(rt; (asked, refused), (None, (true, false)));
    assert_eq!(rt; (first, second, third), (Some(1), Some(2), Some(3)));
    assert_eq!(rt; (counts, words, left), ((3, 2, 0), (3, true, true), 2));
    assert_eq!(rt;
        (ending, none, is_empty),
        (Some(Signal::Complete), None, true)
    );
    Ok(())
}
