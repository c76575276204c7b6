//! Places of a ring.
ghost use Rattle.std.specs.Prelude.{◌+◌, ◌<◌, ◌≤◌};
ghost use Rattle.rings.specs.Ring.{Wrapped};

/// The place `k` behind `head` in a ring of `room` places: past the last comes the first.
pub fn place(head: usize, k: usize, room: usize) -> usize
    requires head_in { head < room }
    requires within { k ≤ room }
    ensures { Wrapped room (head + k) result }
{
    let behind = room - head;
    if k < behind { head + k } else { k - behind }
}
