//! A list of gaps as a ring: `VecDeque` becomes fixed room with a count (01, "What must change shape"). The room is the type's.
ghost use Rattle.std.specs.Prelude.{◌≡◌, ◌∷◌, [], ◌++◌, ◌<◌, length};
ghost use Rattle.rules.specs.Lists.{rest, front_of, back_of, set_back, drop_below};
ghost use Rattle.rings.specs.View.{list_of, RingWf, RingIs, sound_ring};

use crate::place::place;
use types::ids::SeqNum;
use types::parts::Gap;

// Order is no invariant of the type: a record that a host hands in may have any head and count, which refusal 1 looks at.
/// `count` gaps, in order, from the place `head` on.
#[derive(Clone, Copy)]
pub struct Ring<const ROOM: usize> {
    pub slots: [Gap; ROOM],
    pub head: usize,
    pub count: usize,
}

impl<const ROOM: usize> Ring<ROOM> {
    /// No gaps.
    pub fn new() -> Self
        ensures is { list_of result ≡ [] }
        ensures wf { 0 < ROOM → RingWf result }
    {
        let none = Gap {
            from: SeqNum(0),
            end: SeqNum(0),
        };
        Ring {
            slots: [none; ROOM],
            head: 0,
            count: 0,
        }
    }

    /// Whether position and count are within the room (01, refusal 1).
    // By value, as `len`: its callers hold the record as a value.
    pub fn sound(self) -> bool
        ensures { result ≡ sound_ring self.entry }
    {
        self.head < ROOM && self.count <= ROOM
    }

    /// How many gaps there are.
    pub fn len(self) -> usize
        ensures { result ≡ length (list_of self.entry) }
    {
        self.count
    }

    /// The first gap.
    pub fn front(&self) -> Option<Gap>
        requires { RingWf self.now }
        ensures { result ≡ front_of (list_of self.now) }
    {
        if self.count == 0 {
            return None;
        }
        Some(self.slots[self.head])
    }

    /// The last gap.
    pub fn back(&self) -> Option<Gap>
        requires { RingWf self.now }
        ensures { result ≡ back_of (list_of self.now) }
    {
        if self.count == 0 {
            return None;
        }
        Some(self.slots[place(self.head, self.count - 1, ROOM)])
    }

    /// One more gap at the end: of a ring that has room.
    pub fn push_back(&mut self, gap: Gap)
        requires in_order { RingWf self.old }
        requires room { length (list_of self.old) < ROOM }
        ensures { RingIs self.new (list_of self.old ++ (gap ∷ [])) }
    {
        self.slots[place(self.head, self.count, ROOM)] = gap;
        self.count += 1;
    }

    /// All gaps but the first.
    pub fn pop_front(&mut self)
        requires { RingWf self.old }
        ensures { RingIs self.new (rest (list_of self.old)) }
    {
        if self.count == 0 {
            return;
        }
        self.head = place(self.head, 1, ROOM);
        self.count -= 1;
    }

    /// Another first gap: of a ring that has one.
    pub fn set_front(&mut self, gap: Gap)
        requires in_order { RingWf self.old }
        requires nonzero { 0 < length (list_of self.old) }
        ensures { RingIs self.new (gap ∷ rest (list_of self.old)) }
    {
        self.slots[self.head] = gap;
    }

    /// Another last gap: of a ring that has one.
    pub fn set_back(&mut self, gap: Gap)
        requires in_order { RingWf self.old }
        requires nonzero { 0 < length (list_of self.old) }
        ensures { RingIs self.new (set_back (list_of self.old) gap) }
    {
        self.slots[place(self.head, self.count - 1, ROOM)] = gap;
    }

    /// The gaps that end at or below `seq` go from the front.
    pub fn drop_below(&mut self, seq: SeqNum)
        requires { RingWf self.old }
        ensures { RingIs self.new (drop_below seq.0 (list_of self.old)) }
    {
        while let Some(gap) = self.front() {
            if gap.end > seq {
                return;
            }
            self.pop_front();
        }
    }
}
