//! The two rings, place by place.
ghost use Rattle.std.specs.Prelude.{◌≡◌};
ghost use Rattle.library.specs.Parts.{gap_in, gap_out};
ghost use Rattle.library.specs.Records.{missing_in, missing_out, overflow_in, overflow_out, gaps_in};

use crate::mirror::{Missing, Overflow, Range};
use rings::gaps::{Gaps, MAX_GAPS, MAX_RUNS};
use rings::ring::Ring;
use types::ids::SeqNum;
use types::parts::Gap;

impl From<Range> for Gap {
    ghost from_gives = { λ r g. g ≡ gap_in r };

    fn from(range: Range) -> Gap {
        Gap {
            from: SeqNum(range.from),
            end: SeqNum(range.end),
        }
    }
}

impl From<Gap> for Range {
    ghost from_gives = { λ g r. r ≡ gap_out g };

    fn from(gap: Gap) -> Range {
        Range {
            from: gap.from.0,
            end: gap.end.0,
        }
    }
}

// Twice the same, for two structs of the C interface. Place by place: an array's `map` copies the array several times, and a call took twice as long.
impl From<Missing> for Ring<MAX_GAPS> {
    ghost from_gives = { λ m r. r ≡ missing_in m };

    fn from(m: Missing) -> Ring<MAX_GAPS> {
        let mut ring = Ring::new();
        for i in 0..MAX_GAPS {
            ring.slots[i] = Gap::from(m.slots[i]);
        }
        ring.head = m.head;
        ring.count = m.count;
        ring
    }
}

impl From<Ring<MAX_GAPS>> for Missing {
    ghost from_gives = { λ r m. m ≡ missing_out r };

    fn from(ring: Ring<MAX_GAPS>) -> Missing {
        let mut m = Missing {
            slots: [Range { from: 0, end: 0 }; MAX_GAPS],
            head: 0,
            count: 0,
        };
        for i in 0..MAX_GAPS {
            m.slots[i] = Range::from(ring.slots[i]);
        }
        m.head = ring.head;
        m.count = ring.count;
        m
    }
}

impl From<Overflow> for Ring<MAX_RUNS> {
    ghost from_gives = { λ m r. r ≡ overflow_in m };

    fn from(m: Overflow) -> Ring<MAX_RUNS> {
        let mut ring = Ring::new();
        for i in 0..MAX_RUNS {
            ring.slots[i] = Gap::from(m.slots[i]);
        }
        ring.head = m.head;
        ring.count = m.count;
        ring
    }
}

impl From<Ring<MAX_RUNS>> for Overflow {
    ghost from_gives = { λ r m. m ≡ overflow_out r };

    fn from(ring: Ring<MAX_RUNS>) -> Overflow {
        let mut m = Overflow {
            slots: [Range { from: 0, end: 0 }; MAX_RUNS],
            head: 0,
            count: 0,
        };
        for i in 0..MAX_RUNS {
            m.slots[i] = Range::from(ring.slots[i]);
        }
        m.head = ring.head;
        m.count = ring.count;
        m
    }
}

/// The two lists of gaps, each from its ring.
pub fn gaps_in(missing: Missing, overflow: Overflow) -> Gaps
    ensures { result ≡ gaps_in missing overflow }
{
    Gaps {
        missing: missing.into(),
        overflow_received: overflow.into(),
    }
}
