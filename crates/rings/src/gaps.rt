//! The gaps of a session and the numbers received inside the last of them (01, "Gaps"; session.rs, record_gap to consume_missing).
ghost use Rattle.std.specs.Prelude.{◌≡◌, [], ◌<◌, ◌≤◌, length};
ghost use Rattle.rules.specs.Lists.{is_nil, front_of};
ghost use Rattle.rules.specs.Gaps.{max_gaps, lists, appended, append_gap, record_gap, later_of, widen, hold_refused_gap};
ghost use Rattle.rules.specs.Gaps.{received_in_overflow, drop_first, consume_missing};
ghost use Rattle.rings.specs.View.{lists_of, GapsWf, GapsIs, KeptIs, SeenIs, sound_gaps};

use crate::ring::Ring;
use types::ids::SeqNum;
use types::parts::Gap;

/// 01: "the gap list 65", 64 pending gaps and the one that is held. The one place that names it.
pub const MAX_GAPS: usize = 65;

/// 01: "the list of overflow runs 256" (`MAX_OVERFLOW_RECEIVED_RUNS`). The one place that names it.
pub const MAX_RUNS: usize = 256;

/// The unrecovered gaps, in order, and the overflow runs: what was received live inside the last gap.
#[derive(Clone, Copy)]
pub struct Gaps {
    pub missing: Ring<MAX_GAPS>,
    pub overflow_received: Ring<MAX_RUNS>,
}

// A function of its own: the library's `max` under the rule's name, `later_of`.
/// The later of two numbers.
#[tactic(auto, unfolding(rules::specs::Gaps::later_of))]
fn later(a: SeqNum, b: SeqNum) -> SeqNum
    ensures { result ≡ later_of a b }
{
    a.max(b)
}

impl Gaps {
    /// A new session's: no gap, no run.
    pub fn new() -> Gaps
        ensures { GapsIs result (lists [] []) }
    {
        Gaps {
            missing: Ring::new(),
            overflow_received: Ring::new(),
        }
    }

    /// Whether each list's position and count are within its room (01, refusal 1).
    // By value, as `is_empty`: as for the ring.
    #[tactic(auto, unfolding(crate::specs::View::sound_gaps))]
    pub fn sound(self) -> bool
        ensures { result ≡ sound_gaps self }
    {
        self.missing.sound() && self.overflow_received.sound()
    }

    /// The first gap, which is the next to be asked for.
    pub fn front(&self) -> Option<Gap>
        requires { GapsWf self.now }
        ensures { result ≡ front_of (lists_of self.now).missing }
    {
        self.missing.front()
    }

    /// Whether nothing is missing.
    pub fn is_empty(self) -> bool
        ensures { result ≡ is_nil (lists_of self).missing }
    {
        self.missing.len() == 0
    }

    /// One more gap: of a list that has room.
    fn push_gap(&mut self, from: SeqNum, end: SeqNum)
        requires in_order { GapsWf self.old }
        requires room { length (lists_of self.old).missing < max_gaps }
        ensures { GapsIs self.new (appended from end (lists_of self.old)) }
    {
        self.missing.push_back(Gap { from, end });
    }

    /// "Else, below `max_pending_gaps`, it is appended."
    fn append_gap(&mut self, max: u16, from: SeqNum, end: SeqNum) -> bool
        requires in_order { GapsWf self.old }
        requires max_bound { max ≤ 64 }
        ensures { KeptIs self.new result (append_gap max from end (lists_of self.old)) }
    {
        if self.missing.len() >= max as usize {
            return false;
        }
        self.push_gap(from, end);
        true
    }

    /// "A gap touching the last one extends it." Else it is appended, or refused at `max`. Whether it is kept.
    pub fn record_gap(&mut self, max: u16, from: SeqNum, end: SeqNum) -> bool
        requires in_order { GapsWf self.old }
        requires max_bound { max ≤ 64 }
        ensures { KeptIs self.new result (record_gap max from end (lists_of self.old)) }
    {
        let Some(last) = self.missing.back() else {
            return self.append_gap(max, from, end);
        };
        if last.end.0 != from.0 {
            return self.append_gap(max, from, end);
        }
        self.missing.set_back(Gap {
            from: last.from,
            end,
        });
        true
    }

    /// The last gap, which is `last`, reaches `end` at least.
    fn widen_last(&mut self, last: Gap, end: SeqNum)
        requires in_order { GapsWf self.old }
        requires nonzero { 0 < length (lists_of self.old).missing }
        ensures { GapsIs self.new (widen last end (lists_of self.old)) }
    {
        self.missing.set_back(Gap {
            from: last.from,
            end: later(last.end, end),
        });
    }

    /// A gap that `record_gap` refused is held: as one more, or joined to that one, "with the numbers received between kept as
    /// an overflow run". "A 257th run is refused." Whether it is held.
    pub fn hold_refused_gap(&mut self, max: u16, from: SeqNum, end: SeqNum) -> bool
        requires in_order { GapsWf self.old }
        requires max_bound { max ≤ 64 }
        ensures { KeptIs self.new result (hold_refused_gap max from end (lists_of self.old)) }
    {
        if self.missing.len() <= max as usize {
            self.push_gap(from, end);
            return true;
        }
        let Some(last) = self.missing.back() else {
            self.push_gap(from, end);
            return true;
        };
        if last.end.0 >= from.0 {
            self.widen_last(last, end);
            return true;
        }
        if self.overflow_received.len() >= MAX_RUNS {
            return false;
        }
        self.overflow_received.push_back(Gap {
            from: last.end,
            end: from,
        });
        self.widen_last(last, end);
        true
    }

    /// Whether `seq`, which is retransmitted, was received live. The runs wholly below it are dropped as it passes them.
    pub fn received_in_overflow(&mut self, seq: SeqNum) -> bool
        requires { GapsWf self.old }
        ensures { SeenIs self.new result (received_in_overflow seq (lists_of self.old)) }
    {
        self.overflow_received.drop_below(seq);
        let Some(run) = self.overflow_received.front() else {
            return false;
        };
        run.from.0 <= seq.0
    }

    /// The first gap goes, and with the last of them all runs.
    fn drop_first(&mut self)
        requires { GapsWf self.old }
        ensures { GapsIs self.new (drop_first (lists_of self.old)) }
    {
        self.missing.pop_front();
        if self.missing.len() == 0 {
            self.overflow_received = Ring::new();
        }
    }

    /// The first `count` numbers of the first gap are recovered or abandoned: a count that reaches its end takes it whole.
    pub fn consume_missing(&mut self, count: u64)
        requires { GapsWf self.old }
        ensures { GapsIs self.new (consume_missing count (lists_of self.old)) }
    {
        if count == 0 {
            return;
        }
        let Some(first) = self.missing.front() else {
            return;
        };
        // Where from + count passes 2^64-1 it passes the end too.
        if first.end.0 <= count {
            return self.drop_first();
        }
        if first.end.0 - count <= first.from.0 {
            return self.drop_first();
        }
        let from = first.from.0 + count;
        self.missing.set_front(Gap {
            from: SeqNum(from),
            end: first.end,
        });
    }
}
