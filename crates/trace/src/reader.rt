//! The lent trace and a place in it, kept together; each record is a part of it (01, "Trace program").
ghost use Rattle.std.specs.Prelude.{◌≡◌, ◌+◌, ◌≤◌, length};
ghost use Rattle.trace.specs.Places.{size_at, Part, RecordAt, Next};

use crate::numbers::{HEADER, u16_at};

/// The trace that is read, and the place of the next record.
#[derive(Clone, Copy)]
pub struct Trace<'a> {
    pub bytes: &'a [u8],
    pub at: usize,
}

impl<'a> Trace<'a> {
    /// A trace from its first record on.
    pub fn new(bytes: &'a [u8]) -> Trace<'a>
        ensures { (result.bytes ≡ bytes.entry) × (result.at ≡ 0) }
    {
        Trace { bytes, at: 0 }
    }

    /// The next record, as a part of the trace: the place is behind it then. At the end there is none.
    pub fn next_record(&mut self) -> Option<&'a [u8]>
        ensures bytes_kept { self.new.bytes ≡ self.old.bytes }
        ensures next { Next self.old.bytes self.old.at result self.new.at }
    {
        if self.bytes.len() <= self.at {
            return None;
        }
        let record = view(self.bytes, self.at);
        self.at += record.len();
        Some(record)
    }
}

/// How many bytes the record at a place has: none where it is too short for a header, or runs past the end.
#[tactic(auto, unfolding(crate::specs::Places::size_at))]
pub fn size_at(s: &[u8], at: usize) -> usize
    requires { at ≤ length s.now }
    ensures { result ≡ size_at s.now at }
{
    let n = u16_at(s, at) as usize;
    if HEADER <= n && n <= s.len() - at {
        n
    } else {
        0
    }
}

/// A part of a slice.
pub fn part<'a>(s: &'a [u8], at: usize, n: usize) -> &'a [u8]
    requires { at + n ≤ length s.now }
    ensures { Part s.entry at n result }
{
    &s[at..at + n]
}

/// The record at a place of a slice, as a part of it.
pub fn view<'a>(s: &'a [u8], at: usize) -> &'a [u8]
    requires { at ≤ length s.now }
    ensures { RecordAt s.entry at result }
{
    let n = size_at(s, at);
    part(s, at, n)
}
