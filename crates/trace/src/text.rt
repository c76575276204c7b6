//! The lines that the trace program prints (01, "Trace program").
ghost use Rattle.std.specs.Prelude.{◌≡◌, ◌∷◌, [], ◌++◌, ◌+◌, ◌≤◌, length, Ok};
ghost use Rattle.rules.specs.Names.verdict;
ghost use Rattle.rules.specs.Answers.{refusal_number, numbers, told};
ghost use Rattle.trace.specs.Ascii.{ascii};
ghost use Rattle.trace.specs.Text.{digits, decimal, most_digits, colons, answer_text, status_text, expected_text};
ghost use Rattle.trace.specs.Text.{line_text, first_text, end_text, stop_text, max_line, Adds, Writes};

use types::answers::{Delivery, Refusal, SessionStatus, Verdict};
use types::ids::SeqNum;

/// Room for the longest line: the one place that names it.
pub const MAX_LINE: usize = 144;

/// The number of a refusal in 01's table.
// No `From`: the two types are of crates below, and the table that the contract cites stands above them.
pub fn refusal_number(refusal: Refusal) -> u8
    ensures { result ≡ refusal_number refusal }
{
    match refusal {
        Refusal::BadRecord => 1,
        Refusal::BadConfig => 2,
        Refusal::NotBound => 3,
        Refusal::AlreadyBound => 4,
        Refusal::BadMessage => 5,
        Refusal::ZeroCount => 6,
        Refusal::OutputFull => 7,
        Refusal::InvalidState { .. } => 8,
        Refusal::FinishedReceivingSent => 9,
        Refusal::FlowCarriesNoApplicationMessages => 10,
        Refusal::SequenceExhausted => 11,
        Refusal::NoRetransmissionInProgress => 12,
        Refusal::RetransmissionOverrun { .. } => 13,
        Refusal::ReasonTooLong { .. } => 14,
    }
}

/// At most `k` decimal digits of `n`.
// No method of Text: tried, and a line took 1.7 times as long, with the place stored at each digit.
#[tactic(auto, unfolding(crate::specs::Text::digits))]
fn push_digits(out: &mut [u8], at: usize, n: u64, k: usize) -> usize
    requires { at + k ≤ length out.old }
    ensures { Adds out.old at (digits k n) k out.new result }
{
    if k == 0 {
        return at;
    }
    if n < 10 {
        out[at] = b'0' + n as u8;
        return at + 1;
    }
    let last = (n % 10) as u8;
    let next = push_digits(out, at, n / 10, k - 1);
    out[next] = b'0' + last;
    next + 1
}

/// A buffer, and how many bytes of it are written.
#[derive(Drop)]
struct Text<'a> {
    out: &'a mut [u8],
    len: usize,
}

impl<'a> Text<'a> {
    /// The bytes of a word.
    fn word(&mut self, word: &[u8])
        requires { self.old.len + length word.now ≤ length self.old.out.now }
        ensures { Writes self.old word.now (length word.now) self.new }
    {
        let end = self.len + word.len();
        self.out[self.len..end].copy_from_slice(word);
        self.len = end;
    }

    /// A number in decimal.
    fn number(&mut self, n: u64)
        requires { self.old.len + most_digits ≤ length self.old.out.now }
        ensures { Writes self.old (decimal n) most_digits self.new }
    {
        self.len = push_digits(self.out, self.len, n, 20);
    }

    /// A number after a colon.
    fn colon(&mut self, n: u64)
        requires { self.old.len + 21 ≤ length self.old.out.now }
        ensures { Writes self.old (colons (n ∷ [])) 21 self.new }
    {
        self.word(b":");
        self.number(n);
    }

    /// A number after a colon, if there is one.
    fn maybe_colon(&mut self, seq: Option<SeqNum>)
        requires { self.old.len + 21 ≤ length self.old.out.now }
        ensures { Writes self.old (colons (numbers seq)) 21 self.new }
    {
        if let Some(n) = seq {
            self.colon(n.0);
        }
    }

    /// `accept`, `replay` or `discard`.
    fn delivery(&mut self, delivery: Delivery)
        requires { self.old.len + 27 ≤ length self.old.out.now }
        ensures { Writes self.old (answer_text (told (Ok (verdict.Delivered delivery)))) 27 self.new }
    {
        match delivery {
            Delivery::Accept { seq, retransmitted } => {
                self.word(if retransmitted { b"replay" } else { b"accept" });
                self.maybe_colon(seq);
            }
            Delivery::Discard => self.word(b"discard"),
        }
    }

    /// What a call that was not refused answers, at most `batch:` with a number of 20 digits and a count.
    fn verdict(&mut self, verdict: Verdict)
        requires { self.old.len + 47 ≤ length self.old.out.now }
        ensures { Writes self.old (answer_text (told (Ok verdict))) 47 self.new }
    {
        match verdict {
            Verdict::Done => self.word(b"ok"),
            Verdict::Delivered(delivery) => self.delivery(delivery),
            Verdict::Sent(seq) => {
                self.word(b"sent");
                self.maybe_colon(seq);
            }
            Verdict::Batch(batch) => {
                self.word(b"batch");
                self.colon(batch.from.0);
                self.colon(batch.count as u64);
            }
        }
    }

    /// An answer: a verdict, or the number of a refusal.
    fn answer(&mut self, answer: Result<Verdict, Refusal>)
        requires { self.old.len + 47 ≤ length self.old.out.now }
        ensures { Writes self.old (answer_text (told answer)) 47 self.new }
    {
        match answer {
            Ok(verdict) => self.verdict(verdict),
            Err(refusal) => {
                self.word(b"refused");
                self.colon(u64::from(refusal_number(refusal)));
            }
        }
    }

    /// A status, at most 11 letters.
    fn status(&mut self, status: SessionStatus)
        requires { self.old.len + 11 ≤ length self.old.out.now }
        ensures { Writes self.old (status_text status) 11 self.new }
    {
        match status {
            SessionStatus::Unbound => self.word(b"unbound"),
            SessionStatus::Established => self.word(b"established"),
            SessionStatus::Terminating => self.word(b"terminating"),
            SessionStatus::Closing => self.word(b"closing"),
        }
    }

    /// The expected number or `-`.
    fn expected(&mut self, expected: Option<SeqNum>)
        requires { self.old.len + 20 ≤ length self.old.out.now }
        ensures { Writes self.old (expected_text expected) 20 self.new }
    {
        match expected {
            Some(n) => self.number(n.0),
            None => self.word(b"-"),
        }
    }

    /// A word, a number and the end of the line.
    fn numbered(&mut self, word: &[u8], n: u64)
        requires { self.old.len + length word.now + 21 ≤ length self.old.out.now }
        ensures { Writes self.old (word.now ++ (decimal n ++ ascii "\n")) (length word.now + 21) self.new }
    {
        self.word(word);
        self.number(n);
        self.word(b"\n");
    }

    /// A line of the trace.
    fn record(&mut self, line: RecordLine)
        requires { self.old.len + max_line ≤ length self.old.out.now }
        ensures { Writes self.old (line_text line.index line.answer line.status line.expected line.gaps line.outputs) max_line self.new }
    {
        self.number(line.index);
        self.word(b" ");
        self.answer(line.answer);
        self.word(b" ");
        self.status(line.status);
        self.word(b" ");
        self.expected(line.expected);
        self.word(b" ");
        self.number(line.gaps);
        self.word(b" ");
        self.number(line.outputs);
        self.word(b"\n");
    }
}

/// What a line of the trace says of a record: its index, the answer, status and expected number after it, the number of gaps, and its outputs.
#[derive(Clone, Copy)]
pub struct RecordLine {
    pub index: u64,
    pub answer: Result<Verdict, Refusal>,
    pub status: SessionStatus,
    pub expected: Option<SeqNum>,
    pub gaps: u64,
    pub outputs: u64,
}

/// The line of a record: index, answer, status after, expected number or `-`, number of gaps, outputs of this record.
pub fn record_line(out: &mut [u8], at: usize, line: RecordLine) -> usize
    requires { at + max_line ≤ length out.old }
    ensures { Adds out.old at (line_text line.index line.answer line.status line.expected line.gaps line.outputs) max_line out.new result }
{
    let mut text = Text { out, len: at };
    text.record(line);
    text.len
}

/// The first line.
pub fn first_line(out: &mut [u8], at: usize) -> usize
    requires { at + max_line ≤ length out.old }
    ensures { Adds out.old at first_text max_line out.new result }
{
    let mut text = Text { out, len: at };
    text.word(b"fixp-trace 1\n");
    text.len
}

/// The last line.
pub fn end_line(out: &mut [u8], at: usize, missing: u64) -> usize
    requires { at + max_line ≤ length out.old }
    ensures { Adds out.old at (end_text missing) max_line out.new result }
{
    let mut text = Text { out, len: at };
    text.numbered(b"end missing ", missing);
    text.len
}

/// The line in the place of the last one, where the run stops at a record.
pub fn stop_line(out: &mut [u8], at: usize, index: u64) -> usize
    requires { at + max_line ≤ length out.old }
    ensures { Adds out.old at (stop_text index) max_line out.new result }
{
    let mut text = Text { out, len: at };
    text.numbered(b"stop ", index);
    text.len
}
