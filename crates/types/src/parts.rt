//! The parts of a session (session.rs, Gap to Provider).
use crate::ids::{Instant, Nanotime, SeqNum};

/// A half-open range of sequence numbers, from..end.
#[derive(Clone, Copy)]
pub struct Gap {
    pub from: SeqNum,
    pub end: SeqNum,
}

/// This side's RetransmitRequest in flight.
#[derive(Clone, Copy)]
pub struct Outstanding {
    pub timestamp: Nanotime,
    pub from: SeqNum,
    pub count: u32,
    pub delivered: u32,
    pub last_progress: Instant,
    /// A Sequence or Context cut the last batch short of its count: the provider stopped serving it (FIXP 3.5.4).
    pub interrupted: bool,
    /// The last batch came whole and the request is still short: a provider of one batch a request is done with it (FIXP 4.6.2.2).
    pub batch_complete: bool,
    /// The stall was reported and is waited out: no timer runs until the provider makes progress again.
    pub stall_reported: bool,
}

/// The peer has sent FinishedSending; on a sequenced flow `end` is LastSeqNo + 1 (FIXP 4.7).
#[derive(Clone, Copy)]
pub struct PeerFinished {
    /// FinishedReceiving has gone out (FIXP 4.7.2).
    pub receiving_sent: bool,
    /// On a sequenced flow LastSeqNo + 1: no NextSeqNo may pass it any more (FIXP 6.3).
    pub end: Option<SeqNum>,
}

/// A batch being received: the next message is `next`, and `remaining` belong to it, at least one.
#[derive(Clone, Copy)]
pub struct Replay {
    pub next: SeqNum,
    pub remaining: u32,
}

/// A peer's RetransmitRequest being answered.
#[derive(Clone, Copy)]
pub struct Provider {
    pub request_timestamp: Nanotime,
    pub from: SeqNum,
    pub count: u32,
    pub sent: u32,
}
