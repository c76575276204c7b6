//! Reasons: bytes of hosts and peers, and the texts of session.rs by number, from 1 in source order, equal texts once (01).
ghost use Rattle.std.specs.Prelude.{◌≡◌};
ghost use Rattle.types.specs.Reasons.{no_text, reason_fits};

/// The longest reason in bytes: the one place that names it.
pub const MAX_REASON_LEN: usize = 64;

/// A reason as bytes: the first `len` of them.
#[derive(Clone, Copy)]
pub struct Reason {
    pub bytes: [u8; MAX_REASON_LEN],
    pub len: usize,
}

impl Reason {
    /// Zero bytes.
    pub fn none() -> Reason
        ensures { result ≡ no_text }
    {
        Reason {
            bytes: [0; MAX_REASON_LEN],
            len: 0,
        }
    }

    /// Whether its room holds it.
    pub fn fits(self) -> bool
        ensures { result ≡ reason_fits self }
    {
        self.len <= MAX_REASON_LEN
    }
}

// Numbers and no enum: an output that a host hands back may have any byte here, and the steps and rules that take one take any.
/// it arrived after the counterparty's Terminate
pub const AFTER_TERMINATE: u8 = 1;
/// Context for another session: multiplexed transports are not supported
pub const CONTEXT_FOREIGN: u8 = 2;
/// UnsequencedHeartbeat on a sequenced flow
pub const HEARTBEAT_SEQUENCED: u8 = 3;
/// NotApplied for a flow that is not Idempotent
pub const NOT_APPLIED_FLOW: u8 = 4;
/// Topic is a multicast message
pub const TOPIC: u8 = 5;
/// FinishedReceiving without a FinishedSending
pub const FINISHED_RECEIVING: u8 = 6;
/// retransmitted sequence numbers overflow
pub const REPLAY_OVERFLOW: u8 = 7;
/// application message after FinishedSending
pub const APPLICATION_AFTER_FINISHED: u8 = 8;
/// application message on a None flow
pub const APPLICATION_ON_NONE: u8 = 9;
/// application message after a retransmission without a Sequence
pub const APPLICATION_BEFORE_RESUME: u8 = 10;
/// application message before any Sequence
pub const APPLICATION_BEFORE_SEQUENCE: u8 = 11;
/// inbound sequence numbers exhausted
pub const INBOUND_EXHAUSTED: u8 = 12;
/// Sequence or Context on an unsequenced flow
pub const SEQUENCE_UNSEQUENCED: u8 = 13;
/// NextSeqNo of zero
pub const NEXT_ZERO: u8 = 14;
/// NextSeqNo past the LastSeqNo of FinishedSending
pub const NEXT_PAST_LAST: u8 = 15;
/// sequence gap larger than max_gap_len
pub const GAP_TOO_LONG: u8 = 16;
/// NextSeqNo lower than expected
pub const NEXT_LOWER: u8 = 17;
/// too many unrecovered sequence gaps
pub const TOO_MANY_GAPS: u8 = 18;
/// sequence gap too large for a NotApplied
pub const GAP_NOT_APPLIED: u8 = 19;
/// session clock out of range
pub const CLOCK: u8 = 20;
/// Retransmission on a flow that is not Recoverable
pub const RETRANSMISSION_FLOW: u8 = 21;
/// Retransmission for another session
pub const RETRANSMISSION_FOREIGN: u8 = 22;
/// Retransmission without a RetransmitRequest
pub const RETRANSMISSION_UNASKED: u8 = 23;
/// Retransmission answers another request
pub const RETRANSMISSION_OTHER: u8 = 24;
/// Retransmission outside the requested range
pub const RETRANSMISSION_RANGE: u8 = 25;
/// it answers no outstanding RetransmitRequest
pub const REJECT_UNASKED: u8 = 26;
/// this side has sent its Terminate
pub const REQUEST_TERMINATING: u8 = 27;
/// RetransmitRequest to a flow that is not Recoverable
pub const REQUEST_FLOW: u8 = 28;
/// unknown session
pub const REQUEST_FOREIGN: u8 = 29;
/// RetransmitRequest while a retransmission is in progress
pub const REQUEST_IN_PROGRESS: u8 = 30;
/// empty range
pub const REQUEST_EMPTY: u8 = 31;
/// count exceeds the retransmission limit
pub const REQUEST_LIMIT: u8 = 32;
/// range not yet sent
pub const REQUEST_RANGE: u8 = 33;
/// Terminate for another session
pub const TERMINATE_FOREIGN: u8 = 34;
/// FinishedSending for another session
pub const FINISHED_FOREIGN: u8 = 35;
/// FinishedSending without LastSeqNo on a sequenced flow
pub const FINISHED_NO_LAST: u8 = 36;
/// LastSeqNo out of range
pub const LAST_OUT_OF_RANGE: u8 = 37;
/// LastSeqNo below the messages already received
pub const LAST_BELOW: u8 = 38;
/// outbound sequence numbers exhausted
pub const OUTBOUND_EXHAUSTED: u8 = 39;
/// keepalive interval lapsed
pub const KEEPALIVE: u8 = 40;
/// retransmission stalled
pub const STALLED: u8 = 41;
