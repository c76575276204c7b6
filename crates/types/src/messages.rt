//! The session messages in scope (messages.rs). A reason stands beside its message.
ghost use Rattle.std.specs.Prelude.{◌≡◌};
ghost use Rattle.types.specs.Messages.{name_of};

use crate::ids::{Nanotime, RetransmitRejectCode, SeqNum, SessionId, TerminationCode};

/// Announces the number of the next application message (FIXP 3.5.2).
#[derive(Clone, Copy)]
pub struct Sequence {
    pub next_seq_no: SeqNum,
}

/// Switches to a session and announces its next number (FIXP 3.5.3).
#[derive(Clone, Copy)]
pub struct Context {
    pub session_id: SessionId,
    pub next_seq_no: SeqNum,
}

/// Asks for a range again (FIXP 4.6.1).
#[derive(Clone, Copy)]
pub struct RetransmitRequest {
    pub session_id: SessionId,
    pub timestamp: Nanotime,
    pub from_seq_no: SeqNum,
    pub count: u32,
}

/// The header of a batch (FIXP 4.6.2).
#[derive(Clone, Copy)]
pub struct Retransmission {
    pub session_id: SessionId,
    pub request_timestamp: Nanotime,
    pub next_seq_no: SeqNum,
    pub count: u32,
}

/// Refuses a request (FIXP 4.6.2.3).
#[derive(Clone, Copy)]
pub struct RetransmitReject {
    pub session_id: SessionId,
    pub request_timestamp: Nanotime,
    pub code: RetransmitRejectCode,
}

/// Ends a binding (FIXP 4.4).
#[derive(Clone, Copy)]
pub struct Terminate {
    pub session_id: SessionId,
    pub code: TerminationCode,
}

/// The peer's flow is over (FIXP 4.7.1).
#[derive(Clone, Copy)]
pub struct FinishedSending {
    pub session_id: SessionId,
    pub last_seq_no: Option<SeqNum>,
}

/// The answer to FinishedSending (FIXP 4.7.2).
#[derive(Clone, Copy)]
pub struct FinishedReceiving {
    pub session_id: SessionId,
}

/// The peer applied these of our messages (FIXP 4.8.1).
#[derive(Clone, Copy)]
pub struct Applied {
    pub from_seq_no: SeqNum,
    pub count: u32,
}

/// These of the other side's messages were not applied (FIXP 4.8.2).
#[derive(Clone, Copy)]
pub struct NotApplied {
    pub from_seq_no: SeqNum,
    pub count: u32,
}

/// A session message that may arrive once bound: the 13 kinds, in the Rust's order.
#[derive(Clone, Copy)]
pub enum PeerMessage {
    Topic,
    Sequence(Sequence),
    Context(Context),
    UnsequencedHeartbeat,
    RetransmitRequest(RetransmitRequest),
    Retransmission(Retransmission),
    RetransmitReject(RetransmitReject),
    Terminate(Terminate),
    FinishedSending(FinishedSending),
    FinishedReceiving,
    Applied(Applied),
    NotApplied(NotApplied),
    MessageTemplate,
}

/// The names that Ignored and Refused give; each has the number of its trace record (01).
#[derive(Clone, Copy)]
pub enum MessageName {
    Topic = 43,
    Sequence = 32,
    Context = 33,
    UnsequencedHeartbeat = 34,
    RetransmitRequest = 35,
    Retransmission = 36,
    RetransmitReject = 37,
    Terminate = 38,
    FinishedSending = 39,
    FinishedReceiving = 40,
    Applied = 41,
    NotApplied = 42,
    MessageTemplate = 44,
    ApplicationMessage = 4,
}

impl PeerMessage {
    /// The message's name, for events.
    // No `From`: it is the Rust's own method, and of no other type's values.
    pub fn name(self) -> MessageName
        ensures { result ≡ name_of self }
    {
        match self {
            PeerMessage::Topic => MessageName::Topic,
            PeerMessage::Sequence(_) => MessageName::Sequence,
            PeerMessage::Context(_) => MessageName::Context,
            PeerMessage::UnsequencedHeartbeat => MessageName::UnsequencedHeartbeat,
            PeerMessage::RetransmitRequest(_) => MessageName::RetransmitRequest,
            PeerMessage::Retransmission(_) => MessageName::Retransmission,
            PeerMessage::RetransmitReject(_) => MessageName::RetransmitReject,
            PeerMessage::Terminate(_) => MessageName::Terminate,
            PeerMessage::FinishedSending(_) => MessageName::FinishedSending,
            PeerMessage::FinishedReceiving => MessageName::FinishedReceiving,
            PeerMessage::Applied(_) => MessageName::Applied,
            PeerMessage::NotApplied(_) => MessageName::NotApplied,
            PeerMessage::MessageTemplate => MessageName::MessageTemplate,
        }
    }
}

/// A message that this side sends.
#[derive(Clone, Copy)]
pub enum SessionMessage {
    Sequence(Sequence),
    UnsequencedHeartbeat,
    RetransmitRequest(RetransmitRequest),
    Retransmission(Retransmission),
    RetransmitReject(RetransmitReject),
    Terminate(Terminate),
    FinishedReceiving(FinishedReceiving),
}
