//! What a call answers (01, "Refusal numbers" and "Trace program").
use crate::ids::SeqNum;

/// What becomes of an application message.
#[derive(Clone, Copy)]
pub enum Delivery {
    Accept {
        seq: Option<SeqNum>,
        retransmitted: bool,
    },
    Discard,
}

/// The batch that a retransmit call announced.
#[derive(Clone, Copy)]
pub struct RetransmitBatch {
    pub from: SeqNum,
    pub count: u32,
}

/// Where a session stands, as a line of the trace prints it.
#[derive(Clone, Copy)]
pub enum SessionStatus {
    Unbound = 0,
    Established = 1,
    Terminating = 2,
    Closing = 3,
}

/// The local calls that refusal 8 names, by the numbers of their trace records (01).
#[derive(Clone, Copy)]
pub enum Operation {
    SendApplication = 64,
    Terminate = 65,
    Retransmit = 66,
    RejectRetransmitRequest = 67,
    EndRetransmission = 68,
}

/// Why a call was refused: 01's table, in its order.
#[derive(Clone, Copy)]
pub enum Refusal {
    BadRecord,
    BadConfig,
    NotBound,
    AlreadyBound,
    BadMessage,
    ZeroCount,
    OutputFull,
    InvalidState {
        operation: Operation,
        status: SessionStatus,
    },
    FinishedReceivingSent,
    FlowCarriesNoApplicationMessages,
    SequenceExhausted,
    NoRetransmissionInProgress,
    RetransmissionOverrun {
        count: u32,
        remaining: u32,
    },
    ReasonTooLong {
        len: usize,
        max: usize,
    },
}

/// What a call that is not refused answers. A call's answer is `Result<Verdict, Refusal>`.
#[derive(Clone, Copy)]
pub enum Verdict {
    Done,
    Delivered(Delivery),
    Sent(Option<SeqNum>),
    Batch(RetransmitBatch),
}
