//! What a step queues for the host, in order (output.rs).
ghost use Rattle.std.specs.Prelude.{◌≡◌};
ghost use Rattle.types.specs.Outputs.{output, output_of};

use crate::ids::{RetransmitRejectCode, SeqNum, TerminationCode};
use crate::messages::{MessageName, NotApplied, SessionMessage};
use crate::reasons::Reason;

/// Who ended a binding.
#[derive(Clone, Copy)]
pub enum TerminatedBy {
    Local = 1,
    Peer = 2,
}

/// What is reported to the application. Reasons stand beside, in the Output.
#[derive(Clone, Copy)]
pub enum Event {
    Refused(MessageName),
    SequenceGap {
        from: SeqNum,
        count: u64,
    },
    RecoveryComplete,
    RetransmitRequested {
        from: SeqNum,
        count: u32,
    },
    RetransmitRejected {
        from: SeqNum,
        count: u32,
        code: RetransmitRejectCode,
    },
    RetransmitTimedOut {
        from: SeqNum,
        count: u32,
    },
    NotApplied {
        from_seq_no: SeqNum,
        count: u32,
    },
    Applied {
        from_seq_no: SeqNum,
        count: u32,
    },
    Terminated {
        code: TerminationCode,
        by: TerminatedBy,
    },
    KeepaliveLapsed,
    ProtocolViolation,
    PeerFinishedSending {
        last_seq_no: Option<SeqNum>,
    },
    Ignored(MessageName),
}

/// An output without its reason.
#[derive(Clone, Copy)]
pub enum Said {
    Send(SessionMessage),
    SendApplication {
        seq: Option<SeqNum>,
        message: NotApplied,
    },
    CloseTransport,
    Event(Event),
}

/// An output: what is said, the number of its reason (0: none), and the bytes of a host's or peer's reason.
#[derive(Clone, Copy)]
pub struct Output {
    pub said: Said,
    pub reason: u8,
    pub text: Reason,
}

impl Output {
    pub fn new(said: Said, reason: u8, text: Reason) -> Output
        ensures { result ≡ output said reason text }
    {
        Output { said, reason, text }
    }
}

/// Whose bytes a line quotes: nobody's, those kept beside the binding since our own Terminate, or those given with this call.
#[derive(Clone, Copy)]
pub enum Quote {
    None,
    Kept,
    Given,
}

/// An output as a step says it. Its bytes are filled in when it is queued, so that steps hand on no reason.
#[derive(Clone, Copy)]
pub struct Line {
    pub said: Said,
    pub reason: u8,
    pub quote: Quote,
}

impl Line {
    /// The output that it stands for.
    pub fn output(self, kept: Reason, given: Reason) -> Output
        ensures { result ≡ output_of kept given self }
    {
        let text = match self.quote {
            Quote::None => Reason::none(),
            Quote::Kept => kept,
            Quote::Given => given,
        };
        Output::new(self.said, self.reason, text)
    }
}
