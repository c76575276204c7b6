//! Numbers that stay apart (01, "Built, and not built"), session ids, flows and codes (types.rs).
ghost use Rattle.std.specs.Prelude.{◌≡◌, ◌+◌};
ghost use Rattle.types.specs.Base.{deadline_at};
ghost use Rattle.types.specs.Flows.{is_sequenced, is_recoverable, is_idempotent, carries_none, is_finished};

/// 2^64-1, the null value of a NextSeqNo, and the stamp of a clock out of range.
pub const ALL_ONES: u64 = 18446744073709551615;

/// A sequence number of an application message.
#[derive(Clone, Copy, PartialEq, Eq, PartialOrd, Ord)]
pub struct SeqNum(pub u64);

/// The stamp of a request. All ones, handed in with a call, means that the clock is out of range.
#[derive(Clone, Copy, PartialEq, Eq)]
pub struct Nanotime(pub u64);

/// An instant in nanoseconds.
#[derive(Clone, Copy, PartialEq, Eq, PartialOrd, Ord)]
pub struct Instant(pub u64);

impl Instant {
    /// The instant a duration later; a sum past 2^64-1 means no deadline (01).
    #[tactic(auto, unfolding(crate::specs::Base::deadline_at))]
    pub fn checked_add(self, duration: u64) -> Option<Instant>
        ensures { result ≡ deadline_at (self.0 + duration) }
    {
        self.0.checked_add(duration).map(Instant)
    }
}

/// The 16 bytes of a session's id as two little-endian halves.
#[derive(Clone, Copy, PartialEq, Eq)]
pub struct SessionId(pub u64, pub u64);

/// The delivery guarantee of one direction (FIXP 3.4.4); 01 numbers them 1 to 4.
#[derive(Clone, Copy, PartialEq, Eq)]
pub enum FlowType {
    Recoverable = 1,
    Idempotent = 2,
    Unsequenced = 3,
    None = 4,
}

impl FlowType {
    /// The flows that number application messages (FIXP 3.5.1).
    pub fn is_sequenced(self) -> bool
        ensures { result ≡ is_sequenced self }
    {
        matches!(self, FlowType::Recoverable | FlowType::Idempotent)
    }

    pub fn is_recoverable(self) -> bool
        ensures { result ≡ is_recoverable self }
    {
        matches!(self, FlowType::Recoverable)
    }

    pub fn is_idempotent(self) -> bool
        ensures { result ≡ is_idempotent self }
    {
        matches!(self, FlowType::Idempotent)
    }

    /// Whether this direction carries no application messages.
    pub fn is_none(self) -> bool
        ensures { result ≡ carries_none self }
    {
        matches!(self, FlowType::None)
    }
}

/// The code of a Terminate (FIXP 4.4); 01 numbers them 1 to 4.
#[derive(Clone, Copy, PartialEq, Eq)]
pub enum TerminationCode {
    Finished = 1,
    UnspecifiedError = 2,
    ReRequestOutOfBounds = 3,
    ReRequestInProgress = 4,
}

impl TerminationCode {
    /// A graceful end.
    pub fn is_finished(self) -> bool
        ensures { result ≡ is_finished self }
    {
        matches!(self, TerminationCode::Finished)
    }
}

/// The code of a RetransmitReject (FIXP 4.6.2.3); 01 numbers them 1 to 3.
#[derive(Clone, Copy, PartialEq, Eq)]
pub enum RetransmitRejectCode {
    OutOfRange = 1,
    InvalidSession = 2,
    RequestLimitExceeded = 3,
}
