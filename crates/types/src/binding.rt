//! A session bound to one transport (session.rs, Bound to Binding).
ghost use Rattle.std.specs.Prelude.{◌≡◌};
ghost use Rattle.types.specs.States.{is_established, is_closing, is_stay, status_of, leave_sequence};

use crate::answers::SessionStatus;
use crate::ids::{Instant, TerminationCode};
use crate::reasons::Reason;

/// Whether a step kept or ended the binding.
#[derive(Clone, Copy)]
pub enum Bound {
    Stay,
    Unbind,
}

impl Bound {
    pub fn is_stay(self) -> bool
        ensures { result ≡ is_stay self }
    {
        matches!(self, Bound::Stay)
    }
}

/// Where a binding is in its lifecycle. The reason of Terminating stands in the Link.
#[derive(Clone, Copy)]
pub enum BindState {
    Established,
    Terminating {
        sent_at: Instant,
        code: TerminationCode,
    },
    Closing {
        deadline: Option<Instant>,
    },
}

/// A session bound to one transport. Keepalives are nanoseconds.
#[derive(Clone, Copy)]
pub struct Binding {
    pub state: BindState,
    pub local_keepalive: u64,
    pub remote_keepalive: u64,
    /// When this side last sent an application message or a heartbeat.
    pub last_keepalive: Instant,
    /// When the peer last sent anything.
    pub last_received: Instant,
    /// Whether the receiver can number this side's next application message by itself; whatever switches context clears it (FIXP 3.5.4).
    pub in_sequence: bool,
}

impl Binding {
    pub fn status(self) -> SessionStatus
        ensures { result ≡ status_of self.state }
    {
        match self.state {
            BindState::Established => SessionStatus::Established,
            BindState::Terminating { .. } => SessionStatus::Terminating,
            BindState::Closing { .. } => SessionStatus::Closing,
        }
    }

    pub fn is_established(self) -> bool
        ensures { result ≡ is_established self.state }
    {
        matches!(self.state, BindState::Established)
    }

    pub fn is_closing(self) -> bool
        ensures { result ≡ is_closing self.state }
    {
        matches!(self.state, BindState::Closing { .. })
    }

    /// This side sent a session message other than a Sequence: the receiver may no longer number its next application message by itself, so that
    /// one goes behind a Sequence (FIXP, Appendix A 7.3.1.1). A Sequence too many is only a heartbeat, so this is always safe.
    pub fn leave_sequence(mut self) -> Binding
        ensures { result ≡ leave_sequence self }
    {
        self.in_sequence = false;
        self
    }
}

/// The binding of a record, if it is bound, with the reason of this side's Terminate beside it.
#[derive(Clone, Copy)]
pub struct Link {
    pub binding: Option<Binding>,
    pub reason: Reason,
}
