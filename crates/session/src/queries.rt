//! What a session is asked and does not change for.
ghost use Rattle.std.specs.Prelude.{◌≡◌};
ghost use Rattle.rules.specs.Queries.{next_outbound_seq, next_inbound_seq, has_pending_recovery, announced_next_seq, regresses};
ghost use Rattle.session.specs.View.{view};

use crate::Session;
use types::ids::{FlowType, SeqNum, SessionId};

impl Session {
    pub fn id(self) -> SessionId
        ensures { result ≡ (view self).id }
    {
        self.id
    }

    pub fn local_flow(self) -> FlowType
        ensures { result ≡ (view self).local_flow }
    {
        self.local_flow
    }

    pub fn remote_flow(self) -> FlowType
        ensures { result ≡ (view self).remote_flow }
    {
        self.remote_flow
    }

    /// The number of this side's next application message, if its flow has numbers.
    pub fn next_outbound_seq(self) -> Option<SeqNum>
        ensures { result ≡ next_outbound_seq (view self) }
    {
        if self.local_flow.is_sequenced() {
            return Some(self.outbound_next);
        }
        None
    }

    /// The number of the peer's next live application message, if its flow has numbers.
    pub fn next_inbound_seq(self) -> Option<SeqNum>
        ensures { result ≡ next_inbound_seq (view self) }
    {
        self.inbound_next
    }

    pub fn has_pending_recovery(self) -> bool
        ensures { result ≡ has_pending_recovery (view self) }
    {
        !self.gaps.is_empty()
    }

    /// Whether the logical session is over (FIXP 4.7.2).
    pub fn is_finalized(self) -> bool
        ensures { result ≡ (view self).finalized }
    {
        self.finalized
    }

    /// The NextSeqNo that this side announces when it binds.
    pub fn announced_next_seq(self) -> Option<SeqNum>
        ensures { result ≡ announced_next_seq (view self) }
    {
        self.next_outbound_seq()
    }

    /// Whether a NextSeqNo of the peer would move its flow backwards.
    pub fn regresses(self, next: Option<SeqNum>) -> bool
        ensures { result ≡ regresses next (view self) }
    {
        if self.start_pending {
            return false;
        }
        if !self.remote_flow.is_sequenced() {
            return false;
        }
        let Some(number) = next else {
            return false;
        };
        let Some(expected) = self.inbound_next else {
            return false;
        };
        number.0 < expected.0
    }
}
