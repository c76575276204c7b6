//! The meaning of a record (01, "Trace program").
ghost use Rattle.std.specs.Prelude.{◌≡◌, ◌+◌, ◌<◌, ◌^◌};
ghost use Rattle.types.specs.Reasons.{max_reason_len};
ghost use Rattle.trace.specs.Format.{config_at, open_of, bind_of, peer_reject_of, peer_terminate_of, terminate_of, reject_of};
ghost use Rattle.trace.specs.Format.{sequence_of, context_of, request_of, retransmission_of, finished_of, applied_of, not_applied_of};
ghost use Rattle.trace.specs.Format.{peer_of, entry_of, reason_at, reason_of, framed, decode};

use crate::numbers::{
    HEADER, byte_at, bytes_at, id_at, maybe_duration, maybe_seq, u16_at, u32_at, u64_at,
};
use types::config::{FixpConfig, RetransmitStallPolicy};
use types::ids::{
    FlowType, Instant, Nanotime, RetransmitRejectCode, SeqNum, SessionId, TerminationCode,
};
use types::messages::{
    Applied, Context, FinishedSending, NotApplied, PeerMessage, Retransmission, RetransmitReject,
    RetransmitRequest, Sequence, Terminate,
};
use types::reasons::Reason;

/// What a record asks for. A reason stands beside it.
#[derive(Clone, Copy)]
pub enum Entry {
    Open {
        id: SessionId,
        local_flow: FlowType,
        remote_flow: FlowType,
        config: FixpConfig,
    },
    Bind {
        local_keepalive: u64,
        remote_keepalive: u64,
        next: Option<SeqNum>,
    },
    Release,
    Application,
    Peer(PeerMessage),
    Send,
    Terminate(TerminationCode),
    Retransmit(u32),
    Reject(RetransmitRejectCode),
    End,
    Timeout,
    Malformed,
}

/// A record: what it asks for, its instant and stamp, and the reason that fills its rest.
#[derive(Clone, Copy)]
pub struct Record {
    pub entry: Entry,
    pub now: Instant,
    pub stamp: Nanotime,
    pub reason: Reason,
}

/// The configuration in an open.
#[tactic(auto, unfolding(crate::specs::Format::config_at))]
fn config_at(s: &[u8], retransmit_stall_policy: RetransmitStallPolicy) -> FixpConfig
    ensures { result ≡ config_at s.now retransmit_stall_policy }
{
    FixpConfig {
        max_gap_len: u64_at(s, 38),
        max_retransmit_count: u32_at(s, 46),
        max_pending_gaps: u16_at(s, 50),
        retransmit_timeout: u64_at(s, 52),
        peer_silence_grace: maybe_duration(u64_at(s, 60)),
        retransmit_stall_policy,
    }
}

/// Kind 1.
#[tactic(auto, unfolding(crate::specs::Format::open_of))]
fn open_at(s: &[u8]) -> Entry
    ensures { result ≡ open_of s.now }
{
    let Ok(local_flow) = FlowType::try_from(byte_at(s, 36)) else {
        return Entry::Malformed;
    };
    let Ok(remote_flow) = FlowType::try_from(byte_at(s, 37)) else {
        return Entry::Malformed;
    };
    let Ok(stall) = RetransmitStallPolicy::try_from(byte_at(s, 68)) else {
        return Entry::Malformed;
    };
    Entry::Open {
        id: id_at(s, 20),
        local_flow,
        remote_flow,
        config: config_at(s, stall),
    }
}

/// Kind 2.
#[tactic(auto, unfolding(crate::specs::Format::bind_of))]
fn bind_at(s: &[u8]) -> Entry
    ensures { result ≡ bind_of s.now }
{
    Entry::Bind {
        local_keepalive: u64_at(s, 20),
        remote_keepalive: u64_at(s, 28),
        next: maybe_seq(u64_at(s, 36)),
    }
}

/// Kind 32. All ones are a number here.
fn sequence_at(s: &[u8]) -> PeerMessage
    ensures { result ≡ sequence_of s.now }
{
    PeerMessage::Sequence(Sequence {
        next_seq_no: SeqNum(u64_at(s, 20)),
    })
}

/// Kind 33. All ones are a number here.
fn context_at(s: &[u8]) -> PeerMessage
    ensures { result ≡ context_of s.now }
{
    PeerMessage::Context(Context {
        session_id: id_at(s, 20),
        next_seq_no: SeqNum(u64_at(s, 36)),
    })
}

/// Kind 35.
fn request_at(s: &[u8]) -> PeerMessage
    ensures { result ≡ request_of s.now }
{
    PeerMessage::RetransmitRequest(RetransmitRequest {
        session_id: id_at(s, 20),
        timestamp: Nanotime(u64_at(s, 36)),
        from_seq_no: SeqNum(u64_at(s, 44)),
        count: u32_at(s, 52),
    })
}

/// Kind 36.
fn retransmission_at(s: &[u8]) -> PeerMessage
    ensures { result ≡ retransmission_of s.now }
{
    PeerMessage::Retransmission(Retransmission {
        session_id: id_at(s, 20),
        request_timestamp: Nanotime(u64_at(s, 36)),
        next_seq_no: SeqNum(u64_at(s, 44)),
        count: u32_at(s, 52),
    })
}

/// Kind 37.
#[tactic(auto, unfolding(crate::specs::Format::peer_reject_of))]
fn peer_reject_at(s: &[u8]) -> Entry
    ensures { result ≡ peer_reject_of s.now }
{
    let Ok(code) = RetransmitRejectCode::try_from(byte_at(s, 44)) else {
        return Entry::Malformed;
    };
    Entry::Peer(PeerMessage::RetransmitReject(RetransmitReject {
        session_id: id_at(s, 20),
        request_timestamp: Nanotime(u64_at(s, 36)),
        code,
    }))
}

/// Kind 38.
#[tactic(auto, unfolding(crate::specs::Format::peer_terminate_of))]
fn peer_terminate_at(s: &[u8]) -> Entry
    ensures { result ≡ peer_terminate_of s.now }
{
    let Ok(code) = TerminationCode::try_from(byte_at(s, 36)) else {
        return Entry::Malformed;
    };
    Entry::Peer(PeerMessage::Terminate(Terminate {
        session_id: id_at(s, 20),
        code,
    }))
}

/// Kind 39.
fn finished_at(s: &[u8]) -> PeerMessage
    ensures { result ≡ finished_of s.now }
{
    PeerMessage::FinishedSending(FinishedSending {
        session_id: id_at(s, 20),
        last_seq_no: maybe_seq(u64_at(s, 36)),
    })
}

/// Kind 41.
fn applied_at(s: &[u8]) -> PeerMessage
    ensures { result ≡ applied_of s.now }
{
    PeerMessage::Applied(Applied {
        from_seq_no: SeqNum(u64_at(s, 20)),
        count: u32_at(s, 28),
    })
}

/// Kind 42.
fn not_applied_at(s: &[u8]) -> PeerMessage
    ensures { result ≡ not_applied_of s.now }
{
    PeerMessage::NotApplied(NotApplied {
        from_seq_no: SeqNum(u64_at(s, 20)),
        count: u32_at(s, 28),
    })
}

/// Kind 65.
#[tactic(auto, unfolding(crate::specs::Format::terminate_of))]
fn terminate_at(s: &[u8]) -> Entry
    ensures { result ≡ terminate_of s.now }
{
    let Ok(code) = TerminationCode::try_from(byte_at(s, 20)) else {
        return Entry::Malformed;
    };
    Entry::Terminate(code)
}

/// Kind 67.
#[tactic(auto, unfolding(crate::specs::Format::reject_of))]
fn reject_at(s: &[u8]) -> Entry
    ensures { result ≡ reject_of s.now }
{
    let Ok(code) = RetransmitRejectCode::try_from(byte_at(s, 20)) else {
        return Entry::Malformed;
    };
    Entry::Reject(code)
}

// `kind` is the number in the record's bytes, here and below: any number may stand there, and each of ours has a length of its own.
/// The messages of the peer, kinds 32 to 44, with the length of each record.
#[tactic(auto, unfolding(crate::specs::Format::peer_of, crate::specs::Format::exactly, crate::specs::Format::at_least))]
fn peer_of(kind: u16, s: &[u8]) -> Entry
    ensures { result ≡ peer_of kind s.now }
{
    match (kind, s.len()) {
        (32, 28) => Entry::Peer(sequence_at(s)),
        (33, 44) => Entry::Peer(context_at(s)),
        (34, 20) => Entry::Peer(PeerMessage::UnsequencedHeartbeat),
        (35, 56) => Entry::Peer(request_at(s)),
        (36, 56) => Entry::Peer(retransmission_at(s)),
        (37, 45..) => peer_reject_at(s),
        (38, 37..) => peer_terminate_at(s),
        (39, 44) => Entry::Peer(finished_at(s)),
        (40, 36) => Entry::Peer(PeerMessage::FinishedReceiving),
        (41, 32) => Entry::Peer(applied_at(s)),
        (42, 32) => Entry::Peer(not_applied_at(s)),
        (43, 20) => Entry::Peer(PeerMessage::Topic),
        (44, 20) => Entry::Peer(PeerMessage::MessageTemplate),
        _ => Entry::Malformed,
    }
}

/// The calls, with the length of each record, and any other kind.
#[tactic(auto, unfolding(crate::specs::Format::entry_of, crate::specs::Format::peer_of, crate::specs::Format::exactly, crate::specs::Format::at_least))]
fn entry_of(kind: u16, s: &[u8]) -> Entry
    ensures { result ≡ entry_of kind s.now }
{
    match (kind, s.len()) {
        (1, 69) => open_at(s),
        (2, 44) => bind_at(s),
        (3, 20) => Entry::Release,
        (4, 20) => Entry::Application,
        (64, 20) => Entry::Send,
        (65, 21..) => terminate_at(s),
        (66, 24) => Entry::Retransmit(u32_at(s, 20)),
        (67, 21..) => reject_at(s),
        (68, 20) => Entry::End,
        (69, 20) => Entry::Timeout,
        _ => peer_of(kind, s),
    }
}

/// The rest of a record from `at` on: its length, and the bytes that there is room for.
#[tactic(auto, unfolding(crate::specs::Format::reason_at))]
fn reason_at(s: &[u8], at: usize) -> Reason
    requires { at + max_reason_len < 2 ^ 64 }
    ensures { result ≡ reason_at s.now at }
{
    Reason {
        bytes: bytes_at(s, at),
        len: s.len().saturating_sub(at),
    }
}

/// The reason of a record, of the kinds that have one.
#[tactic(auto, unfolding(crate::specs::Format::reason_of))]
fn reason_of(kind: u16, s: &[u8]) -> Reason
    ensures { result ≡ reason_of kind s.now }
{
    match kind {
        37 => reason_at(s, 45),
        38 => reason_at(s, 37),
        65 | 67 => reason_at(s, 21),
        _ => Reason::none(),
    }
}

/// Whether `s` has a header and is as long as it says.
#[tactic(auto, unfolding(crate::specs::Format::framed))]
fn is_framed(s: &[u8]) -> bool
    ensures { result ≡ framed s.now }
{
    HEADER <= s.len() && u16_at(s, 0) as usize == s.len()
}

/// The record that the bytes `s` are, or Malformed: for every byte string whatever.
#[tactic(auto, unfolding(crate::specs::Format::decode))]
pub fn read_record(s: &[u8]) -> Record
    ensures { result ≡ decode s.now }
{
    let kind = u16_at(s, 2);
    Record {
        entry: if is_framed(s) {
            entry_of(kind, s)
        } else {
            Entry::Malformed
        },
        now: Instant(u64_at(s, 4)),
        stamp: Nanotime(u64_at(s, 12)),
        reason: reason_of(kind, s),
    }
}
