//! A request's numbers as a call (01, "Trace program").
ghost use Rattle.std.specs.Prelude.{◌≡◌};
ghost use Rattle.library.specs.Requests.{message_in, entry_in, peer_in};

use crate::codes::{listed, rejection_in, termination_in};
use crate::mirror::Request;
use trace::records::Entry;
use types::ids::{Nanotime, SeqNum};
use types::messages::{
    Applied, Context, FinishedSending, NotApplied, PeerMessage, Retransmission, RetransmitReject,
    RetransmitRequest, Sequence, Terminate,
};

// No `From` here and at `peer_in`: each reads the fields of some kinds, and a Request as a whole is an Entry.
/// A peer's message by the kinds 32 to 44.
#[tactic(auto, unfolding(crate::specs::Requests::message_in))]
fn message_in(r: Request) -> PeerMessage
    ensures { result ≡ message_in r }
{
    match r.kind {
        32 => PeerMessage::Sequence(Sequence {
            next_seq_no: SeqNum(r.number),
        }),
        33 => PeerMessage::Context(Context {
            session_id: r.id.into(),
            next_seq_no: SeqNum(r.number),
        }),
        34 => PeerMessage::UnsequencedHeartbeat,
        35 => PeerMessage::RetransmitRequest(RetransmitRequest {
            session_id: r.id.into(),
            timestamp: Nanotime(r.message_stamp),
            from_seq_no: SeqNum(r.number),
            count: r.count,
        }),
        36 => PeerMessage::Retransmission(Retransmission {
            session_id: r.id.into(),
            request_timestamp: Nanotime(r.message_stamp),
            next_seq_no: SeqNum(r.number),
            count: r.count,
        }),
        37 => PeerMessage::RetransmitReject(RetransmitReject {
            session_id: r.id.into(),
            request_timestamp: Nanotime(r.message_stamp),
            code: rejection_in(r.code),
        }),
        38 => PeerMessage::Terminate(Terminate {
            session_id: r.id.into(),
            code: termination_in(r.code),
        }),
        39 => PeerMessage::FinishedSending(FinishedSending {
            session_id: r.id.into(),
            last_seq_no: r.seq.into(),
        }),
        40 => PeerMessage::FinishedReceiving,
        41 => PeerMessage::Applied(Applied {
            from_seq_no: SeqNum(r.number),
            count: r.count,
        }),
        42 => PeerMessage::NotApplied(NotApplied {
            from_seq_no: SeqNum(r.number),
            count: r.count,
        }),
        43 => PeerMessage::Topic,
        _ => PeerMessage::MessageTemplate,
    }
}

/// A peer's message with its code of its list.
#[tactic(auto, unfolding(crate::specs::Requests::peer_in))]
fn peer_in(r: Request) -> Entry
    ensures { result ≡ peer_in r }
{
    match r.kind {
        37 if !listed(r.code, 3) => Entry::Malformed,
        38 if !listed(r.code, 4) => Entry::Malformed,
        32..=44 => Entry::Peer(message_in(r)),
        _ => Entry::Malformed,
    }
}

/// By its kind; another kind or a code outside its list is Malformed.
impl From<Request> for Entry {
    ghost from_gives = { λ r e. e ≡ entry_in r };

    #[tactic(auto, unfolding(crate::specs::Requests::entry_in))]
    fn from(r: Request) -> Entry {
        match r.kind {
            2 => Entry::Bind {
                local_keepalive: r.local_keepalive,
                remote_keepalive: r.remote_keepalive,
                next: r.seq.into(),
            },
            3 => Entry::Release,
            4 => Entry::Application,
            64 => Entry::Send,
            65 if !listed(r.code, 4) => Entry::Malformed,
            65 => Entry::Terminate(termination_in(r.code)),
            66 => Entry::Retransmit(r.count),
            67 if !listed(r.code, 3) => Entry::Malformed,
            67 => Entry::Reject(rejection_in(r.code)),
            68 => Entry::End,
            69 => Entry::Timeout,
            _ => peer_in(r),
        }
    }
}
