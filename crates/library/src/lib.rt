//! The calls for C and Rust: records as plain numbers, by value in and out.
#![tactic(auto)]

ghost use Rattle.std.specs.Prelude.{◌≡◌};
ghost use Rattle.library.specs.Exported.{is_clean, is_opening, refused_out, CallIs, OpenOut, deadline_reply, ClosedIs};
ghost use Rattle.library.specs.Records.{session_in, link_in, record_out, done_out};

use crate::answers::numbered;
use crate::codes::{flow_in, listed};
use crate::lists::gaps_in;
use crate::mirror::{Done, Number, Opening, Record, Reply, Request};
use crate::outputs::all_said;
use calls::Called;
use queue::Outputs;
use session::Session;
use trace::records::Entry;
use types::answers::Refusal;
use types::binding::Link;
use types::ids::{Instant, Nanotime, SeqNum};

pub mod answers;
pub mod codes;
pub mod lists;
pub mod mirror;
pub mod outputs;
pub mod parts;
pub mod requests;

impl From<Record> for Session {
    ghost from_gives = { λ r s. s ≡ session_in r };

    fn from(plain: Record) -> Session {
        Session {
            id: plain.id.into(),
            local_flow: flow_in(plain.local_flow),
            remote_flow: flow_in(plain.remote_flow),
            config: plain.config.into(),
            outbound_next: SeqNum(plain.outbound_next),
            inbound_next: plain.inbound_next.into(),
            start_pending: plain.start_pending,
            gaps: gaps_in(plain.missing, plain.overflow),
            outstanding: plain.asked.into(),
            replay: plain.batch.into(),
            awaiting_resume: plain.awaiting_resume,
            provider: plain.served.into(),
            peer_finished: plain.finished.into(),
            finalized: plain.finalized,
        }
    }
}

impl From<Record> for Link {
    ghost from_gives = { λ r l. l ≡ link_in r };

    fn from(plain: Record) -> Link {
        Link {
            binding: plain.bond.into(),
            reason: plain.reason.into(),
        }
    }
}

fn record_out(s: Session, link: Link, queue: Outputs) -> Record
    ensures { result ≡ record_out s link queue }
{
    Record {
        id: s.id.into(),
        local_flow: u8::from(s.local_flow),
        remote_flow: u8::from(s.remote_flow),
        start_pending: s.start_pending,
        awaiting_resume: s.awaiting_resume,
        finalized: s.finalized,
        config: s.config.into(),
        outbound_next: s.outbound_next.0,
        inbound_next: s.inbound_next.into(),
        missing: s.gaps.missing.into(),
        overflow: s.gaps.overflow_received.into(),
        asked: s.outstanding.into(),
        batch: s.replay.into(),
        served: s.provider.into(),
        finished: s.peer_finished.into(),
        bond: link.binding.into(),
        reason: link.reason.into(),
        queue: queue.into(),
    }
}

impl From<Called> for Done {
    ghost from_gives = { λ c d. d ≡ done_out c };

    fn from(called: Called) -> Done {
        Done {
            record: record_out(called.session, called.link, called.queue),
            reply: called.answer.into(),
        }
    }
}

fn refused(record: Record, refusal: Refusal) -> Done
    ensures { result ≡ refused_out «record» refusal }
{
    Done {
        record,
        reply: refusal.into(),
    }
}

/// Whether every number that stands for an enum is of its list.
fn is_clean(r: Record) -> bool
    ensures { result ≡ is_clean r }
{
    listed(r.local_flow, 4)
        && listed(r.remote_flow, 4)
        && listed(r.config.policy, 4)
        && listed(r.bond.phase, 3)
        && listed(r.bond.code, 4)
        && all_said(r.queue)
}

/// A call on a record. A number outside its list is refused: 1 in a record, then 5 in a request.
pub fn fixp_call(record: Record, request: Request) -> Done
    ensures { CallIs «record» request result }
{
    if !is_clean(record) {
        return refused(record, Refusal::BadRecord);
    }
    let session = Session::from(record);
    let link = Link::from(record);
    let mut queue = Outputs::from(record.queue);
    let entry = Entry::from(request);
    if dispatch::is_call(entry) {
        let handed = dispatch::run(
            &mut queue,
            session,
            link,
            entry,
            Instant(request.now),
            Nanotime(request.stamp),
            request.reason.into(),
        );
        return Done {
            record: record_out(handed.session, handed.link, queue),
            reply: handed.answer.into(),
        };
    }
    if !calls::is_good(session, link, queue) {
        return refused(record, Refusal::BadRecord);
    }
    refused(record, Refusal::BadMessage)
}

/// A new session. Flows and policy outside their lists are refused by 2, as a configuration out of range is.
pub fn fixp_open(opening: Opening) -> Done
    ensures { OpenOut opening result }
{
    let opened = calls::open(
        opening.id.into(),
        flow_in(opening.local_flow),
        flow_in(opening.remote_flow),
        opening.config.into(),
    );
    let done = Done::from(opened);
    if !is_open(opening) {
        return refused(done.record, Refusal::BadConfig);
    }
    done
}

/// Whether every number of an opening is of its list.
fn is_open(o: Opening) -> bool
    ensures { result ≡ is_opening o }
{
    listed(o.local_flow, 4) && listed(o.remote_flow, 4) && listed(o.config.policy, 4)
}

/// The next instant with work for a timeout, as the number of an ok: 1. Unbound there is none.
pub fn fixp_next_deadline(record: Record) -> Reply
    ensures { result ≡ deadline_reply «record» }
{
    if !is_clean(record) {
        return Refusal::BadRecord.into();
    }
    let session = Session::from(record);
    let link = Link::from(record);
    if !calls::is_good(session, link, record.queue.into()) {
        return Refusal::BadRecord.into();
    }
    let Some(binding) = link.binding else {
        return numbered(1, Number::default());
    };
    numbered(1, session.next_deadline(binding).into())
}

/// The host reports the transport closed: 1.
pub fn fixp_transport_closed(record: Record) -> Done
    ensures { ClosedIs «record» result }
{
    if !is_clean(record) {
        return refused(record, Refusal::BadRecord);
    }
    let session = Session::from(record);
    let link = Link::from(record);
    let queue = Outputs::from(record.queue);
    if !calls::is_good(session, link, queue) {
        return refused(record, Refusal::BadRecord);
    }
    Done {
        record: record_out(session, link, queue.transport_closed()),
        reply: numbered(1, Number::default()),
    }
}
