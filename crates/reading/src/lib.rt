//! The calls that read a record or hand its outputs on: 1 alone refuses them, bound or not and however full the queue is
//! (01, "Refusal numbers"). Session and link are not given back: none of these changes them.
#![tactic(auto)]

ghost use Rattle.std.specs.Prelude.{◌≡◌};
ghost use Rattle.types.specs.States.{link_status};
ghost use Rattle.rules.specs.Queries.{next_outbound_seq, next_inbound_seq, has_pending_recovery, announced_next_seq};
ghost use Rattle.rules.specs.Calls.{deadline_of};
ghost use Rattle.queue.specs.View.{queue_of, OutsWf};
ghost use Rattle.session.specs.View.{view};
ghost use Rattle.calls.specs.View.{world_of, good_record, if_good};
ghost use Rattle.reading.specs.Reading.{PolledOf, PolledBy, ClosedBy};

use calls::good;
use queue::Outputs;
use session::Session;
use types::answers::{Refusal, SessionStatus};
use types::binding::Link;
use types::ids::{FlowType, Instant, SeqNum, SessionId};
use types::output::Output;

/// What a poll gives: the queue that it leaves, and the first output, if there is one.
#[derive(Clone, Copy)]
pub struct Polled {
    pub queue: Outputs,
    pub output: Result<Option<Output>, Refusal>,
}

/// What a report of a closed transport gives: the queue that it leaves.
#[derive(Clone, Copy)]
pub struct Closed {
    pub queue: Outputs,
    pub answer: Result<(), Refusal>,
}

/// The queue of a good record, polled; an empty one stays as it is.
fn poll(queue: Outputs) -> Polled
    requires { OutsWf queue }
    ensures { PolledOf (queue_of queue).outs result queue }
{
    if queue.len() == 0 {
        return Polled {
            queue,
            output: Ok(None),
        };
    }
    let polled = queue.poll_output();
    Polled {
        queue: polled.queue,
        output: Ok(polled.output),
    }
}

/// Hands the first output to the host; an empty queue stays as it is.
pub fn poll_output(session: Session, link: Link, queue: Outputs) -> Polled
    ensures { PolledBy (good_record session link queue) result queue }
{
    match good(session, link, queue) {
        Err(refusal) => Polled {
            queue,
            output: Err(refusal),
        },
        Ok(()) => poll(queue),
    }
}

/// The host reports the transport closed: the closing flag is cleared.
pub fn transport_closed(session: Session, link: Link, queue: Outputs) -> Closed
    ensures { ClosedBy (good_record session link queue) result queue }
{
    match good(session, link, queue) {
        Err(refusal) => Closed {
            queue,
            answer: Err(refusal),
        },
        Ok(()) => Closed {
            queue: queue.transport_closed(),
            answer: Ok(()),
        },
    }
}

/// The next instant at which a timeout has work to do; unbound there is none (01, "Built, and not built").
pub fn next_deadline(
    session: Session,
    link: Link,
    queue: Outputs,
) -> Result<Option<Instant>, Refusal>
    ensures { result ≡ if_good (good_record session link queue) (deadline_of (world_of session link queue) link.binding) }
{
    good(session, link, queue)?;
    Ok(
        link.binding
            .and_then(|binding| session.next_deadline(binding)),
    )
}

/// Unbound, or where the binding is.
pub fn status(session: Session, link: Link, queue: Outputs) -> Result<SessionStatus, Refusal>
    ensures { result ≡ if_good (good_record session link queue) (link_status link.binding) }
{
    good(session, link, queue)?;
    Ok(
        link.binding
            .map_or(SessionStatus::Unbound, |binding| binding.status()),
    )
}

pub fn id(session: Session, link: Link, queue: Outputs) -> Result<SessionId, Refusal>
    ensures { result ≡ if_good (good_record session link queue) (view session).id }
{
    good(session, link, queue)?;
    Ok(session.id())
}

/// The flow of this side's application messages.
pub fn local_flow(session: Session, link: Link, queue: Outputs) -> Result<FlowType, Refusal>
    ensures { result ≡ if_good (good_record session link queue) (view session).local_flow }
{
    good(session, link, queue)?;
    Ok(session.local_flow())
}

/// The flow of the peer's application messages.
pub fn remote_flow(session: Session, link: Link, queue: Outputs) -> Result<FlowType, Refusal>
    ensures { result ≡ if_good (good_record session link queue) (view session).remote_flow }
{
    good(session, link, queue)?;
    Ok(session.remote_flow())
}

/// The number of this side's next application message, if its flow has numbers.
pub fn next_outbound_seq(
    session: Session,
    link: Link,
    queue: Outputs,
) -> Result<Option<SeqNum>, Refusal>
    ensures { result ≡ if_good (good_record session link queue) (next_outbound_seq (view session)) }
{
    good(session, link, queue)?;
    Ok(session.next_outbound_seq())
}

/// The number of the peer's next live application message, if its flow has numbers.
pub fn next_inbound_seq(
    session: Session,
    link: Link,
    queue: Outputs,
) -> Result<Option<SeqNum>, Refusal>
    ensures { result ≡ if_good (good_record session link queue) (next_inbound_seq (view session)) }
{
    good(session, link, queue)?;
    Ok(session.next_inbound_seq())
}

/// The NextSeqNo that this side announces when it binds.
pub fn announced_next_seq(
    session: Session,
    link: Link,
    queue: Outputs,
) -> Result<Option<SeqNum>, Refusal>
    ensures { result ≡ if_good (good_record session link queue) (announced_next_seq (view session)) }
{
    good(session, link, queue)?;
    Ok(session.announced_next_seq())
}

/// Whether something is missing.
pub fn has_pending_recovery(session: Session, link: Link, queue: Outputs) -> Result<bool, Refusal>
    ensures { result ≡ if_good (good_record session link queue) (has_pending_recovery (view session)) }
{
    good(session, link, queue)?;
    Ok(session.has_pending_recovery())
}

/// Whether the logical session is over (FIXP 4.7.2).
pub fn is_finalized(session: Session, link: Link, queue: Outputs) -> Result<bool, Refusal>
    ensures { result ≡ if_good (good_record session link queue) (view session).finalized }
{
    good(session, link, queue)?;
    Ok(session.is_finalized())
}

/// Whether a NextSeqNo of the peer would move its flow backwards.
pub fn regresses(
    session: Session,
    link: Link,
    queue: Outputs,
    next: Option<SeqNum>,
) -> Result<bool, Refusal>
    ensures { result ≡ if_good (good_record session link queue) (Rattle.rules.specs.Queries.regresses next (view session)) }
{
    good(session, link, queue)?;
    Ok(session.regresses(next))
}
