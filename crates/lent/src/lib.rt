//! The queue lent: the calls, and the queue's own functions, in the form that fills the caller's queue where it stands (01, "Which shape goes where").
//! Each goes through the by-value form, and stores the queue that it leaves.
#![tactic(auto)]

ghost use Rattle.std.specs.Prelude.{◌<◌, ◌∷◌, [], length};
ghost use Rattle.rules.specs.State.{queued};
ghost use Rattle.rules.specs.Outputs.{send, close_transport};
ghost use Rattle.rules.specs.Calls.{transport_closed};
ghost use Rattle.rules.specs.Calls.{bind_call, release_call, peer_call, application_call, send_call, terminate_call, retransmit_call, reject_call, end_call, timeout_call};
ghost use Rattle.queue.specs.View.{queue_of, OutsWf, QueueIs, PolledIs};
ghost use Rattle.calls.specs.View.{Answered};
ghost use Rattle.lent.specs.View.{called, polled};

use calls::Called;
use queue::Outputs;
use session::Session;
use types::answers::{Refusal, Verdict};
use types::binding::Link;
use types::ids::{Instant, Nanotime, RetransmitRejectCode, SeqNum, TerminationCode};
use types::messages::{PeerMessage, SessionMessage};
use types::output::{Event, Output};
use types::reasons::Reason;

/// What a call hands back: all but the queue, which the caller has.
#[derive(Clone, Copy)]
pub struct Handed {
    pub session: Session,
    pub link: Link,
    pub answer: Result<Verdict, Refusal>,
}

/// Makes a by-value call with the queue that is lent, and stores the queue that it leaves.
fn lend<F: FnOnce(Outputs) -> Called>(q: &mut Outputs, call: F) -> Handed
    requires { F.pre call q.old }
    ensures { F.post call q.old (called result q.new) }
{
    let done = call(*q);
    *q = done.queue;
    Handed {
        session: done.session,
        link: done.link,
        answer: done.answer,
    }
}

/// Adds an output at the back.
pub fn push(q: &mut Outputs, o: Output)
    requires outs_wf { OutsWf q.old }
    requires q_len_bound { length (queue_of q.old).outs < 32 }
    ensures { QueueIs q.new (queued (queue_of q.old) (o ∷ [])) }
{
    *q = q.push(o);
}

/// A session message to the peer, with no reason.
pub fn send(q: &mut Outputs, message: SessionMessage)
    requires outs_wf { OutsWf q.old }
    requires q_len_bound { length (queue_of q.old).outs < 32 }
    ensures { QueueIs q.new (queued (queue_of q.old) (send message ∷ [])) }
{
    *q = q.send(message);
}

/// An event for the host, with no reason.
pub fn event(q: &mut Outputs, event: Event)
    requires outs_wf { OutsWf q.old }
    requires q_len_bound { length (queue_of q.old).outs < 32 }
    ensures { QueueIs q.new (queued (queue_of q.old) (Rattle.rules.specs.Outputs.event event ∷ [])) }
{
    *q = q.event(event);
}

/// Asks the host to close the transport, and sets the closing flag.
pub fn close_transport(q: &mut Outputs)
    requires outs_wf { OutsWf q.old }
    requires q_len_bound { length (queue_of q.old).outs < 32 }
    ensures { QueueIs q.new (queued (queue_of q.old) (close_transport ∷ [])) }
{
    *q = q.close_transport();
}

/// The host reported the transport closed.
pub fn transport_closed(q: &mut Outputs)
    requires { OutsWf q.old }
    ensures { QueueIs q.new (transport_closed (queue_of q.old)) }
{
    *q = q.transport_closed();
}

/// The first output goes to the host.
pub fn poll_output(q: &mut Outputs) -> Option<Output>
    requires { OutsWf q.old }
    ensures { PolledIs (polled result q.new) (queue_of q.old) }
{
    let polled = q.poll_output();
    *q = polled.queue;
    polled.output
}

/// Binds to a transport: 1, 4, 7.
pub fn bind(
    q: &mut Outputs,
    session: Session,
    link: Link,
    now: Instant,
    stamp: Nanotime,
    local_keepalive: u64,
    remote_keepalive: u64,
    next: Option<SeqNum>,
) -> Handed
    ensures { Answered (bind_call now stamp local_keepalive remote_keepalive next) (called result q.new) session link q.old }
{
    lend(
        q,
        |queue| calls::bind(
            session,
            link,
            queue,
            now,
            stamp,
            local_keepalive,
            remote_keepalive,
            next,
        ),
    )
}

/// Releases the transport, bound or not: 1.
pub fn release(q: &mut Outputs, session: Session, link: Link) -> Handed
    ensures { Answered release_call (called result q.new) session link q.old }
{
    lend(q, |queue| calls::release(session, link, queue))
}

/// A session message of the peer, with its reason beside it: 1, 3, 5, 7.
pub fn on_peer(
    q: &mut Outputs,
    session: Session,
    link: Link,
    now: Instant,
    stamp: Nanotime,
    message: PeerMessage,
    text: Reason,
) -> Handed
    ensures { Answered (peer_call now stamp message text) (called result q.new) session link q.old }
{
    lend(
        q,
        |queue| calls::on_peer(session, link, queue, now, stamp, message, text),
    )
}

/// An application message of the peer: 1, 3, 7.
pub fn on_application(
    q: &mut Outputs,
    session: Session,
    link: Link,
    now: Instant,
    stamp: Nanotime,
) -> Handed
    ensures { Answered (application_call now stamp) (called result q.new) session link q.old }
{
    lend(
        q,
        |queue| calls::on_application(session, link, queue, now, stamp),
    )
}

/// Runs the timers that are due: 1, 3, 7.
pub fn on_timeout(
    q: &mut Outputs,
    session: Session,
    link: Link,
    now: Instant,
    stamp: Nanotime,
) -> Handed
    ensures { Answered (timeout_call now stamp) (called result q.new) session link q.old }
{
    lend(
        q,
        |queue| calls::on_timeout(session, link, queue, now, stamp),
    )
}

/// Numbers an application message about to be sent: 1, 3, 7, then 8, 9, 10 or 11.
pub fn send_application(q: &mut Outputs, session: Session, link: Link, now: Instant) -> Handed
    ensures { Answered (send_call now) (called result q.new) session link q.old }
{
    lend(
        q,
        |queue| calls::send_application(session, link, queue, now),
    )
}

/// Starts to unbind: 1, 3, 7, then 8, 14.
pub fn terminate(
    q: &mut Outputs,
    session: Session,
    link: Link,
    now: Instant,
    code: TerminationCode,
    text: Reason,
) -> Handed
    ensures { Answered (terminate_call now code text) (called result q.new) session link q.old }
{
    lend(
        q,
        |queue| calls::terminate(session, link, queue, now, code, text),
    )
}

/// The next batch of the request being served: 1, 3, 6, 7, then 8, 12, 13, 11.
pub fn retransmit(q: &mut Outputs, session: Session, link: Link, now: Instant, count: u32) -> Handed
    ensures { Answered (retransmit_call now count) (called result q.new) session link q.old }
{
    lend(
        q,
        |queue| calls::retransmit(session, link, queue, now, count),
    )
}

/// Refuses the request being served: 1, 3, 7, then 8, 14, 12.
pub fn reject_retransmit_request(
    q: &mut Outputs,
    session: Session,
    link: Link,
    code: RetransmitRejectCode,
    text: Reason,
) -> Handed
    ensures { Answered (reject_call code text) (called result q.new) session link q.old }
{
    lend(
        q,
        |queue| calls::reject_retransmit_request(session, link, queue, code, text),
    )
}

/// Stops serving before all was sent: 1, 3, then 8, 12.
pub fn end_retransmission(q: &mut Outputs, session: Session, link: Link) -> Handed
    ensures { Answered end_call (called result q.new) session link q.old }
{
    lend(q, |queue| calls::end_retransmission(session, link, queue))
}
