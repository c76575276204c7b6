//! The exported calls: any record and any message, refused by 01's table in its order or done as the rule book says.
#![tactic(auto)]

ghost use Rattle.std.specs.Prelude.{◌≡◌, ◌+◌, ◌≤◌, not, eqb, length, None, Some, OnOk, IfOk};
ghost use Rattle.types.specs.Reasons.{reason_fits};
ghost use Rattle.queue.specs.View.{queue_of, OutsWf};
ghost use Rattle.rules.specs.Names.refusal as why;
ghost use Rattle.rules.specs.Local.{unless};
ghost use Rattle.rules.specs.Calls.{config_fits, is_bound, unlinked, opening, opened};
ghost use Rattle.rules.specs.Calls.{bind_call, release_call, peer_call, application_call, send_call, terminate_call, retransmit_call, reject_call, end_call, timeout_call};
ghost use Rattle.calls.specs.View.{good_record, if_good, of_record, of_bound, with_room, Checked, Found, Ready, Answered, called_of, Unchanged, Done, least_config, opened_as};

use queue::Outputs;
use session::{Session, Step};
use types::answers::{Refusal, Verdict};
use types::binding::{Binding, Bound, Link};
use types::config::{FixpConfig, RetransmitStallPolicy};
use types::ids::{
    FlowType, Instant, Nanotime, RetransmitRejectCode, SeqNum, SessionId, TerminationCode,
};
use types::messages::PeerMessage;
use types::reasons::Reason;

// Session, link and queue are three arguments: `lent` has the queue apart from the other two.
/// What a call leaves, and its answer.
#[derive(Clone, Copy)]
pub struct Called {
    pub session: Session,
    pub link: Link,
    pub queue: Outputs,
    pub answer: Result<Verdict, Refusal>,
}

/// 2: `max_gap_len` or `max_retransmit_count` 0, or `max_pending_gaps` 0 or over 64, is out of range.
#[tactic(auto, unfolding(rules::specs::Calls::config_fits))]
pub fn config_fits(config: FixpConfig) -> bool
    ensures { result ≡ config_fits config }
{
    config.max_gap_len >= 1
        && config.max_retransmit_count >= 1
        && config.max_pending_gaps >= 1
        && config.max_pending_gaps <= 64
}

/// 1: every count, position and reason length within its room, and the configuration in its range.
#[tactic(auto, unfolding(crate::specs::View::good_record))]
pub fn is_good(session: Session, link: Link, queue: Outputs) -> bool
    ensures { result ≡ good_record session link queue }
{
    config_fits(session.config) && session.gaps.sound() && link.reason.fits() && queue.sound()
}

/// 1: a bad record is refused before anything else.
pub fn good(session: Session, link: Link, queue: Outputs) -> Result<(), Refusal>
    ensures value { result ≡ if_good (good_record session link queue) tt }
    ensures is { Checked result (of_record session link queue) }
    ensures ready { OnOk result (Ready session link queue link.binding 0) }
{
    if !is_good(session, link, queue) {
        return Err(Refusal::BadRecord);
    }
    Ok(())
}

/// 7: at least 6 free places.
fn room(queue: Outputs) -> Result<(), Refusal>
    requires { OutsWf queue }
    ensures is { Checked result (with_room queue) }
    ensures room { OnOk result (length (queue_of queue).outs + 6 ≤ 32) }
{
    if queue.len() + 6 > 32 {
        return Err(Refusal::OutputFull);
    }
    Ok(())
}

/// What a bind asks for: 1, 4, 7.
fn unbound(session: Session, link: Link, queue: Outputs) -> Result<(), Refusal>
    ensures is { Checked result (λ rest. of_record session link queue (unless (not (is_bound link.binding)) why.AlreadyBound (with_room queue rest))) }
    ensures ready { OnOk result (Ready session link queue None 6) }
{
    good(session, link, queue)?;
    if link.binding.is_some() {
        return Err(Refusal::AlreadyBound);
    }
    room(queue)
}

/// The binding that a call is made on: 1, 3.
fn bound(session: Session, link: Link, queue: Outputs) -> Result<Binding, Refusal>
    ensures is { Found result (of_bound session link queue) }
    ensures ready { IfOk result (λ b. Ready session link queue (Some b) 0) }
{
    good(session, link, queue)?;
    link.binding.ok_or(Refusal::NotBound)
}

/// The binding, and room for a call: 1, 3, 7.
fn bound_with_room(session: Session, link: Link, queue: Outputs) -> Result<Binding, Refusal>
    ensures is { Found result (λ k. of_bound session link queue (λ b. with_room queue (k b))) }
    ensures ready { IfOk result (λ b. Ready session link queue (Some b) 6) }
{
    let binding = bound(session, link, queue)?;
    room(queue)?;
    Ok(binding)
}

/// What a message of the peer asks for: 1, 3, 5, 7.
fn bound_for_message(
    session: Session,
    link: Link,
    queue: Outputs,
    text: Reason,
) -> Result<Binding, Refusal>
    ensures is { Found result (λ k. of_bound session link queue (λ b. unless (reason_fits text) why.BadMessage (with_room queue (k b)))) }
    ensures ready { IfOk result (λ b. Ready session link queue (Some b) 6) }
{
    let binding = bound(session, link, queue)?;
    if !text.fits() {
        return Err(Refusal::BadMessage);
    }
    room(queue)?;
    Ok(binding)
}

/// What a batch of `count` messages asks for: 1, 3, 6, 7.
fn bound_for_batch(
    session: Session,
    link: Link,
    queue: Outputs,
    count: u32,
) -> Result<Binding, Refusal>
    ensures is { Found result (λ k. of_bound session link queue (λ b. unless (not (eqb count 0)) why.ZeroCount (with_room queue (k b)))) }
    ensures ready { IfOk result (λ b. Ready session link queue (Some b) 6) }
{
    let binding = bound(session, link, queue)?;
    if count == 0 {
        return Err(Refusal::ZeroCount);
    }
    room(queue)?;
    Ok(binding)
}

/// A refused call changes nothing.
fn refused(session: Session, link: Link, queue: Outputs, refusal: Refusal) -> Called
    ensures { Unchanged result refusal session link queue }
{
    Called {
        session,
        link,
        queue,
        answer: Err(refusal),
    }
}

/// No binding.
fn unlink() -> Link
    ensures { result ≡ unlinked }
{
    Link {
        binding: None,
        reason: Reason::none(),
    }
}

/// A step's parts: Unbind drops the binding, else `reason` stands beside it. A refused step has left all as it was.
fn answered(step: Step, reason: Reason) -> Called
    ensures { result ≡ called_of step reason }
{
    let link = match step.bound {
        Bound::Stay => Link {
            binding: Some(step.binding),
            reason,
        },
        Bound::Unbind => unlink(),
    };
    Called {
        session: step.session,
        link,
        queue: step.queue,
        answer: step.answer,
    }
}

/// Binds to a transport: 1, 4, 7.
pub fn bind(
    session: Session,
    link: Link,
    queue: Outputs,
    now: Instant,
    stamp: Nanotime,
    local_keepalive: u64,
    remote_keepalive: u64,
    next: Option<SeqNum>,
) -> Called
    ensures { Answered (bind_call now stamp local_keepalive remote_keepalive next) result session link queue }
{
    if let Err(refusal) = unbound(session, link, queue) {
        return refused(session, link, queue, refusal);
    }
    answered(
        session.bind(queue, now, stamp, local_keepalive, remote_keepalive, next),
        Reason::none(),
    )
}

/// Releases the transport, bound or not: 1.
pub fn release(session: Session, link: Link, queue: Outputs) -> Called
    ensures { Answered release_call result session link queue }
{
    if let Err(refusal) = good(session, link, queue) {
        return refused(session, link, queue, refusal);
    }
    Called {
        session: session.release_binding_state(),
        link: unlink(),
        queue,
        answer: Ok(Verdict::Done),
    }
}

/// A session message of the peer, with its reason beside it: 1, 3, 5, 7.
pub fn on_peer(
    session: Session,
    link: Link,
    queue: Outputs,
    now: Instant,
    stamp: Nanotime,
    message: PeerMessage,
    text: Reason,
) -> Called
    ensures { Answered (peer_call now stamp message text) result session link queue }
{
    let binding = match bound_for_message(session, link, queue, text) {
        Ok(binding) => binding,
        Err(refusal) => return refused(session, link, queue, refusal),
    };
    answered(
        session.on_peer(binding, queue, message, now, stamp, link.reason, text),
        link.reason,
    )
}

/// An application message of the peer: 1, 3, 7.
pub fn on_application(
    session: Session,
    link: Link,
    queue: Outputs,
    now: Instant,
    stamp: Nanotime,
) -> Called
    ensures { Answered (application_call now stamp) result session link queue }
{
    let binding = match bound_with_room(session, link, queue) {
        Ok(binding) => binding,
        Err(refusal) => return refused(session, link, queue, refusal),
    };
    answered(
        session.on_application(binding, queue, now, stamp),
        link.reason,
    )
}

/// Runs the timers that are due: 1, 3, 7.
pub fn on_timeout(
    session: Session,
    link: Link,
    queue: Outputs,
    now: Instant,
    stamp: Nanotime,
) -> Called
    ensures { Answered (timeout_call now stamp) result session link queue }
{
    let binding = match bound_with_room(session, link, queue) {
        Ok(binding) => binding,
        Err(refusal) => return refused(session, link, queue, refusal),
    };
    answered(
        session.on_timeout(binding, queue, now, stamp, link.reason),
        link.reason,
    )
}

/// Numbers an application message about to be sent: 1, 3, 7, then 8, 9, 10 or 11.
pub fn send_application(session: Session, link: Link, queue: Outputs, now: Instant) -> Called
    ensures { Answered (send_call now) result session link queue }
{
    let binding = match bound_with_room(session, link, queue) {
        Ok(binding) => binding,
        Err(refusal) => return refused(session, link, queue, refusal),
    };
    answered(session.send_application(binding, queue, now), link.reason)
}

/// Starts to unbind; the reason stands beside the binding until the answer: 1, 3, 7, then 8, 14.
pub fn terminate(
    session: Session,
    link: Link,
    queue: Outputs,
    now: Instant,
    code: TerminationCode,
    text: Reason,
) -> Called
    ensures { Answered (terminate_call now code text) result session link queue }
{
    let binding = match bound_with_room(session, link, queue) {
        Ok(binding) => binding,
        Err(refusal) => return refused(session, link, queue, refusal),
    };
    let step = session.terminate(binding, queue, code, text, now);
    match step.answer {
        Ok(_) => answered(step, text),
        // The reason that stood stays.
        Err(_) => answered(step, link.reason),
    }
}

/// The next batch of the request being served: 1, 3, 6, 7, then 8, 12, 13, 11.
pub fn retransmit(session: Session, link: Link, queue: Outputs, now: Instant, count: u32) -> Called
    ensures { Answered (retransmit_call now count) result session link queue }
{
    let binding = match bound_for_batch(session, link, queue, count) {
        Ok(binding) => binding,
        Err(refusal) => return refused(session, link, queue, refusal),
    };
    answered(session.retransmit(binding, queue, count, now), link.reason)
}

/// Refuses the request being served: 1, 3, 7, then 8, 14, 12.
pub fn reject_retransmit_request(
    session: Session,
    link: Link,
    queue: Outputs,
    code: RetransmitRejectCode,
    text: Reason,
) -> Called
    ensures { Answered (reject_call code text) result session link queue }
{
    let binding = match bound_with_room(session, link, queue) {
        Ok(binding) => binding,
        Err(refusal) => return refused(session, link, queue, refusal),
    };
    answered(
        session.reject_retransmit_request(binding, queue, code, text),
        link.reason,
    )
}

/// Stops serving before all was sent: 1, 3, then 8, 12.
pub fn end_retransmission(session: Session, link: Link, queue: Outputs) -> Called
    ensures { Answered end_call result session link queue }
{
    let binding = match bound(session, link, queue) {
        Ok(binding) => binding,
        Err(refusal) => return refused(session, link, queue, refusal),
    };
    answered(session.end_retransmission(binding, queue), link.reason)
}

/// The session that stands in for one that was not opened.
fn least() -> FixpConfig
    ensures { result ≡ least_config }
{
    FixpConfig {
        max_gap_len: 1,
        max_retransmit_count: 1,
        max_pending_gaps: 1,
        retransmit_timeout: 0,
        peer_silence_grace: None,
        retransmit_stall_policy: RetransmitStallPolicy::EventOnly,
    }
}

/// A new session, unbound, with an empty queue: 2. Where refused there is none: what comes back is for no one to use.
pub fn open(
    id: SessionId,
    local_flow: FlowType,
    remote_flow: FlowType,
    config: FixpConfig,
) -> Called
    ensures { Done result (opened_as (opening config) (opened id local_flow remote_flow) config) }
{
    let link = unlink();
    let queue = Outputs::new();
    if !config_fits(config) {
        let session = Session::new(id, local_flow, remote_flow, least());
        return refused(session, link, queue, Refusal::BadConfig);
    }
    Called {
        session: Session::new(id, local_flow, remote_flow, config),
        link,
        queue,
        answer: Ok(Verdict::Done),
    }
}
