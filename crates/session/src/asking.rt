//! Asking for what is missing, one request at a time (FIXP 4.6), and saying that all was received (FIXP 4.7.2).
ghost use Rattle.std.specs.Prelude.{◌≡◌, ◌+◌, ◌-◌, ◌<◌};
ghost use Rattle.queue.specs.View.{queue_of};
ghost use Rattle.rules.specs.Asking.{is_outstanding, unasked, fewer, ask, request_missing, maybe_finish_receiving, recovered, completed_at, complete_outstanding, in_range, begin_batch, on_retransmission, on_retransmit_reject, rejected, re_request};
ghost use Rattle.session.specs.View.{view, SessWf, SessIs, StepIs, InOrder, Ready};

use crate::{Session, Step};
use queue::Outputs;
use types::binding::Binding;
use types::ids::{ALL_ONES, Instant, Nanotime, TerminationCode};
use types::messages::{
    FinishedReceiving, MessageName, Retransmission, RetransmitReject, RetransmitRequest,
    SessionMessage,
};
use types::output::Event;
use types::parts::{Gap, Outstanding, PeerFinished, Replay};
use types::reasons::{
    CLOCK, REJECT_UNASKED, RETRANSMISSION_FLOW, RETRANSMISSION_FOREIGN, RETRANSMISSION_OTHER,
    RETRANSMISSION_RANGE, RETRANSMISSION_UNASKED, Reason,
};

/// The smaller of a length and a limit.
fn at_most(len: u64, max: u32) -> u32
    ensures { result ≡ fewer len max }
{
    if len <= max as u64 {
        return len as u32;
    }
    max
}

impl Session {
    /// The request for a gap that is not empty.
    fn ask(
        mut self,
        binding: Binding,
        queue: Outputs,
        now: Instant,
        stamp: Nanotime,
        gap: Gap,
    ) -> Step
        requires ready { Ready 1 self queue }
        requires from_lt_end { gap.from.0 < gap.end.0 }
        ensures { StepIs result (queue_of queue) (ask now stamp gap (view self) binding) }
    {
        let count = at_most(gap.end.0 - gap.from.0, self.config.max_retransmit_count);
        let from = gap.from;
        let asked = queue.send(SessionMessage::RetransmitRequest(RetransmitRequest {
            session_id: self.id,
            timestamp: stamp,
            from_seq_no: from,
            count,
        }));
        let leaving = binding.leave_sequence();
        self.outstanding = Some(Outstanding {
            timestamp: stamp,
            from,
            count,
            delivered: 0,
            last_progress: now,
            interrupted: false,
            batch_complete: false,
            stall_reported: false,
        });
        self.stay(leaving, asked)
    }

    /// Whether a request is in flight.
    fn is_asking(self) -> bool
        ensures { result ≡ is_outstanding (view self).outstanding }
    {
        matches!(self.outstanding, Some(_))
    }

    /// Requests the start of the first unrecovered gap, if nothing is in flight (FIXP 4.6.1).
    pub fn request_missing(
        self,
        binding: Binding,
        queue: Outputs,
        now: Instant,
        stamp: Nanotime,
    ) -> Step
        requires { Ready 3 self queue }
        ensures { StepIs result (queue_of queue) (request_missing now stamp (view self) binding) }
    {
        if !binding.is_established() {
            return self.stay(binding, queue);
        }
        if !self.remote_flow.is_recoverable() {
            return self.stay(binding, queue);
        }
        if self.is_asking() {
            return self.stay(binding, queue);
        }
        let Some(gap) = self.gaps.front() else {
            return self.stay(binding, queue);
        };
        if gap.end.0 <= gap.from.0 {
            return self.stay(binding, queue);
        }
        if stamp.0 == ALL_ONES {
            return self.fail(binding, queue, TerminationCode::UnspecifiedError, CLOCK);
        }
        self.ask(binding, queue, now, stamp, gap)
    }

    /// Sends FinishedReceiving once the peer has finished and no gap is still being recovered (FIXP 4.7.2).
    pub fn maybe_finish_receiving(mut self, binding: Binding, queue: Outputs) -> Step
        requires { Ready 1 self queue }
        ensures { StepIs result (queue_of queue) (maybe_finish_receiving (view self) binding) }
    {
        let Some(finished) = self.peer_finished else {
            return self.stay(binding, queue);
        };
        if finished.receiving_sent {
            return self.stay(binding, queue);
        }
        if !binding.is_established() {
            return self.stay(binding, queue);
        }
        if !self.gaps.is_empty() {
            return self.stay(binding, queue);
        }
        if self.is_asking() {
            return self.stay(binding, queue);
        }
        let sent = queue.send(SessionMessage::FinishedReceiving(FinishedReceiving {
            session_id: self.id,
        }));
        self.peer_finished = Some(PeerFinished {
            receiving_sent: true,
            end: finished.end,
        });
        let leaving = binding.leave_sequence();
        self.stay(leaving, sent)
    }

    /// A request is over: the next gap is asked for, or recovery is complete.
    fn recovered(self, binding: Binding, queue: Outputs, now: Instant, stamp: Nanotime) -> Step
        requires { Ready 3 self queue }
        ensures { StepIs result (queue_of queue) (recovered now stamp (view self) binding) }
    {
        if self.gaps.is_empty() {
            let told = queue.event(Event::RecoveryComplete);
            return self.maybe_finish_receiving(binding, told);
        }
        self.request_missing(binding, queue, now, stamp)
    }

    /// The whole count of the request in flight is consumed, and the request is gone.
    fn consume_outstanding(mut self) -> Session
        requires { SessWf self }
        ensures { SessIs result (completed_at (view self).outstanding (view self)) }
    {
        let Some(outstanding) = self.outstanding else {
            return self;
        };
        self.outstanding = None;
        self.consume_missing(outstanding.count as u64)
    }

    /// The request in flight was answered in full.
    pub fn complete_outstanding(
        self,
        binding: Binding,
        queue: Outputs,
        now: Instant,
        stamp: Nanotime,
    ) -> Step
        requires { Ready 3 self queue }
        ensures { StepIs result (queue_of queue) (complete_outstanding now stamp (view self) binding) }
    {
        let mut session = self.consume_outstanding();
        session.replay = None;
        session.recovered(binding, queue, now, stamp)
    }

    /// The batch that a matching header begins.
    fn begin_batch(
        mut self,
        binding: Binding,
        queue: Outputs,
        now: Instant,
        message: Retransmission,
        outstanding: Outstanding,
    ) -> Step
        requires { InOrder self queue }
        ensures { StepIs result (queue_of queue) (begin_batch now message outstanding (view self) binding) }
    {
        self.replay = Some(Replay {
            next: message.next_seq_no,
            remaining: message.count,
        });
        self.awaiting_resume = true;
        let mut begun = outstanding;
        begun.last_progress = now;
        begun.interrupted = false;
        begun.batch_complete = false;
        begun.stall_reported = false;
        self.outstanding = Some(begun);
        self.stay(binding, queue)
    }

    /// A Retransmission header (FIXP 4.6.2).
    pub fn on_retransmission(
        self,
        binding: Binding,
        queue: Outputs,
        now: Instant,
        message: Retransmission,
    ) -> Step
        requires { Ready 4 self queue }
        ensures { StepIs result (queue_of queue) (on_retransmission now message (view self) binding) }
    {
        if !self.remote_flow.is_recoverable() {
            return self.violation(binding, queue, RETRANSMISSION_FLOW);
        }
        if message.session_id != self.id {
            return self.violation(binding, queue, RETRANSMISSION_FOREIGN);
        }
        let Some(outstanding) = self.outstanding else {
            return self.violation(binding, queue, RETRANSMISSION_UNASKED);
        };
        if message.request_timestamp.0 != outstanding.timestamp.0 {
            return self.violation(binding, queue, RETRANSMISSION_OTHER);
        }
        if !in_range(message, outstanding) {
            return self.violation(binding, queue, RETRANSMISSION_RANGE);
        }
        self.begin_batch(binding, queue, now, message, outstanding)
    }

    /// The range of a refused request is abandoned.
    fn abandon(
        mut self,
        binding: Binding,
        queue: Outputs,
        now: Instant,
        stamp: Nanotime,
        message: RetransmitReject,
        text: Reason,
        outstanding: Outstanding,
    ) -> Step
        requires { Ready 4 self queue }
        ensures { StepIs result (queue_of queue) (rejected now stamp message text outstanding (view self) binding) }
    {
        let told = queue.event_quoting(
            Event::RetransmitRejected {
                from: outstanding.from,
                count: outstanding.count,
                code: message.code,
            },
            text,
        );
        self.outstanding = None;
        self.replay = None;
        let left = self.consume_missing(outstanding.count as u64);
        left.recovered(binding, told, now, stamp)
    }

    /// The peer refused our RetransmitRequest (FIXP 4.6.2.3).
    pub fn on_retransmit_reject(
        self,
        binding: Binding,
        queue: Outputs,
        now: Instant,
        stamp: Nanotime,
        message: RetransmitReject,
        text: Reason,
    ) -> Step
        requires { Ready 4 self queue }
        ensures { StepIs result (queue_of queue) (on_retransmit_reject now stamp message text (view self) binding) }
    {
        let Some(outstanding) = self.outstanding else {
            return self.ignore_reject(binding, queue);
        };
        if outstanding.timestamp.0 != message.request_timestamp.0 {
            return self.ignore_reject(binding, queue);
        }
        if message.session_id != self.id {
            return self.ignore_reject(binding, queue);
        }
        self.abandon(binding, queue, now, stamp, message, text, outstanding)
    }

    /// A RetransmitReject that answers no request of ours.
    fn ignore_reject(self, binding: Binding, queue: Outputs) -> Step
        requires { Ready 1 self queue }
        ensures { StepIs result (queue_of queue) (unasked (view self) binding) }
    {
        let told = queue.ignore(MessageName::RetransmitReject, REJECT_UNASKED);
        self.stay(binding, told)
    }

    /// Gives up a stalled request, keeps what it delivered, and asks for what is still missing.
    pub fn re_request(
        mut self,
        binding: Binding,
        queue: Outputs,
        now: Instant,
        stamp: Nanotime,
        outstanding: Outstanding,
    ) -> Step
        requires { Ready 3 self queue }
        ensures { StepIs result (queue_of queue) (re_request now stamp outstanding (view self) binding) }
    {
        self.outstanding = None;
        self.replay = None;
        let left = self.consume_missing(outstanding.delivered as u64);
        left.request_missing(binding, queue, now, stamp)
    }
}

/// "next undelivered number and remaining count": a header's count is 1 to what remains of its request.
pub fn in_range(message: Retransmission, outstanding: Outstanding) -> bool
    ensures { result ≡ in_range message outstanding }
{
    if message.count < 1 {
        return false;
    }
    if message.count as u64 + outstanding.delivered as u64 > outstanding.count as u64 {
        return false;
    }
    if message.next_seq_no.0 < outstanding.from.0 {
        return false;
    }
    message.next_seq_no.0 - outstanding.from.0 == outstanding.delivered as u64
}
