//! A peer's RetransmitRequest (FIXP 4.6.1 to 4.6.4).
ghost use Rattle.std.specs.Prelude.{◌≡◌};
ghost use Rattle.queue.specs.View.{queue_of};
ghost use Rattle.rules.specs.Serving.{is_serving, refuse_retransmit, is_sent, serve, on_retransmit_request};
ghost use Rattle.session.specs.View.{view, StepIs, Ready};

use crate::{Session, Step};
use queue::Outputs;
use types::binding::Binding;
use types::ids::{RetransmitRejectCode, TerminationCode};
use types::messages::{MessageName, RetransmitReject, RetransmitRequest, SessionMessage};
use types::output::Event;
use types::parts::Provider;
use types::reasons::{
    REQUEST_EMPTY, REQUEST_FLOW, REQUEST_FOREIGN, REQUEST_IN_PROGRESS, REQUEST_LIMIT,
    REQUEST_RANGE, REQUEST_TERMINATING,
};

impl Session {
    /// Whether a peer's request is being answered.
    fn is_serving(self) -> bool
        ensures { result ≡ is_serving (view self).provider }
    {
        matches!(self.provider, Some(_))
    }

    /// "from at least 1 and end at most `outbound_next`": a sum that does not fit is past it too.
    pub fn is_sent(self, message: RetransmitRequest) -> bool
        ensures { result ≡ is_sent message (view self) }
    {
        let next = self.outbound_next;
        if message.from_seq_no.0 < 1 {
            return false;
        }
        if next.0 < message.from_seq_no.0 {
            return false;
        }
        message.count as u64 <= next.0 - message.from_seq_no.0
    }

    /// A RetransmitRequest (FIXP 4.6.1), in the order of 01, "Serving".
    pub fn on_retransmit_request(
        self,
        binding: Binding,
        queue: Outputs,
        message: RetransmitRequest,
    ) -> Step
        requires { Ready 4 self queue }
        ensures { StepIs result (queue_of queue) (on_retransmit_request message (view self) binding) }
    {
        if !binding.is_established() {
            let told = queue.ignore(MessageName::RetransmitRequest, REQUEST_TERMINATING);
            return self.stay(binding, told);
        }
        if !self.local_flow.is_recoverable() {
            return self.violation(binding, queue, REQUEST_FLOW);
        }
        if message.session_id != self.id {
            return self.refuse_retransmit(
                binding,
                queue,
                message,
                RetransmitRejectCode::InvalidSession,
                REQUEST_FOREIGN,
            );
        }
        if self.is_serving() {
            let told = queue.event_with(Event::ProtocolViolation, REQUEST_IN_PROGRESS);
            return self.fail(
                binding,
                told,
                TerminationCode::ReRequestInProgress,
                REQUEST_IN_PROGRESS,
            );
        }
        if message.count == 0 {
            return self.refuse_retransmit(
                binding,
                queue,
                message,
                RetransmitRejectCode::OutOfRange,
                REQUEST_EMPTY,
            );
        }
        if self.config.max_retransmit_count < message.count {
            return self.refuse_retransmit(
                binding,
                queue,
                message,
                RetransmitRejectCode::RequestLimitExceeded,
                REQUEST_LIMIT,
            );
        }
        if !self.is_sent(message) {
            return self.refuse_retransmit(
                binding,
                queue,
                message,
                RetransmitRejectCode::OutOfRange,
                REQUEST_RANGE,
            );
        }
        self.serve(binding, queue, message)
    }

    /// The request is taken: the host answers it in batches (FIXP 4.6.2).
    fn serve(mut self, binding: Binding, queue: Outputs, message: RetransmitRequest) -> Step
        requires { Ready 1 self queue }
        ensures { StepIs result (queue_of queue) (serve message (view self) binding) }
    {
        let from = message.from_seq_no;
        self.provider = Some(Provider {
            request_timestamp: message.timestamp,
            from,
            count: message.count,
            sent: 0,
        });
        let told = queue.event(Event::RetransmitRequested {
            from,
            count: message.count,
        });
        self.stay(binding, told)
    }

    /// A request refused; the rejection carries the request's own id (FIXP 4.6.2.3).
    fn refuse_retransmit(
        self,
        binding: Binding,
        queue: Outputs,
        message: RetransmitRequest,
        code: RetransmitRejectCode,
        reason: u8,
    ) -> Step
        requires { Ready 2 self queue }
        ensures { StepIs result (queue_of queue) (refuse_retransmit message code reason (view self) binding) }
    {
        let sent = queue.send_with(
            SessionMessage::RetransmitReject(RetransmitReject {
                session_id: message.session_id,
                request_timestamp: message.timestamp,
                code,
            }),
            reason,
        );
        let leaving = binding.leave_sequence();
        let told = sent.event_with(Event::Refused(MessageName::RetransmitReject), reason);
        self.stay(leaving, told)
    }
}
