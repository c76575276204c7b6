//! The local calls: what each refuses, in the Rust's order, and what it does where it refuses nothing.
ghost use Rattle.std.specs.Prelude.{◌≡◌, ◌+◌, ◌<◌, ◌≤◌};
ghost use Rattle.queue.specs.View.{queue_of};
ghost use Rattle.types.specs.Base.{all_ones};
ghost use Rattle.types.specs.States.{status_of};
ghost use Rattle.types.specs.Reasons.{max_reason_len};
ghost use Rattle.rules.specs.Names.refusal as why;
ghost use Rattle.rules.specs.Local.{send_refused, send_application, terminate_refused, terminate, retransmit_refused, provider_after, batch, retransmit};
ghost use Rattle.rules.specs.Local.{reject_refused, reject_retransmit_request, end_refused, end_retransmission};
ghost use Rattle.session.specs.View.{view, StepIs, refused_step, LocalIs, sent_numbered, InOrder, Ready};

use crate::{Session, Step};
use queue::Outputs;
use types::answers::{Operation, Refusal, RetransmitBatch, Verdict};
use types::binding::{BindState, Binding, Bound};
use types::ids::{ALL_ONES, Instant, RetransmitRejectCode, SeqNum, TerminationCode};
use types::messages::{Retransmission, RetransmitReject, SessionMessage, Terminate};
use types::output::{Event, TerminatedBy};
use types::parts::Provider;
use types::reasons::{MAX_REASON_LEN, Reason};

impl Session {
    /// A call refused: session, binding and queue are as they were.
    fn refuse(self, binding: Binding, queue: Outputs, refusal: Refusal) -> Step
        ensures { result ≡ refused_step self binding queue refusal }
    {
        Step {
            session: self,
            binding,
            queue,
            bound: Bound::Stay,
            answer: Err(refusal),
        }
    }

    /// Refusal 8: a local call is for an established binding.
    fn refuse_state(self, binding: Binding, queue: Outputs, operation: Operation) -> Step
        ensures { result ≡ refused_step self binding queue (why.InvalidState operation (status_of binding.state)) }
    {
        let status = binding.status();
        self.refuse(binding, queue, Refusal::InvalidState { operation, status })
    }

    /// Refusal 14: a local reason has to fit its room.
    fn refuse_reason(self, binding: Binding, queue: Outputs, text: Reason) -> Step
        ensures { result ≡ refused_step self binding queue (why.ReasonTooLong text.len max_reason_len) }
    {
        self.refuse(
            binding,
            queue,
            Refusal::ReasonTooLong {
                len: text.len,
                max: MAX_REASON_LEN,
            },
        )
    }

    /// Numbers an application message that this side is about to send (FIXP 3.5.1); none after FinishedReceiving (FIXP 6.3).
    pub fn send_application(self, binding: Binding, queue: Outputs, now: Instant) -> Step
        requires { Ready 1 self queue }
        ensures { LocalIs result self binding queue (send_refused (view self) binding) (send_application now (view self) binding) }
    {
        let mut kept = binding;
        if !binding.is_established() {
            return self.refuse_state(binding, queue, Operation::SendApplication);
        }
        if self.finished_receiving_sent() {
            return self.refuse(binding, queue, Refusal::FinishedReceivingSent);
        }
        let local_flow = self.local_flow;
        if local_flow.is_none() {
            return self.refuse(binding, queue, Refusal::FlowCarriesNoApplicationMessages);
        }
        if !local_flow.is_sequenced() {
            kept.last_keepalive = now;
            return self.reply(kept, queue, Ok(Verdict::Sent(None)));
        }
        if self.outbound_next.0 >= ALL_ONES - 1 {
            return self.refuse(binding, queue, Refusal::SequenceExhausted);
        }
        self.send_numbered(binding, queue, now)
    }

    /// The message has this side's next number.
    fn send_numbered(self, binding: Binding, queue: Outputs, now: Instant) -> Step
        requires ready { Ready 1 self queue }
        requires outbound_next_bound { self.outbound_next.0 + 1 < all_ones }
        ensures { StepIs result (queue_of queue) (sent_numbered now (view self) binding) }
    {
        let step = self.allocate_outbound(binding, queue);
        let mut kept = step.binding;
        kept.last_keepalive = now;
        step.session.reply(
            kept,
            step.queue,
            Ok(Verdict::Sent(Some(self.outbound_next))),
        )
    }

    /// Starts unbinding the transport (FIXP 4.4): a graceful Terminate waits for the answer, any other does not.
    pub fn terminate(
        mut self,
        binding: Binding,
        queue: Outputs,
        code: TerminationCode,
        text: Reason,
        now: Instant,
    ) -> Step
        requires { Ready 3 self queue }
        ensures { LocalIs result self binding queue (terminate_refused text (view self) binding) (terminate now code text (view self) binding) }
    {
        let mut waiting = binding;
        if !binding.is_established() {
            return self.refuse_state(binding, queue, Operation::Terminate);
        }
        if !text.fits() {
            return self.refuse_reason(binding, queue, text);
        }
        let sent = queue.send_quoting(
            SessionMessage::Terminate(Terminate {
                session_id: self.id,
                code,
            }),
            text,
        );
        if code.is_finished() {
            self.provider = None;
            let terminating = BindState::Terminating { sent_at: now, code };
            waiting.state = terminating;
            return self.stay(waiting, sent);
        }
        let told = sent.event_quoting(
            Event::Terminated {
                code,
                by: TerminatedBy::Local,
            },
            text,
        );
        let closed = told.close_transport();
        let released = self.release_binding_state();
        released.unbind(binding, closed)
    }

    /// Answers the request being served with its next `count` messages (FIXP 4.6.2).
    pub fn retransmit(self, binding: Binding, queue: Outputs, count: u32, now: Instant) -> Step
        requires { Ready 1 self queue }
        ensures { LocalIs result self binding queue (retransmit_refused count (view self) binding) (retransmit now count (view self) binding) }
    {
        if !binding.is_established() {
            return self.refuse_state(binding, queue, Operation::Retransmit);
        }
        let Some(provider) = self.provider else {
            return self.refuse(binding, queue, Refusal::NoRetransmissionInProgress);
        };
        if provider.count < provider.sent {
            return self.refuse(binding, queue, Refusal::NoRetransmissionInProgress);
        }
        let remaining = provider.count - provider.sent;
        if remaining < count {
            return self.refuse(
                binding,
                queue,
                Refusal::RetransmissionOverrun { count, remaining },
            );
        }
        if ALL_ONES - (provider.sent as u64) < provider.from.0 {
            return self.refuse(binding, queue, Refusal::SequenceExhausted);
        }
        self.batch(binding, queue, now, count, provider)
    }

    /// The header of the next batch; a Sequence has to come before what is live (FIXP 4.6.2.2).
    fn batch(
        mut self,
        binding: Binding,
        queue: Outputs,
        now: Instant,
        count: u32,
        provider: Provider,
    ) -> Step
        requires ready { Ready 1 self queue }
        requires count_bound { provider.sent + count ≤ provider.count }
        requires sent_bound { provider.from.0 + provider.sent ≤ all_ones }
        ensures { StepIs result (queue_of queue) (batch now count provider (view self) binding) }
    {
        let from = SeqNum(provider.from.0 + provider.sent as u64);
        let sent = queue.send(SessionMessage::Retransmission(Retransmission {
            session_id: self.id,
            request_timestamp: provider.request_timestamp,
            next_seq_no: from,
            count,
        }));
        let it = provider_after(provider, count);
        self.provider = it;
        let mut leaving = binding;
        leaving.in_sequence = false;
        leaving.last_keepalive = now;
        self.reply(
            leaving,
            sent,
            Ok(Verdict::Batch(RetransmitBatch { from, count })),
        )
    }

    /// Refuses the request being served (FIXP 4.6.2.3).
    pub fn reject_retransmit_request(
        mut self,
        binding: Binding,
        queue: Outputs,
        code: RetransmitRejectCode,
        text: Reason,
    ) -> Step
        requires { Ready 1 self queue }
        ensures { LocalIs result self binding queue (reject_refused text (view self) binding) (reject_retransmit_request code text (view self) binding) }
    {
        if !binding.is_established() {
            return self.refuse_state(binding, queue, Operation::RejectRetransmitRequest);
        }
        if !text.fits() {
            return self.refuse_reason(binding, queue, text);
        }
        let Some(provider) = self.provider else {
            return self.refuse(binding, queue, Refusal::NoRetransmissionInProgress);
        };
        let sent = queue.send_quoting(
            SessionMessage::RetransmitReject(RetransmitReject {
                session_id: self.id,
                request_timestamp: provider.request_timestamp,
                code,
            }),
            text,
        );
        self.provider = None;
        let leaving = binding.leave_sequence();
        self.stay(leaving, sent)
    }

    /// Stops serving a request before all of it was sent; the requester asks again for the rest (FIXP 4.6.2.2).
    pub fn end_retransmission(mut self, binding: Binding, queue: Outputs) -> Step
        requires { InOrder self queue }
        ensures { LocalIs result self binding queue (end_refused (view self) binding) (end_retransmission (view self) binding) }
    {
        if !binding.is_established() {
            return self.refuse_state(binding, queue, Operation::EndRetransmission);
        }
        let Some(provider) = self.provider else {
            return self.refuse(binding, queue, Refusal::NoRetransmissionInProgress);
        };
        self.provider = None;
        self.stay(binding, queue)
    }
}

/// What is left to serve after a batch.
fn provider_after(provider: Provider, count: u32) -> Option<Provider>
    requires { provider.sent + count ≤ provider.count }
    ensures { result ≡ provider_after count provider }
{
    let mut left = provider;
    let sent = provider.sent + count;
    if provider.count <= sent {
        return None;
    }
    left.sent = sent;
    Some(left)
}
