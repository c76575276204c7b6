//! A session message of the peer, by its kind (FIXP 3.5 and 4.4 to 4.8).
ghost use Rattle.std.specs.Prelude.{◌≡◌};
ghost use Rattle.queue.specs.View.{queue_of};
ghost use Rattle.rules.specs.Peer.{on_context, on_unsequenced_heartbeat, is_accept, on_applied, on_not_applied, on_message, on_peer};
ghost use Rattle.session.specs.View.{view, StepIs, closing_answer, Ready};

use crate::{Session, Step};
use queue::Outputs;
use types::answers::{Delivery, Refusal, Verdict};
use types::binding::Binding;
use types::ids::{ALL_ONES, Instant, Nanotime};
use types::messages::{Context, PeerMessage};
use types::output::Event;
use types::reasons::{
    AFTER_TERMINATE, CONTEXT_FOREIGN, FINISHED_RECEIVING, HEARTBEAT_SEQUENCED, NOT_APPLIED_FLOW,
    Reason, TOPIC,
};

/// Whether an answer accepts a message.
fn is_accept(answer: Result<Verdict, Refusal>) -> bool
    ensures { result ≡ is_accept answer }
{
    matches!(answer, Ok(Verdict::Delivered(Delivery::Accept { .. })))
}

/// What a closing binding answers: Applied and NotApplied carry their delivery.
fn closing_answer(message: PeerMessage) -> Result<Verdict, Refusal>
    ensures { result ≡ closing_answer message }
{
    match message {
        PeerMessage::Applied(_) | PeerMessage::NotApplied(_) => {
            Ok(Verdict::Delivered(Delivery::Discard))
        }
        _ => Ok(Verdict::Done),
    }
}

impl Session {
    /// A session message received while bound. `reason` is that of our own Terminate, `text` that of the message.
    pub fn on_peer(
        self,
        binding: Binding,
        queue: Outputs,
        message: PeerMessage,
        now: Instant,
        stamp: Nanotime,
        reason: Reason,
        text: Reason,
    ) -> Step
        requires { Ready 6 self queue }
        ensures { StepIs result (queue_of queue) (on_peer message now stamp reason text (view self) binding) }
    {
        let mut heard = binding;
        if heard.is_closing() {
            let told = queue.ignore(message.name(), AFTER_TERMINATE);
            return self.reply(binding, told, closing_answer(message));
        }
        heard.last_received = now;
        self.on_message(heard, queue, message, now, stamp, reason, text)
    }

    /// The dispatch over the 13 kinds.
    fn on_message(
        self,
        binding: Binding,
        queue: Outputs,
        message: PeerMessage,
        now: Instant,
        stamp: Nanotime,
        reason: Reason,
        text: Reason,
    ) -> Step
        requires { Ready 6 self queue }
        ensures { StepIs result (queue_of queue) (on_message message now stamp reason text (view self) binding) }
    {
        match message {
            PeerMessage::Topic => self.violation(binding, queue, TOPIC),
            PeerMessage::Sequence(m) => {
                self.on_next_seq(binding, queue, m.next_seq_no, now, stamp)
            }
            PeerMessage::Context(m) => self.on_context(binding, queue, m, now, stamp),
            PeerMessage::UnsequencedHeartbeat => self.on_unsequenced_heartbeat(binding, queue),
            PeerMessage::RetransmitRequest(m) => self.on_retransmit_request(binding, queue, m),
            PeerMessage::Retransmission(m) => self.on_retransmission(binding, queue, now, m),
            PeerMessage::RetransmitReject(m) => self.on_retransmit_reject(
                binding, queue, now, stamp, m, text,
            ),
            PeerMessage::Terminate(m) => self.on_terminate(binding, queue, now, reason, m, text),
            PeerMessage::FinishedSending(m) => self.on_finished_sending(
                binding, queue, m, now, stamp,
            ),
            PeerMessage::FinishedReceiving => self.violation(binding, queue, FINISHED_RECEIVING),
            PeerMessage::Applied(m) => {
                self.on_applied(
                    binding,
                    queue,
                    now,
                    stamp,
                    Event::Applied {
                        from_seq_no: m.from_seq_no,
                        count: m.count,
                    },
                )
            }
            PeerMessage::NotApplied(m) => {
                self.on_not_applied(
                    binding,
                    queue,
                    now,
                    stamp,
                    Event::NotApplied {
                        from_seq_no: m.from_seq_no,
                        count: m.count,
                    },
                )
            }
            PeerMessage::MessageTemplate => self.stay(binding, queue),
        }
    }

    /// A Context of another session is a violation; its null number is no number (FIXP 3.5.3).
    fn on_context(
        self,
        binding: Binding,
        queue: Outputs,
        message: Context,
        now: Instant,
        stamp: Nanotime,
    ) -> Step
        requires { Ready 5 self queue }
        ensures { StepIs result (queue_of queue) (on_context now stamp message (view self) binding) }
    {
        if message.session_id != self.id {
            return self.violation(binding, queue, CONTEXT_FOREIGN);
        }
        let next = message.next_seq_no;
        if next.0 == ALL_ONES {
            return self.stay(binding, queue);
        }
        self.on_next_seq(binding, queue, next, now, stamp)
    }

    fn on_unsequenced_heartbeat(self, binding: Binding, queue: Outputs) -> Step
        requires { Ready 4 self queue }
        ensures { StepIs result (queue_of queue) (on_unsequenced_heartbeat (view self) binding) }
    {
        if self.remote_flow.is_sequenced() {
            return self.violation(binding, queue, HEARTBEAT_SEQUENCED);
        }
        self.stay(binding, queue)
    }

    /// Applied is numbered as an application message; its event follows everything else (FIXP 4.8.1).
    fn on_applied(
        self,
        binding: Binding,
        queue: Outputs,
        now: Instant,
        stamp: Nanotime,
        event: Event,
    ) -> Step
        requires { Ready 5 self queue }
        ensures { StepIs result (queue_of queue) (on_applied now stamp event (view self) binding) }
    {
        let mut step = self.on_application(binding, queue, now, stamp);
        if !is_accept(step.answer) {
            return step;
        }
        let told = step.queue.event(event);
        step.queue = told;
        step
    }

    /// NotApplied reports on an Idempotent flow only (FIXP 4.8.2).
    fn on_not_applied(
        self,
        binding: Binding,
        queue: Outputs,
        now: Instant,
        stamp: Nanotime,
        event: Event,
    ) -> Step
        requires { Ready 5 self queue }
        ensures { StepIs result (queue_of queue) (on_not_applied now stamp event (view self) binding) }
    {
        if !self.local_flow.is_idempotent() {
            return self.discard_violation(binding, queue, NOT_APPLIED_FLOW);
        }
        self.on_applied(binding, queue, now, stamp, event)
    }
}
