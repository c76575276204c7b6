//! How a binding ends: what it leaves, failures and violations, the peer's Terminate (FIXP 4.4 and 6.3).
ghost use Rattle.std.specs.Prelude.{◌≡◌, ◌&&◌};
ghost use Rattle.queue.specs.View.{queue_of};
ghost use Rattle.rules.specs.Ending.{consumed, released_at, release_binding_state, finished_receiving_sent, finalize_if_finished, fail, violation, ended_by, answer_terminate, answered_terminate, on_terminate};
ghost use Rattle.session.specs.View.{view, SessWf, SessIs, StepIs, Ready};

use crate::{Session, Step};
use queue::Outputs;
use types::binding::{BindState, Binding};
use types::ids::{Instant, TerminationCode};
use types::messages::{SessionMessage, Terminate};
use types::output::{Event, TerminatedBy};
use types::reasons::{Reason, TERMINATE_FOREIGN};

impl Session {
    /// The first `count` numbers of the first gap go.
    pub fn consume_missing(mut self, count: u64) -> Session
        requires { SessWf self }
        ensures { SessIs result (consumed count (view self)) }
    {
        self.gaps.consume_missing(count);
        self
    }

    /// What an outstanding request delivered is consumed, and the request is gone.
    fn release_outstanding(mut self) -> Session
        requires { SessWf self }
        ensures { SessIs result (released_at (view self).outstanding (view self)) }
    {
        let Some(outstanding) = self.outstanding else {
            return self;
        };
        self.outstanding = None;
        self.consume_missing(outstanding.delivered as u64)
    }

    /// Drops what only made sense on the transport just lost; messages already retransmitted stay recovered.
    pub fn release_binding_state(self) -> Session
        requires { SessWf self }
        ensures { SessIs result (release_binding_state (view self)) }
    {
        let mut released = self.release_outstanding();
        released.replay = None;
        released.awaiting_resume = false;
        released.provider = None;
        released
    }

    /// Whether FinishedReceiving has gone out (FIXP 4.7.2).
    pub fn finished_receiving_sent(self) -> bool
        ensures { result ≡ finished_receiving_sent (view self) }
    {
        let Some(finished) = self.peer_finished else {
            return false;
        };
        finished.receiving_sent
    }

    /// The Terminate exchange that ends this binding ends the logical session (FIXP 4.7.2).
    fn finalize_if_finished(mut self) -> Session
        requires { SessWf self }
        ensures { SessIs result (finalize_if_finished (view self)) }
    {
        if !self.finished_receiving_sent() {
            return self;
        }
        self.finalized = true;
        self
    }

    /// The peer broke the protocol: terminate (FIXP 6.3).
    pub fn violation(self, binding: Binding, queue: Outputs, reason: u8) -> Step
        requires { Ready 4 self queue }
        ensures { StepIs result (queue_of queue) (violation reason (view self) binding) }
    {
        let told = queue.event_with(Event::ProtocolViolation, reason);
        self.fail(binding, told, TerminationCode::UnspecifiedError, reason)
    }

    /// Ends the binding on an error, without waiting for an answer (FIXP, Appendix A 7.2.1).
    pub fn fail(self, binding: Binding, queue: Outputs, code: TerminationCode, reason: u8) -> Step
        requires { Ready 3 self queue }
        ensures { StepIs result (queue_of queue) (fail code reason (view self) binding) }
    {
        let released = self.release_binding_state();
        if !binding.is_established() {
            let closed = queue.close_transport();
            return released.unbind(binding, closed);
        }
        let sent = queue.send_with(
            SessionMessage::Terminate(Terminate {
                session_id: self.id,
                code,
            }),
            reason,
        );
        let told = sent.event_with(
            Event::Terminated {
                code,
                by: TerminatedBy::Local,
            },
            reason,
        );
        let closed = told.close_transport();
        released.unbind(binding, closed)
    }

    /// What a Terminate exchange leaves: a session that both sides ended gracefully may be finalized.
    fn ended_by(self, graceful: bool) -> Session
        requires { SessWf self }
        ensures { SessIs result (ended_by graceful (view self)) }
    {
        let released = self.release_binding_state();
        if !graceful {
            return released;
        }
        released.finalize_if_finished()
    }

    /// The answer to our own Terminate, whose reason stands beside the binding: the initiator closes the transport (FIXP 4.4.2).
    fn answered_terminate(
        self,
        binding: Binding,
        queue: Outputs,
        reason: Reason,
        ours: TerminationCode,
        theirs: TerminationCode,
    ) -> Step
        requires { Ready 2 self queue }
        ensures { StepIs result (queue_of queue) (answered_terminate reason ours theirs (view self) binding) }
    {
        let told = queue.event_quoting(
            Event::Terminated {
                code: ours,
                by: TerminatedBy::Local,
            },
            reason,
        );
        let closed = told.close_transport();
        let graceful = both(ours.is_finished(), theirs.is_finished());
        let session = self.ended_by(graceful);
        session.unbind(binding, closed)
    }

    /// The peer's Terminate is answered with a Terminate, the last message sent (FIXP 4.4.1).
    fn answer_terminate(
        self,
        mut binding: Binding,
        queue: Outputs,
        now: Instant,
        message: Terminate,
        text: Reason,
    ) -> Step
        requires { Ready 2 self queue }
        ensures { StepIs result (queue_of queue) (answer_terminate now message text (view self) binding) }
    {
        let sent = queue.send(SessionMessage::Terminate(Terminate {
            session_id: self.id,
            code: TerminationCode::Finished,
        }));
        let code = message.code;
        let told = sent.event_quoting(
            Event::Terminated {
                code,
                by: TerminatedBy::Peer,
            },
            text,
        );
        let session = self.ended_by(code.is_finished());
        let deadline = now.checked_add(binding.local_keepalive);
        let closing = BindState::Closing { deadline };
        binding.state = closing;
        session.stay(binding, told)
    }

    /// A Terminate of the peer (FIXP 4.4). `reason` is that of our own Terminate, `text` the peer's.
    pub fn on_terminate(
        self,
        binding: Binding,
        queue: Outputs,
        now: Instant,
        reason: Reason,
        message: Terminate,
        text: Reason,
    ) -> Step
        requires { Ready 4 self queue }
        ensures { StepIs result (queue_of queue) (on_terminate now reason message text (view self) binding) }
    {
        if message.session_id != self.id {
            return self.violation(binding, queue, TERMINATE_FOREIGN);
        }
        match binding.state {
            BindState::Established => self.answer_terminate(binding, queue, now, message, text),
            BindState::Terminating {
                sent_at,
                code: ours,
            } => { self.answered_terminate(binding, queue, reason, ours, message.code) }
            BindState::Closing { deadline } => self.stay(binding, queue),
        }
    }
}

// A function of its own: `&&` written at its use makes two ways of the steps behind it, and the proof of both is twice as long.
fn both(a: bool, b: bool) -> bool
    ensures { result ≡ a && b }
{
    a && b
}
