//! Deadlines and timeouts: silence, then stall, then heartbeat (FIXP 4.4 and 4.5).
ghost use Rattle.std.specs.Prelude.{◌≡◌, ◌+◌};
ghost use Rattle.queue.specs.View.{queue_of};
ghost use Rattle.rules.specs.Deadlines.{grace_or, silence_deadline, stall_deadline, heartbeat_deadline, next_deadline, heartbeat_if_due, wait_out, stall_by, on_stall, stall_if_due, established_timeout, on_timeout};
ghost use Rattle.session.specs.View.{view, StepIs, InOrder, Ready};

use crate::{Session, Step};
use queue::Outputs;
use types::binding::{BindState, Binding};
use types::config::RetransmitStallPolicy;
use types::ids::{ALL_ONES, Instant, Nanotime, TerminationCode};
use types::messages::{Sequence, SessionMessage};
use types::output::{Event, TerminatedBy};
use types::parts::Outstanding;
use types::reasons::{KEEPALIVE, Reason, STALLED};

/// The grace beside the peer's keepalive: that of the configuration, else the keepalive again.
fn grace_or(grace: Option<u64>, keepalive: u64) -> u64
    ensures { result ≡ grace_or grace keepalive }
{
    let Some(own) = grace else {
        return keepalive;
    };
    own
}

/// When this side's next heartbeat is due (FIXP 4.5).
fn heartbeat_deadline(binding: Binding) -> Option<Instant>
    ensures { result ≡ heartbeat_deadline binding }
{
    binding.last_keepalive.checked_add(binding.local_keepalive)
}

/// The earlier of two deadlines.
fn earlier(a: Option<Instant>, b: Option<Instant>) -> Option<Instant>
    ensures { result ≡ Rattle.rules.specs.Deadlines.earlier a b }
{
    let Some(first) = a else {
        return b;
    };
    let Some(second) = b else {
        return Some(first);
    };
    if first.0 <= second.0 {
        return Some(first);
    }
    Some(second)
}

/// "at the deadline counts as due"
fn is_due(deadline: Option<Instant>, now: Instant) -> bool
    ensures { result ≡ Rattle.rules.specs.Deadlines.is_due deadline now }
{
    let Some(at) = deadline else {
        return false;
    };
    at.0 <= now.0
}

impl Session {
    /// When the peer has been silent for too long (FIXP 4.5); a sum that does not fit means no deadline.
    fn silence_deadline(self, binding: Binding) -> Option<Instant>
        ensures { result ≡ silence_deadline (view self) binding }
    {
        let grace = grace_or(self.config.peer_silence_grace, binding.remote_keepalive);
        if ALL_ONES - grace < binding.remote_keepalive {
            return None;
        }
        binding
            .last_received
            .checked_add(binding.remote_keepalive + grace)
    }

    /// When the request in flight stalls; a stall already reported runs no timer.
    fn stall_deadline(self) -> Option<Instant>
        ensures { result ≡ stall_deadline (view self) }
    {
        let Some(outstanding) = self.outstanding else {
            return None;
        };
        if outstanding.stall_reported {
            return None;
        }
        outstanding
            .last_progress
            .checked_add(self.config.retransmit_timeout)
    }

    /// The next instant at which a timeout has work to do.
    pub fn next_deadline(self, binding: Binding) -> Option<Instant>
        ensures { result ≡ next_deadline (view self) binding }
    {
        match binding.state {
            BindState::Established => {
                let silence = self.silence_deadline(binding);
                let beat = heartbeat_deadline(binding);
                let stall = self.stall_deadline();
                earlier(silence, earlier(beat, stall))
            }
            BindState::Terminating { sent_at, code } => sent_at.checked_add(
                binding.local_keepalive,
            ),
            BindState::Closing { deadline } => deadline,
        }
    }

    /// Runs the timers that are due at `now`. `reason` is that of our own Terminate.
    pub fn on_timeout(
        self,
        binding: Binding,
        queue: Outputs,
        now: Instant,
        stamp: Nanotime,
        reason: Reason,
    ) -> Step
        requires { Ready 4 self queue }
        ensures { StepIs result (queue_of queue) (on_timeout now stamp reason (view self) binding) }
    {
        match binding.state {
            BindState::Established => self.established_timeout(binding, queue, now, stamp),
            BindState::Terminating { sent_at, code } => {
                let lapse = sent_at.checked_add(binding.local_keepalive);
                if !is_due(lapse, now) {
                    return self.stay(binding, queue);
                }
                let told = queue.event_quoting(
                    Event::Terminated {
                        code,
                        by: TerminatedBy::Local,
                    },
                    reason,
                );
                let closed = told.close_transport();
                let released = self.release_binding_state();
                released.unbind(binding, closed)
            }
            BindState::Closing { deadline } => {
                if !is_due(deadline, now) {
                    return self.stay(binding, queue);
                }
                let closed = queue.close_transport();
                self.unbind(binding, closed)
            }
        }
    }

    /// The timers of an established binding: "Silence, then stall, then heartbeat".
    fn established_timeout(
        self,
        binding: Binding,
        queue: Outputs,
        now: Instant,
        stamp: Nanotime,
    ) -> Step
        requires { Ready 4 self queue }
        ensures { StepIs result (queue_of queue) (established_timeout now stamp (view self) binding) }
    {
        let silence = self.silence_deadline(binding);
        if is_due(silence, now) {
            let told = queue.event(Event::KeepaliveLapsed);
            return self.fail(binding, told, TerminationCode::UnspecifiedError, KEEPALIVE);
        }
        let step = self.stall_if_due(binding, queue, now, stamp);
        if !step.bound.is_stay() {
            return step;
        }
        step.session.heartbeat_if_due(step.binding, step.queue, now)
    }

    /// The request in flight may have stalled.
    fn stall_if_due(self, binding: Binding, queue: Outputs, now: Instant, stamp: Nanotime) -> Step
        requires { Ready 4 self queue }
        ensures { StepIs result (queue_of queue) (stall_if_due now stamp (view self) binding) }
    {
        let stall = self.stall_deadline();
        if !is_due(stall, now) {
            return self.stay(binding, queue);
        }
        let Some(outstanding) = self.outstanding else {
            return self.stay(binding, queue);
        };
        self.on_stall(binding, queue, now, stamp, outstanding)
    }

    /// The request went a whole timeout without a retransmitted message: the policy decides.
    fn on_stall(
        self,
        binding: Binding,
        queue: Outputs,
        now: Instant,
        stamp: Nanotime,
        outstanding: Outstanding,
    ) -> Step
        requires { Ready 4 self queue }
        ensures { StepIs result (queue_of queue) (on_stall now stamp outstanding (view self) binding) }
    {
        let told = queue.event(Event::RetransmitTimedOut {
            from: outstanding.from,
            count: outstanding.count,
        });
        self.stall_by(binding, told, now, stamp, outstanding)
    }

    /// A second request goes only where the provider has stopped serving: asked again sooner it could be premature (FIXP 4.6.1).
    fn stall_by(
        self,
        binding: Binding,
        queue: Outputs,
        now: Instant,
        stamp: Nanotime,
        outstanding: Outstanding,
    ) -> Step
        requires { Ready 3 self queue }
        ensures { StepIs result (queue_of queue) (stall_by (view self).config.retransmit_stall_policy now stamp outstanding (view self) binding) }
    {
        match self.config.retransmit_stall_policy {
            RetransmitStallPolicy::Terminate => self.fail(
                binding,
                queue,
                TerminationCode::UnspecifiedError,
                STALLED,
            ),
            RetransmitStallPolicy::ReRequestAfterContextSwitch => {
                if outstanding.interrupted {
                    return self.re_request(binding, queue, now, stamp, outstanding);
                }
                self.wait_out(binding, queue, outstanding)
            }
            RetransmitStallPolicy::ReRequestAfterBatch => {
                if outstanding.interrupted {
                    return self.re_request(binding, queue, now, stamp, outstanding);
                }
                if outstanding.batch_complete {
                    return self.re_request(binding, queue, now, stamp, outstanding);
                }
                self.wait_out(binding, queue, outstanding)
            }
            RetransmitStallPolicy::EventOnly => self.wait_out(binding, queue, outstanding),
        }
    }

    /// The stall is reported and waited out.
    fn wait_out(mut self, binding: Binding, queue: Outputs, outstanding: Outstanding) -> Step
        requires { InOrder self queue }
        ensures { StepIs result (queue_of queue) (wait_out outstanding (view self) binding) }
    {
        let mut reported = outstanding;
        reported.stall_reported = true;
        self.outstanding = Some(reported);
        self.stay(binding, queue)
    }

    /// A heartbeat, if this side has been quiet for its keepalive.
    fn heartbeat_if_due(self, binding: Binding, queue: Outputs, now: Instant) -> Step
        requires { Ready 1 self queue }
        ensures { StepIs result (queue_of queue) (heartbeat_if_due now (view self) binding) }
    {
        let beat = heartbeat_deadline(binding);
        if !is_due(beat, now) {
            return self.stay(binding, queue);
        }
        self.heartbeat(binding, queue, now)
    }

    /// The heartbeat of this side's flow (FIXP 4.5).
    fn heartbeat(self, binding: Binding, queue: Outputs, now: Instant) -> Step
        requires { Ready 1 self queue }
        ensures { StepIs result (queue_of queue) (Rattle.rules.specs.Deadlines.heartbeat now (view self) binding) }
    {
        let mut kept = binding;
        kept.last_keepalive = now;
        if !self.local_flow.is_sequenced() {
            let beaten = queue.send(SessionMessage::UnsequencedHeartbeat);
            return self.stay(kept, beaten);
        }
        let beaten = queue.send(SessionMessage::Sequence(Sequence {
            next_seq_no: self.outbound_next,
        }));
        kept.in_sequence = true;
        self.stay(kept, beaten)
    }
}
