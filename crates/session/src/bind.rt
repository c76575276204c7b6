//! Binding a session to a transport (FIXP 4.3).
ghost use Rattle.std.specs.Prelude.{◌≡◌};
ghost use Rattle.queue.specs.View.{queue_of};
ghost use Rattle.rules.specs.Binding.{established, resume, on_established, bind};
ghost use Rattle.session.specs.View.{view, StepIs, Ready};

use crate::{Session, Step};
use queue::Outputs;
use types::binding::{BindState, Binding};
use types::ids::{Instant, Nanotime, SeqNum};

/// A binding that begins now.
fn new_binding(now: Instant, local_keepalive: u64, remote_keepalive: u64) -> Binding
    ensures { result ≡ established now local_keepalive remote_keepalive }
{
    Binding {
        state: BindState::Established,
        local_keepalive,
        remote_keepalive,
        last_keepalive: now,
        last_received: now,
        in_sequence: false,
    }
}

impl Session {
    /// "Bind is `release_binding_state`, then the Rust's `bind`, then `on_established`" (01).
    pub fn bind(
        self,
        queue: Outputs,
        now: Instant,
        stamp: Nanotime,
        local_keepalive: u64,
        remote_keepalive: u64,
        next: Option<SeqNum>,
    ) -> Step
        requires { Ready 6 self queue }
        ensures { StepIs result (queue_of queue) (bind now stamp local_keepalive remote_keepalive next (view self)) }
    {
        let released = self.release_binding_state();
        let binding = new_binding(now, local_keepalive, remote_keepalive);
        released.on_established(binding, queue, next, now, stamp)
    }

    /// Applies the peer's NextSeqNo and resumes the recovery of earlier gaps (FIXP 4.3.1 and 4.3.2).
    fn on_established(
        self,
        binding: Binding,
        queue: Outputs,
        next: Option<SeqNum>,
        now: Instant,
        stamp: Nanotime,
    ) -> Step
        requires { Ready 6 self queue }
        ensures { StepIs result (queue_of queue) (on_established next now stamp (view self) binding) }
    {
        if !self.remote_flow.is_sequenced() {
            return self.resume(binding, queue, now, stamp);
        }
        let Some(number) = next else {
            return self.resume(binding, queue, now, stamp);
        };
        let step = self.on_next_seq(binding, queue, number, now, stamp);
        if !step.bound.is_stay() {
            return step;
        }
        step.session.resume(step.binding, step.queue, now, stamp)
    }

    /// What an earlier binding left missing is asked for again.
    fn resume(self, binding: Binding, queue: Outputs, now: Instant, stamp: Nanotime) -> Step
        requires { Ready 3 self queue }
        ensures { StepIs result (queue_of queue) (resume now stamp (view self) binding) }
    {
        let step = self.request_missing(binding, queue, now, stamp);
        if !step.bound.is_stay() {
            return step;
        }
        step.session
            .maybe_finish_receiving(step.binding, step.queue)
    }
}
