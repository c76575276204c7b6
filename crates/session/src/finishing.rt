//! The peer's flow ends (FIXP 4.7).
ghost use Rattle.std.specs.Prelude.{◌≡◌, ◌+◌, ◌<◌};
ghost use Rattle.queue.specs.View.{queue_of};
ghost use Rattle.rules.specs.Finishing.{finished_with, below, last_at, finished_sending, on_finished_sending};
ghost use Rattle.session.specs.View.{view, StepIs, Ready};

use crate::{Session, Step};
use queue::Outputs;
use types::binding::Binding;
use types::ids::{ALL_ONES, Instant, Nanotime, SeqNum};
use types::messages::FinishedSending;
use types::output::Event;
use types::parts::PeerFinished;
use types::reasons::{FINISHED_FOREIGN, FINISHED_NO_LAST, LAST_BELOW, LAST_OUT_OF_RANGE};

impl Session {
    /// The peer has finished, its numbers ending before `end`; answered at once if nothing is missing (FIXP 4.7.2).
    fn finished_with(mut self, binding: Binding, queue: Outputs, end: Option<SeqNum>) -> Step
        requires { Ready 1 self queue }
        ensures { StepIs result (queue_of queue) (finished_with end (view self) binding) }
    {
        self.peer_finished = Some(PeerFinished {
            receiving_sent: false,
            end,
        });
        self.maybe_finish_receiving(binding, queue)
    }

    /// Whether a number lies below what has arrived.
    fn is_below(self, next: u64) -> bool
        ensures { result ≡ below (view self).inbound_next next }
    {
        let Some(expected) = self.inbound_next else {
            return false;
        };
        next < expected.0
    }

    /// The last number of a sequenced flow: announced as its next one, then finished (FIXP 4.7.1).
    fn finish_at(
        self,
        binding: Binding,
        queue: Outputs,
        last: Option<SeqNum>,
        now: Instant,
        stamp: Nanotime,
    ) -> Step
        requires { Ready 5 self queue }
        ensures { StepIs result (queue_of queue) (last_at last now stamp (view self) binding) }
    {
        let Some(number) = last else {
            return self.violation(binding, queue, FINISHED_NO_LAST);
        };
        if number.0 == ALL_ONES {
            return self.violation(binding, queue, LAST_OUT_OF_RANGE);
        }
        let next = SeqNum(number.0 + 1);
        if self.is_below(next.0) {
            return self.violation(binding, queue, LAST_BELOW);
        }
        let step = self.on_next_seq(binding, queue, next, now, stamp);
        if !step.bound.is_stay() {
            return step;
        }
        step.session
            .finished_with(step.binding, step.queue, Some(next))
    }

    /// By the peer's flow: only a sequenced one has a last number.
    fn finished_sending(
        self,
        binding: Binding,
        queue: Outputs,
        last: Option<SeqNum>,
        now: Instant,
        stamp: Nanotime,
    ) -> Step
        requires { Ready 5 self queue }
        ensures { StepIs result (queue_of queue) (finished_sending now stamp last (view self) binding) }
    {
        if self.remote_flow.is_sequenced() {
            return self.finish_at(binding, queue, last, now, stamp);
        }
        self.finished_with(binding, queue, None)
    }

    /// A FinishedSending; repeated ones are the peer's heartbeat (FIXP 4.7.1).
    pub fn on_finished_sending(
        self,
        binding: Binding,
        queue: Outputs,
        message: FinishedSending,
        now: Instant,
        stamp: Nanotime,
    ) -> Step
        requires { Ready 6 self queue }
        ensures { StepIs result (queue_of queue) (on_finished_sending now stamp message (view self) binding) }
    {
        if message.session_id != self.id {
            return self.violation(binding, queue, FINISHED_FOREIGN);
        }
        if self.is_peer_finished() {
            return self.stay(binding, queue);
        }
        let last = message.last_seq_no;
        let told = queue.event(Event::PeerFinishedSending { last_seq_no: last });
        self.finished_sending(binding, told, last, now, stamp)
    }
}
