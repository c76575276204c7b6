//! Announced numbers, gaps and application messages (FIXP 3.5, 4.6 and 4.8).
ghost use Rattle.std.specs.Prelude.{◌≡◌, [], ◌+◌, ◌-◌, ◌<◌, ◌≤◌};
ghost use Rattle.queue.specs.View.{queue_of};
ghost use Rattle.types.specs.Base.{all_ones};
ghost use Rattle.rules.specs.Names.flow;
ghost use Rattle.rules.specs.State.{stays, with_inbound, with_replay, with_outstanding, answering};
ghost use Rattle.rings.specs.View.{view_kept};
ghost use Rattle.rules.specs.Ending.{violation};
ghost use Rattle.rules.specs.Numbering.{allocate_outbound, not_applied_numbered, send_not_applied, gap_held, gap_reported, gap_on, on_gap, cut_off, past_finished, stop_replay, announced, on_next_seq};
ghost use Rattle.rules.specs.Numbering.{discard, replay_after, count_delivered, complete_if, replayed_counted, on_replayed, number_live, is_peer_finished, on_live, on_application};
ghost use Rattle.session.specs.View.{view, SessWf, SessIs, StepIs, CountedIs, InOrder, Ready};

use crate::{Session, Step};
use queue::Outputs;
use types::answers::{Delivery, Verdict};
use types::binding::Binding;
use types::ids::{ALL_ONES, FlowType, Instant, Nanotime, SeqNum, TerminationCode};
use types::messages::{MessageName, NotApplied, Sequence, SessionMessage};
use types::output::Event;
use types::parts::Replay;
use types::reasons::{
    AFTER_TERMINATE, APPLICATION_AFTER_FINISHED, APPLICATION_BEFORE_RESUME,
    APPLICATION_BEFORE_SEQUENCE, APPLICATION_ON_NONE, GAP_NOT_APPLIED, GAP_TOO_LONG,
    INBOUND_EXHAUSTED, NEXT_LOWER, NEXT_PAST_LAST, NEXT_ZERO, OUTBOUND_EXHAUSTED, REPLAY_OVERFLOW,
    SEQUENCE_UNSEQUENCED, TOO_MANY_GAPS,
};

// No `Result`: both parts speak of every message.
/// The session after one more delivered message, and whether its request is now answered in full.
#[derive(Clone, Copy)]
pub struct Counted {
    pub session: Session,
    pub complete: bool,
}

impl Session {
    /// A message that is not delivered, since the peer broke the protocol.
    pub fn discard_violation(self, binding: Binding, queue: Outputs, reason: u8) -> Step
        requires { Ready 4 self queue }
        ensures { StepIs result (queue_of queue) (answering discard (violation reason (view self) binding)) }
    {
        let step = self.violation(binding, queue, reason);
        step.answered(Ok(Verdict::Delivered(Delivery::Discard)))
    }

    /// Numbers an application message just received (FIXP 3.5.1 and 4.6.2).
    pub fn on_application(
        self,
        binding: Binding,
        queue: Outputs,
        now: Instant,
        stamp: Nanotime,
    ) -> Step
        requires { Ready 4 self queue }
        ensures { StepIs result (queue_of queue) (on_application now stamp (view self) binding) }
    {
        let mut heard = binding;
        if heard.is_closing() {
            let told = queue.ignore(MessageName::ApplicationMessage, AFTER_TERMINATE);
            return self.reply(binding, told, Ok(Verdict::Delivered(Delivery::Discard)));
        }
        heard.last_received = now;
        let Some(replay) = self.replay else {
            return self.on_live(heard, queue);
        };
        self.on_replayed(heard, queue, replay, now, stamp)
    }

    /// The batch after one more of its messages.
    fn advance_replay(mut self, replay: Replay) -> Session
        requires sess_wf { SessWf self }
        requires next_lt_all_ones { replay.next.0 < all_ones }
        ensures { SessIs result (with_replay (replay_after replay) (view self)) }
    {
        if replay.remaining <= 1 {
            self.replay = None;
            return self;
        }
        let next = SeqNum(replay.next.0 + 1);
        self.replay = Some(Replay {
            next,
            remaining: replay.remaining - 1,
        });
        self
    }

    /// One more was delivered of the request in flight, the last of its batch or not.
    fn count_delivered(mut self, now: Instant, last: bool) -> Counted
        requires { SessWf self }
        ensures { CountedIs result (count_delivered now last (view self)) }
    {
        let Some(outstanding) = self.outstanding else {
            return Counted {
                session: self,
                complete: false,
            };
        };
        if outstanding.delivered == 4294967295 {
            return Counted {
                session: self,
                complete: true,
            };
        }
        let mut progressed = outstanding;
        let delivered = outstanding.delivered + 1;
        progressed.delivered = delivered;
        progressed.last_progress = now;
        progressed.batch_complete = last;
        progressed.stall_reported = false;
        self.outstanding = Some(progressed);
        Counted {
            session: self,
            complete: outstanding.count <= delivered,
        }
    }

    /// A request that is answered in full is over.
    fn complete_if(
        self,
        complete: bool,
        binding: Binding,
        queue: Outputs,
        now: Instant,
        stamp: Nanotime,
    ) -> Step
        requires { Ready 3 self queue }
        ensures { StepIs result (queue_of queue) (complete_if complete now stamp (view self) binding) }
    {
        if complete {
            return self.complete_outstanding(binding, queue, now, stamp);
        }
        self.stay(binding, queue)
    }

    /// A retransmitted message is accepted, unless it was received live already (FIXP 3.4.4: exactly once).
    fn deliver_replayed(
        mut self,
        complete: bool,
        binding: Binding,
        queue: Outputs,
        seq: SeqNum,
        now: Instant,
        stamp: Nanotime,
    ) -> Step
        requires { Ready 3 self queue }
        ensures { StepIs result (queue_of queue) (replayed_counted now stamp seq (record { session = view self; complete = complete }) binding) }
    {
        let duplicate = self.gaps.received_in_overflow(seq);
        let step = self.complete_if(complete, binding, queue, now, stamp);
        if duplicate {
            return step.answered(Ok(Verdict::Delivered(Delivery::Discard)));
        }
        step.answered(Ok(Verdict::Delivered(Delivery::Accept {
            seq: Some(seq),
            retransmitted: true,
        })))
    }

    /// A message of the batch being received.
    fn on_replayed(
        self,
        binding: Binding,
        queue: Outputs,
        replay: Replay,
        now: Instant,
        stamp: Nanotime,
    ) -> Step
        requires { Ready 4 self queue }
        ensures { StepIs result (queue_of queue) (on_replayed now stamp replay (view self) binding) }
    {
        let seq = replay.next;
        if seq.0 == ALL_ONES {
            return self.discard_violation(binding, queue, REPLAY_OVERFLOW);
        }
        let advanced = self.advance_replay(replay);
        let counted = advanced.count_delivered(now, replay.remaining <= 1);
        counted
            .session
            .deliver_replayed(counted.complete, binding, queue, seq, now, stamp)
    }

    /// Whether the peer has sent FinishedSending.
    pub fn is_peer_finished(self) -> bool
        ensures { result ≡ is_peer_finished (view self).peer_finished }
    {
        matches!(self.peer_finished, Some(_))
    }

    /// A live message, by the peer's flow.
    fn on_live(self, binding: Binding, queue: Outputs) -> Step
        requires { Ready 4 self queue }
        ensures { StepIs result (queue_of queue) (on_live (view self) binding) }
    {
        if self.is_peer_finished() {
            return self.discard_violation(binding, queue, APPLICATION_AFTER_FINISHED);
        }
        match self.remote_flow {
            FlowType::None => self.discard_violation(binding, queue, APPLICATION_ON_NONE),
            FlowType::Unsequenced => self.reply(
                binding,
                queue,
                Ok(Verdict::Delivered(Delivery::Accept {
                    seq: None,
                    retransmitted: false,
                })),
            ),
            FlowType::Recoverable | FlowType::Idempotent => self.number_live(binding, queue),
        }
    }

    /// The expected number is this message's, and settles the start as it stands.
    fn number_live(mut self, binding: Binding, queue: Outputs) -> Step
        requires { Ready 4 self queue }
        ensures { StepIs result (queue_of queue) (number_live (view self) binding) }
    {
        if self.awaiting_resume {
            return self.discard_violation(binding, queue, APPLICATION_BEFORE_RESUME);
        }
        self.start_pending = false;
        let Some(seq) = self.inbound_next else {
            return self.discard_violation(binding, queue, APPLICATION_BEFORE_SEQUENCE);
        };
        if seq.0 == ALL_ONES {
            return self.discard_violation(binding, queue, INBOUND_EXHAUSTED);
        }
        let following = Some(SeqNum(seq.0 + 1));
        self.inbound_next = following;
        self.reply(
            binding,
            queue,
            Ok(Verdict::Delivered(Delivery::Accept {
                seq: Some(seq),
                retransmitted: false,
            })),
        )
    }

    /// A NextSeqNo of Sequence, Context or a binding (FIXP 3.5 and 4.3).
    pub fn on_next_seq(
        self,
        binding: Binding,
        queue: Outputs,
        next: SeqNum,
        now: Instant,
        stamp: Nanotime,
    ) -> Step
        requires { Ready 5 self queue }
        ensures { StepIs result (queue_of queue) (on_next_seq now stamp next (view self) binding) }
    {
        if !self.remote_flow.is_sequenced() {
            return self.violation(binding, queue, SEQUENCE_UNSEQUENCED);
        }
        if next.0 == 0 {
            return self.violation(binding, queue, NEXT_ZERO);
        }
        if self.is_past_finished(next) {
            return self.violation(binding, queue, NEXT_PAST_LAST);
        }
        let stopped = self.stop_replay(now);
        stopped.announced(binding, queue, next, now, stamp)
    }

    /// Whether a number passes the end that FinishedSending gave (FIXP 6.3).
    fn is_past_finished(self, next: SeqNum) -> bool
        ensures { result ≡ past_finished (view self).peer_finished next.0 }
    {
        let Some(finished) = self.peer_finished else {
            return false;
        };
        let Some(end) = finished.end else {
            return false;
        };
        end.0 < next.0
    }

    /// A context switch ends a batch; one still short of its count was cut off (FIXP 3.5.4).
    fn stop_replay(mut self, now: Instant) -> Session
        requires { SessWf self }
        ensures { SessIs result (stop_replay now (view self)) }
    {
        self.awaiting_resume = false;
        let Some(replay) = self.replay else {
            return self;
        };
        self.replay = None;
        self.cut_off(now)
    }

    /// The request in flight was interrupted, and waits for its stall from now.
    fn cut_off(mut self, now: Instant) -> Session
        requires { SessWf self }
        ensures { SessIs result (with_outstanding (cut_off (view self).outstanding now) (view self)) }
    {
        let Some(outstanding) = self.outstanding else {
            return self;
        };
        let mut cut = outstanding;
        cut.interrupted = true;
        cut.stall_reported = false;
        cut.last_progress = now;
        self.outstanding = Some(cut);
        self
    }

    /// An announced number against the expected one: the first announcement sets it (FIXP, Appendix A 7.2.2 and 7.3.1).
    fn announced(
        mut self,
        binding: Binding,
        queue: Outputs,
        next: SeqNum,
        now: Instant,
        stamp: Nanotime,
    ) -> Step
        requires { Ready 5 self queue }
        ensures { StepIs result (queue_of queue) (announced now stamp next (view self) binding) }
    {
        if self.start_pending {
            self.start_pending = false;
            let first = self.with_inbound(next);
            return first.stay(binding, queue);
        }
        let Some(expected) = self.inbound_next else {
            let first = self.with_inbound(next);
            return first.stay(binding, queue);
        };
        if next.0 < expected.0 {
            return self.violation(binding, queue, NEXT_LOWER);
        }
        if next.0 == expected.0 {
            return self.stay(binding, queue);
        }
        if next.0 - expected.0 > self.config.max_gap_len {
            return self.violation(binding, queue, GAP_TOO_LONG);
        }
        self.on_gap(binding, queue, expected, next, now, stamp)
    }

    /// The number that the peer's next live message has.
    fn with_inbound(mut self, next: SeqNum) -> Session
        requires { SessWf self }
        ensures { SessIs result (with_inbound (Some next) (view self)) }
    {
        self.inbound_next = Some(next);
        self
    }

    /// The peer's flow skipped the numbers from `expected` to `next`.
    fn on_gap(
        self,
        binding: Binding,
        queue: Outputs,
        expected: SeqNum,
        next: SeqNum,
        now: Instant,
        stamp: Nanotime,
    ) -> Step
        requires ready { Ready 5 self queue }
        requires expected_le_next { expected.0 ≤ next.0 }
        ensures { StepIs result (queue_of queue) (on_gap now stamp expected next (view self) binding) }
    {
        let told = queue.event(Event::SequenceGap {
            from: expected,
            count: next.0 - expected.0,
        });
        match self.remote_flow {
            FlowType::Recoverable => self.record_gap(binding, told, expected, next, now, stamp),
            FlowType::Idempotent => self.report_gap(binding, told, expected, next, now),
            FlowType::Unsequenced | FlowType::None => self.skip_gap(binding, told, next),
        }
    }

    /// A gap that is neither asked for nor reported.
    fn skip_gap(self, binding: Binding, queue: Outputs, next: SeqNum) -> Step
        requires { InOrder self queue }
        ensures { StepIs result (queue_of queue) (stays (with_inbound (Some next) (view self)) binding []) }
    {
        let moved = self.with_inbound(next);
        moved.stay(binding, queue)
    }

    /// A Recoverable peer's gap is kept and asked for, or held past the bound (FIXP 4.6.1).
    fn record_gap(
        mut self,
        binding: Binding,
        queue: Outputs,
        from: SeqNum,
        next: SeqNum,
        now: Instant,
        stamp: Nanotime,
    ) -> Step
        requires { Ready 4 self queue }
        ensures { StepIs result (queue_of queue) (gap_on flow.Recoverable now stamp from next (view self) binding) }
    {
        let max = self.config.max_pending_gaps;
        if self.gaps.record_gap(max, from, next) {
            let moved = self.with_inbound(next);
            return moved.request_missing(binding, queue, now, stamp);
        }
        let held = self.gaps.hold_refused_gap(max, from, next);
        self.hold_gap(binding, queue, next, held)
    }

    /// Past the bound the gap is held, unless even its runs have no room, and the binding ends.
    fn hold_gap(self, binding: Binding, queue: Outputs, next: SeqNum, held: bool) -> Step
        requires { Ready 4 self queue }
        ensures { StepIs result (queue_of queue) (gap_held next (view_kept self.gaps held) (view self) binding) }
    {
        if held {
            let moved = self.with_inbound(next);
            return moved.violation(binding, queue, TOO_MANY_GAPS);
        }
        self.violation(binding, queue, TOO_MANY_GAPS)
    }

    /// An Idempotent peer's gap is not kept but reported (FIXP 4.8.2).
    fn report_gap(
        self,
        binding: Binding,
        queue: Outputs,
        from: SeqNum,
        next: SeqNum,
        now: Instant,
    ) -> Step
        requires ready { Ready 4 self queue }
        requires from_le_next { from.0 ≤ next.0 }
        ensures { StepIs result (queue_of queue) (gap_reported now from next (view self) binding) }
    {
        let moved = self.with_inbound(next);
        let count = next.0 - from.0;
        if count >= 4294967296 {
            return moved.violation(binding, queue, GAP_NOT_APPLIED);
        }
        moved.send_not_applied(
            binding,
            queue,
            NotApplied {
                from_seq_no: from,
                count: count as u32,
            },
            now,
        )
    }

    /// Numbers this side's next application message, behind a Sequence where the receiver could not number it by itself.
    pub fn allocate_outbound(mut self, binding: Binding, queue: Outputs) -> Step
        requires ready { Ready 1 self queue }
        requires outbound_next_bound { self.outbound_next.0 + 1 < all_ones }
        ensures { StepIs result (queue_of queue) (allocate_outbound (view self) binding) }
    {
        let mut numbered = binding;
        let seq = self.outbound_next;
        let following = SeqNum(seq.0 + 1);
        self.outbound_next = following;
        if numbered.in_sequence {
            return self.stay(numbered, queue);
        }
        let sent = queue.send(SessionMessage::Sequence(Sequence { next_seq_no: seq }));
        numbered.in_sequence = true;
        self.stay(numbered, sent)
    }

    /// A NotApplied with a number of this side's flow.
    fn number_not_applied(
        self,
        binding: Binding,
        queue: Outputs,
        message: NotApplied,
        now: Instant,
    ) -> Step
        requires { Ready 3 self queue }
        ensures { StepIs result (queue_of queue) (not_applied_numbered now message (view self) binding) }
    {
        let seq = self.outbound_next;
        if seq.0 >= ALL_ONES - 1 {
            return self.fail(
                binding,
                queue,
                TerminationCode::UnspecifiedError,
                OUTBOUND_EXHAUSTED,
            );
        }
        let step = self.allocate_outbound(binding, queue);
        let mut kept = step.binding;
        let sent = step.queue.send_application(Some(seq), message);
        kept.last_keepalive = now;
        step.session.stay(kept, sent)
    }

    /// Reports a gap of the peer's Idempotent flow, if this side's flow carries it (FIXP 4.8.2).
    pub fn send_not_applied(
        self,
        binding: Binding,
        queue: Outputs,
        message: NotApplied,
        now: Instant,
    ) -> Step
        requires { Ready 3 self queue }
        ensures { StepIs result (queue_of queue) (send_not_applied now message (view self) binding) }
    {
        let mut kept = binding;
        if !kept.is_established() {
            return self.stay(binding, queue);
        }
        match self.local_flow {
            FlowType::None => self.stay(binding, queue),
            FlowType::Unsequenced => {
                let sent = queue.send_application(None, message);
                kept.last_keepalive = now;
                self.stay(kept, sent)
            }
            FlowType::Recoverable | FlowType::Idempotent => {
                self.number_not_applied(binding, queue, message, now)
            }
        }
    }
}
