//! The output queue of Core with its closing flag (session.rs, Core): 32 places, filled by steps and emptied by the host.
#![tactic(auto)]

ghost use Rattle.std.specs.Prelude.{◌≡◌, ◌||◌, ◌∷◌, [], ◌+◌, ◌<◌, length};
ghost use Rattle.rules.specs.State.{is_close, queued};
ghost use Rattle.rules.specs.Outputs.{output, send, send_with, send_quoting, event, event_with, event_quoting, close_transport};
ghost use Rattle.rules.specs.Names.said;
ghost use Rattle.rules.specs.Names.event as ev;
ghost use Rattle.rules.specs.Calls.{transport_closed};
ghost use Rattle.types.specs.Reasons.{no_text};
ghost use Rattle.queue.specs.View.{queue_of, OutsWf, QueueIs, empty_queue, PolledIs, sound_outs, room_of, takes, Filled};

use crate::added::{Added, ROOM_FOR_CALL};
use rings::place::place;
use types::ids::SeqNum;
use types::messages::{MessageName, NotApplied, SessionMessage};
use types::output::{Event, Output, Said};
use types::reasons::Reason;

pub mod added;

/// The places of the queue (01, "Built, and not built").
pub const MAX_OUTPUTS: usize = 32;

// A ring of its own beside `rings::ring`: a generic struct has no array of a type parameter. Its order is no invariant: a host may hand in any
// head and count, which refusal 1 looks at.
/// Outputs in order, oldest at `head`. `closing` is set when this side asks for the transport to be closed.
#[derive(Clone, Copy)]
pub struct Outputs {
    pub slots: [Output; MAX_OUTPUTS],
    pub head: usize,
    pub count: usize,
    pub closing: bool,
}

/// What a poll gives: the queue without its first output, and that output, if there was one.
#[derive(Clone, Copy)]
pub struct Polled {
    pub queue: Outputs,
    pub output: Option<Output>,
}

// Two flags and no `Option<bool>`: refusals 1 and 7 are two tests, which a call makes at two places of 01's order.
/// What a call has to know of the queue before it is made: whether it passes the record check (1), and whether six places are free (7).
#[derive(Clone, Copy)]
pub struct Room {
    pub good: bool,
    pub free: bool,
}

/// The queue after a call's outputs were put into it, and whether they were.
// No `Result`: the queue comes back either way, and is used either way.
#[derive(Clone, Copy)]
pub struct Put {
    pub queue: Outputs,
    pub done: bool,
}

fn is_close(said: Said) -> bool
    ensures { result ≡ is_close said }
{
    matches!(said, Said::CloseTransport)
}

impl Outputs {
    pub fn new() -> Outputs
        ensures { QueueIs result empty_queue }
    {
        let none = Output::new(Said::CloseTransport, 0, Reason::none());
        Outputs {
            slots: [none; MAX_OUTPUTS],
            head: 0,
            count: 0,
            closing: false,
        }
    }

    pub fn len(self) -> usize
        ensures { result ≡ length (queue_of self).outs }
    {
        self.count
    }

    /// What a call says, behind what is there. A queue that is out of order, or has too few places left, stays as it is, and the answer says so.
    pub fn put(mut self, added: Added, kept: Reason, given: Reason) -> Put
        ensures { Filled self added kept given result.queue result.done }
    {
        if added.count == 0 {
            return Put {
                queue: self,
                done: true,
            };
        }
        if !self.takes(added.count) {
            return Put {
                queue: self,
                done: false,
            };
        }
        for line in &added.lines[..added.count] {
            self = self.push(line.output(kept, given));
        }
        Put {
            queue: self,
            done: true,
        }
    }

    /// Whether so many outputs of one call have a place.
    fn takes(self, more: usize) -> bool
        ensures { result ≡ takes self more }
    {
        self.head < MAX_OUTPUTS
            && self.count <= MAX_OUTPUTS
            && more <= ROOM_FOR_CALL
            && self.count + more <= MAX_OUTPUTS
    }

    /// Adds an output at the back. Asking for the transport to be closed sets the flag.
    pub fn push(mut self, o: Output) -> Outputs
        requires outs_wf { OutsWf self }
        requires self_len_bound { length (queue_of self).outs < 32 }
        ensures { QueueIs result (queued (queue_of self) (o ∷ [])) }
    {
        self.slots[place(self.head, self.count, MAX_OUTPUTS)] = o;
        self.count += 1;
        self.closing = self.closing || is_close(o.said);
        self
    }

    pub fn send(self, message: SessionMessage) -> Outputs
        requires outs_wf { OutsWf self }
        requires self_len_bound { length (queue_of self).outs < 32 }
        ensures { QueueIs result (queued (queue_of self) (send message ∷ [])) }
    {
        self.push(Output::new(Said::Send(message), 0, Reason::none()))
    }

    /// With the reason of that number.
    pub fn send_with(self, message: SessionMessage, reason: u8) -> Outputs
        requires outs_wf { OutsWf self }
        requires self_len_bound { length (queue_of self).outs < 32 }
        ensures { QueueIs result (queued (queue_of self) (send_with message reason ∷ [])) }
    {
        self.push(Output::new(Said::Send(message), reason, Reason::none()))
    }

    /// With the bytes of a host's reason.
    pub fn send_quoting(self, message: SessionMessage, text: Reason) -> Outputs
        requires outs_wf { OutsWf self }
        requires self_len_bound { length (queue_of self).outs < 32 }
        ensures { QueueIs result (queued (queue_of self) (send_quoting message text ∷ [])) }
    {
        self.push(Output::new(Said::Send(message), 0, text))
    }

    pub fn send_application(self, seq: Option<SeqNum>, message: NotApplied) -> Outputs
        requires outs_wf { OutsWf self }
        requires self_len_bound { length (queue_of self).outs < 32 }
        ensures { QueueIs result (queued (queue_of self) (output (said.SendApplication seq message) 0 no_text ∷ [])) }
    {
        self.push(Output::new(Said::SendApplication { seq, message }, 0, Reason::none()))
    }

    pub fn event(self, event: Event) -> Outputs
        requires outs_wf { OutsWf self }
        requires self_len_bound { length (queue_of self).outs < 32 }
        ensures { QueueIs result (queued (queue_of self) (Rattle.rules.specs.Outputs.event event ∷ [])) }
    {
        self.push(Output::new(Said::Event(event), 0, Reason::none()))
    }

    /// With the reason of that number.
    pub fn event_with(self, event: Event, reason: u8) -> Outputs
        requires outs_wf { OutsWf self }
        requires self_len_bound { length (queue_of self).outs < 32 }
        ensures { QueueIs result (queued (queue_of self) (event_with event reason ∷ [])) }
    {
        self.push(Output::new(Said::Event(event), reason, Reason::none()))
    }

    /// With the bytes of a host's or peer's reason.
    pub fn event_quoting(self, event: Event, text: Reason) -> Outputs
        requires outs_wf { OutsWf self }
        requires self_len_bound { length (queue_of self).outs < 32 }
        ensures { QueueIs result (queued (queue_of self) (event_quoting event text ∷ [])) }
    {
        self.push(Output::new(Said::Event(event), 0, text))
    }

    pub fn close_transport(self) -> Outputs
        requires outs_wf { OutsWf self }
        requires self_len_bound { length (queue_of self).outs < 32 }
        ensures { QueueIs result (queued (queue_of self) (close_transport ∷ [])) }
    {
        self.push(Output::new(Said::CloseTransport, 0, Reason::none()))
    }

    /// A message that nothing is done with (FIXP, Appendix A 7.1.7.5).
    pub fn ignore(self, message: MessageName, reason: u8) -> Outputs
        requires outs_wf { OutsWf self }
        requires self_len_bound { length (queue_of self).outs < 32 }
        ensures { QueueIs result (queued (queue_of self) (event_with (ev.Ignored message) reason ∷ [])) }
    {
        self.event_with(Event::Ignored(message), reason)
    }

    /// Whether this side has asked for the transport to be closed and the host has not reported it closed yet.
    pub fn transport_closing(self) -> bool
        ensures { result ≡ (queue_of self).closing }
    {
        self.closing
    }

    /// The host reported the transport closed.
    pub fn transport_closed(mut self) -> Outputs
        requires { OutsWf self }
        ensures { QueueIs result (transport_closed (queue_of self)) }
    {
        self.closing = false;
        self
    }

    /// The first output goes to the host.
    pub fn poll_output(mut self) -> Polled
        requires { OutsWf self }
        ensures { PolledIs result (queue_of self) }
    {
        if self.count == 0 {
            return Polled {
                queue: self,
                output: None,
            };
        }
        let output = Some(self.slots[self.head]);
        self.head = place(self.head, 1, MAX_OUTPUTS);
        self.count -= 1;
        Polled {
            queue: self,
            output,
        }
    }

    /// What a call has to know of it.
    pub fn room(self) -> Room
        ensures { result ≡ room_of self }
    {
        if !self.sound() {
            return Room {
                good: false,
                free: false,
            };
        }
        Room {
            good: true,
            free: self.count + ROOM_FOR_CALL <= MAX_OUTPUTS,
        }
    }

    /// Each number within its room: positions, count, and the reasons of the outputs queued.
    pub fn sound(self) -> bool
        ensures { result ≡ sound_outs self }
    {
        self.head < MAX_OUTPUTS && self.count <= MAX_OUTPUTS && self.texts_fit()
    }

    /// The reasons of the outputs queued, one after another.
    fn texts_fit(self) -> bool
        requires { OutsWf self }
        ensures { result ≡ Rattle.rules.specs.Calls.texts_fit (queue_of self).outs }
    {
        for k in 0..self.count {
            if !self.slots[place(self.head, k, MAX_OUTPUTS)].text.fits() {
                return false;
            }
        }
        true
    }
}
