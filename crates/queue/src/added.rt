//! What one call says (session.rs, Core): a step takes what the call has said so far, and gives it back with its own lines behind.
ghost use Rattle.std.specs.Prelude.{◌≡◌, [], ◌+◌, ◌≤◌};
ghost use Rattle.types.specs.Outputs.{line};
ghost use Rattle.rules.specs.Names.said as says;
ghost use Rattle.rules.specs.Names.event as ev;
ghost use Rattle.rules.specs.Names.quote as quoting;
ghost use Rattle.rules.specs.Calls.{room_for_call};
ghost use Rattle.queue.specs.Added.{lines_of, Pushed};

use types::ids::SeqNum;
use types::messages::{MessageName, NotApplied, SessionMessage};
use types::output::{Event, Line, Quote, Said};

/// "A call queues at most 6 outputs" (01).
pub const ROOM_FOR_CALL: usize = 6;

// The pushes of `Outputs` once more, with a Quote where those have bytes: a trait of both would state order and room as its members, in more words
// than it saves, and these take the place of those once steps hand back what they add. Array and count: there is no heap, and 01 fixes the room.
/// The first `count` lines, in order.
#[derive(Clone, Copy)]
pub struct Added {
    pub lines: [Line; ROOM_FOR_CALL],
    pub count: usize,
}

impl Added {
    /// Nothing is said yet.
    pub fn none() -> Added
        ensures count { result.count ≡ 0 }
        ensures lines { lines_of result ≡ [] }
    {
        let none = Line {
            said: Said::CloseTransport,
            reason: 0,
            quote: Quote::None,
        };
        Added {
            lines: [none; ROOM_FOR_CALL],
            count: 0,
        }
    }

    fn push(mut self, said: Said, reason: u8, quote: Quote) -> Added
        requires { self.count + 1 ≤ room_for_call }
        ensures { Pushed result self (line said reason quote) }
    {
        let at = self.count;
        let next = Line {
            said,
            reason,
            quote,
        };
        self.lines[at] = next;
        self.count = at + 1;
        self
    }

    pub fn send(self, message: SessionMessage) -> Added
        requires { self.count + 1 ≤ room_for_call }
        ensures { Pushed result self (line (says.Send message) 0 quoting.None) }
    {
        self.push(Said::Send(message), 0, Quote::None)
    }

    /// With the reason of that number.
    pub fn send_with(self, message: SessionMessage, reason: u8) -> Added
        requires { self.count + 1 ≤ room_for_call }
        ensures { Pushed result self (line (says.Send message) reason quoting.None) }
    {
        self.push(Said::Send(message), reason, Quote::None)
    }

    /// With the bytes of a host's reason.
    pub fn send_quoting(self, message: SessionMessage, quote: Quote) -> Added
        requires { self.count + 1 ≤ room_for_call }
        ensures { Pushed result self (line (says.Send message) 0 quote) }
    {
        self.push(Said::Send(message), 0, quote)
    }

    pub fn send_application(self, seq: Option<SeqNum>, message: NotApplied) -> Added
        requires { self.count + 1 ≤ room_for_call }
        ensures { Pushed result self (line (says.SendApplication seq message) 0 quoting.None) }
    {
        self.push(Said::SendApplication { seq, message }, 0, Quote::None)
    }

    pub fn event(self, event: Event) -> Added
        requires { self.count + 1 ≤ room_for_call }
        ensures { Pushed result self (line (says.Event event) 0 quoting.None) }
    {
        self.push(Said::Event(event), 0, Quote::None)
    }

    /// With the reason of that number.
    pub fn event_with(self, event: Event, reason: u8) -> Added
        requires { self.count + 1 ≤ room_for_call }
        ensures { Pushed result self (line (says.Event event) reason quoting.None) }
    {
        self.push(Said::Event(event), reason, Quote::None)
    }

    /// With the bytes of a host's or peer's reason.
    pub fn event_quoting(self, event: Event, quote: Quote) -> Added
        requires { self.count + 1 ≤ room_for_call }
        ensures { Pushed result self (line (says.Event event) 0 quote) }
    {
        self.push(Said::Event(event), 0, quote)
    }

    pub fn close_transport(self) -> Added
        requires { self.count + 1 ≤ room_for_call }
        ensures { Pushed result self (line says.CloseTransport 0 quoting.None) }
    {
        self.push(Said::CloseTransport, 0, Quote::None)
    }

    /// A message that nothing is done with (FIXP, Appendix A 7.1.7.5).
    pub fn ignore(self, message: MessageName, reason: u8) -> Added
        requires { self.count + 1 ≤ room_for_call }
        ensures { Pushed result self (line (says.Event (ev.Ignored message)) reason quoting.None) }
    {
        self.event_with(Event::Ignored(message), reason)
    }
}
