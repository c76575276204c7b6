//! The outputs. Kinds: a message sent has the kind of its trace record (01), 1 is CloseTransport, and events are 101 to 113 in the order of `Event`.
ghost use Rattle.std.specs.Prelude.{◌≡◌};
ghost use Rattle.library.specs.Outputs.{bare_out, coded_out, counted_out, message_out, event_out, said_out, output_out, queue_out, said_in, is_said, all_said, output_in, queue_in};

use crate::codes::{by_in, is_name, listed, name_in, rejection_in, termination_in};
use crate::mirror::{Id, Number, Out, Queue};
use queue::{MAX_OUTPUTS, Outputs};
use types::ids::{Nanotime, SeqNum};
use types::messages::{
    FinishedReceiving, NotApplied, Retransmission, RetransmitReject, RetransmitRequest, Sequence,
    SessionMessage, Terminate,
};
use types::output::{Event, Output, Said};
use types::reasons::Reason;

// No `From`: it reads the fields of one kind, and `Out` as a whole is an `Output`.
/// What is sent, by the kinds 32 to 42, or reported, by the kinds from 101; else CloseTransport.
#[tactic(auto, unfolding(crate::specs::Outputs::said_in))]
fn said_in(o: Out) -> Said
    ensures { result ≡ said_in o }
{
    match o.kind {
        32 => Said::Send(SessionMessage::Sequence(Sequence {
            next_seq_no: SeqNum(o.number),
        })),
        34 => Said::Send(SessionMessage::UnsequencedHeartbeat),
        35 => Said::Send(SessionMessage::RetransmitRequest(RetransmitRequest {
            session_id: o.id.into(),
            timestamp: Nanotime(o.stamp),
            from_seq_no: SeqNum(o.number),
            count: o.count,
        })),
        36 => Said::Send(SessionMessage::Retransmission(Retransmission {
            session_id: o.id.into(),
            request_timestamp: Nanotime(o.stamp),
            next_seq_no: SeqNum(o.number),
            count: o.count,
        })),
        37 => Said::Send(SessionMessage::RetransmitReject(RetransmitReject {
            session_id: o.id.into(),
            request_timestamp: Nanotime(o.stamp),
            code: rejection_in(o.code),
        })),
        38 => Said::Send(SessionMessage::Terminate(Terminate {
            session_id: o.id.into(),
            code: termination_in(o.code),
        })),
        40 => Said::Send(SessionMessage::FinishedReceiving(FinishedReceiving {
            session_id: o.id.into(),
        })),
        42 => Said::SendApplication {
            seq: o.seq.into(),
            message: NotApplied {
                from_seq_no: SeqNum(o.number),
                count: o.count,
            },
        },
        101 => Said::Event(Event::Refused(name_in(o.code))),
        102 => Said::Event(Event::SequenceGap {
            from: SeqNum(o.number),
            count: o.length,
        }),
        103 => Said::Event(Event::RecoveryComplete),
        104 => Said::Event(Event::RetransmitRequested {
            from: SeqNum(o.number),
            count: o.count,
        }),
        105 => Said::Event(Event::RetransmitRejected {
            from: SeqNum(o.number),
            count: o.count,
            code: rejection_in(o.code),
        }),
        106 => Said::Event(Event::RetransmitTimedOut {
            from: SeqNum(o.number),
            count: o.count,
        }),
        107 => Said::Event(Event::NotApplied {
            from_seq_no: SeqNum(o.number),
            count: o.count,
        }),
        108 => Said::Event(Event::Applied {
            from_seq_no: SeqNum(o.number),
            count: o.count,
        }),
        109 => Said::Event(Event::Terminated {
            code: termination_in(o.code),
            by: by_in(o.by),
        }),
        110 => Said::Event(Event::KeepaliveLapsed),
        111 => Said::Event(Event::ProtocolViolation),
        112 => Said::Event(Event::PeerFinishedSending {
            last_seq_no: o.seq.into(),
        }),
        113 => Said::Event(Event::Ignored(name_in(o.code))),
        _ => Said::CloseTransport,
    }
}

/// Whether kind and code of an output are of their lists.
#[tactic(auto, unfolding(crate::specs::Outputs::is_said))]
fn is_said(o: Out) -> bool
    ensures { result ≡ is_said o }
{
    match o.kind {
        37 | 105 => listed(o.code, 3),
        38 => listed(o.code, 4),
        101 | 113 => is_name(o.code),
        109 => listed(o.by, 2) && listed(o.code, 4),
        1 | 32 | 34..=36 | 40 | 42 | 102..=104 | 106..=108 | 110..=112 => true,
        _ => false,
    }
}

/// An output of that kind, of which no other field speaks.
fn bare(kind: u8) -> Out
    ensures { result ≡ bare_out kind }
{
    Out {
        kind,
        code: 1,
        by: 1,
        reason: 0,
        count: 0,
        id: Id { low: 0, high: 0 },
        stamp: 0,
        number: 0,
        length: 0,
        seq: Number::default(),
        text: Reason::none().into(),
    }
}

/// An output of that kind with a code.
fn coded(kind: u8, code: u8) -> Out
    ensures { result ≡ coded_out kind code }
{
    Out { code, ..bare(kind) }
}

/// An output of that kind with a number and a count.
fn counted(kind: u8, number: SeqNum, count: u32) -> Out
    ensures { result ≡ counted_out kind number count }
{
    Out {
        number: number.0,
        count,
        ..bare(kind)
    }
}

/// A message sent.
impl From<SessionMessage> for Out {
    ghost from_gives = { λ m o. o ≡ message_out m };

    fn from(message: SessionMessage) -> Out {
        match message {
            SessionMessage::Sequence(m) => counted(32, m.next_seq_no, 0),
            SessionMessage::UnsequencedHeartbeat => bare(34),
            SessionMessage::RetransmitRequest(m) => Out {
                id: m.session_id.into(),
                stamp: m.timestamp.0,
                ..counted(35, m.from_seq_no, m.count)
            },
            SessionMessage::Retransmission(m) => Out {
                id: m.session_id.into(),
                stamp: m.request_timestamp.0,
                ..counted(36, m.next_seq_no, m.count)
            },
            SessionMessage::RetransmitReject(m) => Out {
                id: m.session_id.into(),
                stamp: m.request_timestamp.0,
                ..coded(37, u8::from(m.code))
            },
            SessionMessage::Terminate(m) => Out {
                id: m.session_id.into(),
                ..coded(38, u8::from(m.code))
            },
            SessionMessage::FinishedReceiving(m) => Out {
                id: m.session_id.into(),
                ..bare(40)
            },
        }
    }
}

/// An event.
impl From<Event> for Out {
    ghost from_gives = { λ e o. o ≡ event_out e };

    fn from(event: Event) -> Out {
        match event {
            Event::Refused(name) => coded(101, u8::from(name)),
            Event::SequenceGap { from, count } => Out {
                length: count,
                ..counted(102, from, 0)
            },
            Event::RecoveryComplete => bare(103),
            Event::RetransmitRequested { from, count } => counted(104, from, count),
            Event::RetransmitRejected { from, count, code } => Out {
                code: u8::from(code),
                ..counted(105, from, count)
            },
            Event::RetransmitTimedOut { from, count } => counted(106, from, count),
            Event::NotApplied { from_seq_no, count } => counted(107, from_seq_no, count),
            Event::Applied { from_seq_no, count } => counted(108, from_seq_no, count),
            Event::Terminated { code, by } => Out {
                by: u8::from(by),
                ..coded(109, u8::from(code))
            },
            Event::KeepaliveLapsed => bare(110),
            Event::ProtocolViolation => bare(111),
            Event::PeerFinishedSending { last_seq_no } => Out {
                seq: last_seq_no.into(),
                ..bare(112)
            },
            Event::Ignored(name) => coded(113, u8::from(name)),
        }
    }
}

impl From<Said> for Out {
    ghost from_gives = { λ s o. o ≡ said_out s };

    fn from(said: Said) -> Out {
        match said {
            Said::Send(message) => message.into(),
            Said::SendApplication { seq, message } => Out {
                seq: seq.into(),
                ..counted(42, message.from_seq_no, message.count)
            },
            Said::CloseTransport => bare(1),
            Said::Event(event) => event.into(),
        }
    }
}

impl From<Out> for Output {
    ghost from_gives = { λ o x. x ≡ output_in o };

    fn from(o: Out) -> Output {
        Output::new(said_in(o), o.reason, o.text.into())
    }
}

impl From<Output> for Out {
    ghost from_gives = { λ x o. o ≡ output_out x };

    fn from(o: Output) -> Out {
        Out {
            reason: o.reason,
            text: o.text.into(),
            ..o.said.into()
        }
    }
}

/// Place by place, also those that are not queued.
impl From<Queue> for Outputs {
    ghost from_gives = { λ q outputs. outputs ≡ queue_in q };

    fn from(q: Queue) -> Outputs {
        let mut outputs = Outputs::new();
        for i in 0..MAX_OUTPUTS {
            outputs.slots[i] = Output::from(q.slots[i]);
        }
        outputs.head = q.head;
        outputs.count = q.count;
        outputs.closing = q.closing;
        outputs
    }
}

impl From<Outputs> for Queue {
    ghost from_gives = { λ outputs q. q ≡ queue_out outputs };

    fn from(outputs: Outputs) -> Queue {
        let mut q = Queue {
            slots: [bare(1); MAX_OUTPUTS],
            head: 0,
            count: 0,
            closing: false,
        };
        for i in 0..MAX_OUTPUTS {
            q.slots[i] = Out::from(outputs.slots[i]);
        }
        q.head = outputs.head;
        q.count = outputs.count;
        q.closing = outputs.closing;
        q
    }
}

/// Whether every place holds an output.
pub fn all_said(q: Queue) -> bool
    ensures { result ≡ all_said q.slots }
{
    q.slots.iter().all(|o| is_said(*o))
}
