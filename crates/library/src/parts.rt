//! The parts of a record, to and from their mirrors.
ghost use Rattle.std.specs.Prelude.{◌≡◌};
ghost use Rattle.library.specs.Parts.{seq_in, seq_out, instant_in, instant_out, duration_in, duration_out, id_in, id_out, text_in, text_out};
ghost use Rattle.library.specs.Parts.{config_in, config_out, outstanding_in, outstanding_out, replay_in, replay_out, provider_in, provider_out, finished_in, finished_out};
ghost use Rattle.library.specs.Parts.{state_in, binding_in, no_bond, binding_out};

use crate::codes::{policy_in, termination_in};
use crate::mirror::{Asked, Batch, Bond, Finished, Id, Number, Served, Settings, Text};
use types::binding::{BindState, Binding};
use types::config::FixpConfig;
use types::ids::{Instant, Nanotime, SeqNum, SessionId};
use types::parts::{Outstanding, PeerFinished, Provider, Replay};
use types::reasons::Reason;

impl From<Number> for Option<u64> {
    ghost from_gives = { λ n d. d ≡ duration_in n };

    fn from(n: Number) -> Option<u64> {
        n.some.then_some(n.it)
    }
}

impl From<Option<u64>> for Number {
    ghost from_gives = { λ d n. n ≡ duration_out d };

    fn from(number: Option<u64>) -> Number {
        match number {
            Some(it) => Number { some: true, it },
            None => Number::default(),
        }
    }
}

impl From<Number> for Option<SeqNum> {
    ghost from_gives = { λ n seq. seq ≡ seq_in n };

    fn from(n: Number) -> Option<SeqNum> {
        n.some.then_some(SeqNum(n.it))
    }
}

impl From<Option<SeqNum>> for Number {
    ghost from_gives = { λ seq n. n ≡ seq_out seq };

    fn from(seq: Option<SeqNum>) -> Number {
        seq.map(|n| n.0).into()
    }
}

impl From<Number> for Option<Instant> {
    ghost from_gives = { λ n t. t ≡ instant_in n };

    fn from(n: Number) -> Option<Instant> {
        n.some.then_some(Instant(n.it))
    }
}

impl From<Option<Instant>> for Number {
    ghost from_gives = { λ t n. n ≡ instant_out t };

    fn from(instant: Option<Instant>) -> Number {
        instant.map(|t| t.0).into()
    }
}

impl From<Id> for SessionId {
    ghost from_gives = { λ i s. s ≡ id_in i };

    fn from(id: Id) -> SessionId {
        SessionId(id.low, id.high)
    }
}

impl From<SessionId> for Id {
    ghost from_gives = { λ s i. i ≡ id_out s };

    fn from(id: SessionId) -> Id {
        Id {
            low: id.0,
            high: id.1,
        }
    }
}

impl From<Text> for Reason {
    ghost from_gives = { λ t r. r ≡ text_in t };

    fn from(text: Text) -> Reason {
        // tried straight: the borrow checker does not cover an array that goes from field to field
        let bytes = text.bytes;
        Reason {
            bytes,
            len: text.len,
        }
    }
}

impl From<Reason> for Text {
    ghost from_gives = { λ r t. t ≡ text_out r };

    fn from(reason: Reason) -> Text {
        // as for the Reason of a Text
        let bytes = reason.bytes;
        Text {
            bytes,
            len: reason.len,
        }
    }
}

impl From<Settings> for FixpConfig {
    ghost from_gives = { λ c g. g ≡ config_in c };

    fn from(c: Settings) -> FixpConfig {
        FixpConfig {
            max_gap_len: c.max_gap_len,
            max_retransmit_count: c.max_retransmit_count,
            max_pending_gaps: c.max_pending_gaps,
            retransmit_timeout: c.timeout,
            peer_silence_grace: c.grace.into(),
            retransmit_stall_policy: policy_in(c.policy),
        }
    }
}

impl From<FixpConfig> for Settings {
    ghost from_gives = { λ g c. c ≡ config_out g };

    fn from(c: FixpConfig) -> Settings {
        Settings {
            max_gap_len: c.max_gap_len,
            max_retransmit_count: c.max_retransmit_count,
            max_pending_gaps: c.max_pending_gaps,
            policy: u8::from(c.retransmit_stall_policy),
            timeout: c.retransmit_timeout,
            grace: c.peer_silence_grace.into(),
        }
    }
}

impl From<Asked> for Option<Outstanding> {
    ghost from_gives = { λ o it. it ≡ outstanding_in o };

    fn from(o: Asked) -> Option<Outstanding> {
        o.some.then_some(Outstanding {
            timestamp: Nanotime(o.stamp),
            from: SeqNum(o.from),
            count: o.count,
            delivered: o.delivered,
            last_progress: Instant(o.last_progress),
            interrupted: o.interrupted,
            batch_complete: o.batch_complete,
            stall_reported: o.stall_reported,
        })
    }
}

impl From<Option<Outstanding>> for Asked {
    ghost from_gives = { λ it o. o ≡ outstanding_out it };

    fn from(it: Option<Outstanding>) -> Asked {
        match it {
            Some(o) => Asked {
                some: true,
                interrupted: o.interrupted,
                batch_complete: o.batch_complete,
                stall_reported: o.stall_reported,
                count: o.count,
                delivered: o.delivered,
                stamp: o.timestamp.0,
                from: o.from.0,
                last_progress: o.last_progress.0,
            },
            None => Asked::default(),
        }
    }
}

impl From<Batch> for Option<Replay> {
    ghost from_gives = { λ b it. it ≡ replay_in b };

    fn from(b: Batch) -> Option<Replay> {
        b.some.then_some(Replay {
            next: SeqNum(b.next),
            remaining: b.remaining,
        })
    }
}

impl From<Option<Replay>> for Batch {
    ghost from_gives = { λ it b. b ≡ replay_out it };

    fn from(it: Option<Replay>) -> Batch {
        match it {
            Some(r) => Batch {
                some: true,
                remaining: r.remaining,
                next: r.next.0,
            },
            None => Batch::default(),
        }
    }
}

impl From<Served> for Option<Provider> {
    ghost from_gives = { λ s it. it ≡ provider_in s };

    fn from(s: Served) -> Option<Provider> {
        s.some.then_some(Provider {
            request_timestamp: Nanotime(s.stamp),
            from: SeqNum(s.from),
            count: s.count,
            sent: s.sent,
        })
    }
}

impl From<Option<Provider>> for Served {
    ghost from_gives = { λ it s. s ≡ provider_out it };

    fn from(it: Option<Provider>) -> Served {
        match it {
            Some(p) => Served {
                some: true,
                count: p.count,
                sent: p.sent,
                stamp: p.request_timestamp.0,
                from: p.from.0,
            },
            None => Served::default(),
        }
    }
}

impl From<Finished> for Option<PeerFinished> {
    ghost from_gives = { λ f it. it ≡ finished_in f };

    fn from(f: Finished) -> Option<PeerFinished> {
        f.some.then_some(PeerFinished {
            receiving_sent: f.receiving_sent,
            end: f.end.into(),
        })
    }
}

impl From<Option<PeerFinished>> for Finished {
    ghost from_gives = { λ it f. f ≡ finished_out it };

    fn from(it: Option<PeerFinished>) -> Finished {
        match it {
            Some(f) => Finished {
                some: true,
                receiving_sent: f.receiving_sent,
                end: f.end.into(),
            },
            None => Finished::default(),
        }
    }
}

// No `From`: it reads the fields of one phase, and `Bond` as a whole is an `Option<Binding>`.
/// The state by its phase: 1 Established, 2 Terminating, 3 Closing.
#[tactic(auto, unfolding(crate::specs::Parts::state_in))]
fn state_in(b: Bond) -> BindState
    ensures { result ≡ state_in b }
{
    match b.phase {
        1 => BindState::Established,
        2 => BindState::Terminating {
            sent_at: Instant(b.sent_at),
            code: termination_in(b.code),
        },
        _ => BindState::Closing {
            deadline: b.deadline.into(),
        },
    }
}

impl From<Bond> for Option<Binding> {
    ghost from_gives = { λ b it. it ≡ binding_in b };

    fn from(b: Bond) -> Option<Binding> {
        b.some.then_some(Binding {
            state: state_in(b),
            local_keepalive: b.local_keepalive,
            remote_keepalive: b.remote_keepalive,
            last_keepalive: Instant(b.last_keepalive),
            last_received: Instant(b.last_received),
            in_sequence: b.in_sequence,
        })
    }
}

/// No binding.
fn no_bond() -> Bond
    ensures { result ≡ no_bond }
{
    Bond {
        some: false,
        phase: 1,
        code: 1,
        in_sequence: false,
        sent_at: 0,
        deadline: Number::default(),
        local_keepalive: 0,
        remote_keepalive: 0,
        last_keepalive: 0,
        last_received: 0,
    }
}

impl From<Option<Binding>> for Bond {
    ghost from_gives = { λ it b. b ≡ binding_out it };

    fn from(it: Option<Binding>) -> Bond {
        let Some(b) = it else {
            return no_bond();
        };
        let established = Bond {
            some: true,
            in_sequence: b.in_sequence,
            local_keepalive: b.local_keepalive,
            remote_keepalive: b.remote_keepalive,
            last_keepalive: b.last_keepalive.0,
            last_received: b.last_received.0,
            ..no_bond()
        };
        match b.state {
            BindState::Established => established,
            BindState::Terminating { sent_at, code } => Bond {
                phase: 2,
                code: u8::from(code),
                sent_at: sent_at.0,
                ..established
            },
            BindState::Closing { deadline } => Bond {
                phase: 3,
                deadline: deadline.into(),
                ..established
            },
        }
    }
}
