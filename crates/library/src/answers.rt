//! An answer as numbers, by 01's own (`rules/specs/Answers`).
ghost use Rattle.std.specs.Prelude.{◌≡◌};
ghost use Rattle.rules.specs.Answers.{refusal_values};
ghost use Rattle.library.specs.Answers.{first_of, second_of, numbered_reply, refusal_out, answer_out};

use crate::codes::{operation_out, status_out};
use crate::mirror::{Number, Reply};
use trace::text::refusal_number;
use types::answers::{Delivery, Refusal, Verdict};

/// An answer of that kind with that number, of which nothing else speaks.
pub fn numbered(kind: u8, number: Number) -> Reply
    ensures { result ≡ numbered_reply kind number }
{
    Reply {
        kind,
        refusal: 0,
        number,
        first: 0,
        second: 0,
    }
}

/// What a refusal carries: 8 operation and status, 13 both counts, 14 both lengths.
fn carried(refusal: Refusal) -> (u64, u64)
    ensures first { result.0 ≡ first_of (refusal_values refusal) }
    ensures second { result.1 ≡ second_of (refusal_values refusal) }
{
    match refusal {
        Refusal::InvalidState { operation, status } => (
            operation_out(operation),
            status_out(status),
        ),
        Refusal::RetransmissionOverrun { count, remaining } => {
            (u64::from(count), u64::from(remaining))
        }
        Refusal::ReasonTooLong { len, max } => (len as u64, max as u64),
        _ => (0, 0),
    }
}

impl From<Refusal> for Reply {
    ghost from_gives = { λ x r. r ≡ refusal_out x };

    fn from(refusal: Refusal) -> Reply {
        let (first, second) = carried(refusal);
        Reply {
            kind: 7,
            refusal: refusal_number(refusal),
            number: Number::default(),
            first,
            second,
        }
    }
}

impl From<Result<Verdict, Refusal>> for Reply {
    ghost from_gives = { λ a r. r ≡ answer_out a };

    fn from(answer: Result<Verdict, Refusal>) -> Reply {
        match answer {
            Ok(Verdict::Done) => numbered(1, Number::default()),
            Ok(Verdict::Delivered(Delivery::Accept { seq, retransmitted })) => {
                numbered(if retransmitted { 3 } else { 2 }, seq.into())
            }
            Ok(Verdict::Delivered(Delivery::Discard)) => numbered(4, Number::default()),
            Ok(Verdict::Sent(seq)) => numbered(5, seq.into()),
            Ok(Verdict::Batch(batch)) => Reply {
                first: u64::from(batch.count),
                ..numbered(6, Some(batch.from).into())
            },
            Err(refusal) => refusal.into(),
        }
    }
}
