//! The ordinary calls, known by a look at a few fields: whether the call is one, and what it changes.
//! A caller that holds the record stores the few fields that change; any other case is for `calls`.
#![tactic(auto)]

ghost use Rattle.std.specs.Prelude.{◌≡◌};
ghost use Rattle.session.specs.View.{view};
ghost use Rattle.fast.specs.Quick.{ready_record, Live, Same, Sent, Idle, Header, Lost, Recovered, Asked, Batch};

use queue::{MAX_OUTPUTS, Outputs};
use session::Session;
use session::asking::in_range;
use types::binding::Binding;
use types::ids::{ALL_ONES, Instant, Nanotime, SeqNum};
use types::messages::{Retransmission, RetransmitRequest};
use types::parts::{Gap, Outstanding, Provider};
use types::reasons::Reason;

/// Whether the record is good and its queue empty, so that neither refusal 1 nor 7 comes.
#[tactic(auto, unfolding(crate::specs::Quick::ready_record))]
pub fn is_ready(session: Session, reason: Reason, queue: Outputs) -> bool
    ensures { result ≡ ready_record session reason queue }
{
    calls::config_fits(session.config)
        && session.gaps.sound()
        && reason.fits()
        && queue.count == 0
        && queue.head < MAX_OUTPUTS
}

/// A live message with a number.
#[tactic(auto, using(crate::proofs::Laws::live_rule))]
pub fn live(session: Session, binding: Binding) -> Option<SeqNum>
    ensures { Live result (view session) binding }
{
    if binding.is_closing()
        || session.awaiting_resume
        || !session.remote_flow.is_sequenced()
        || session.replay.is_some()
        || session.peer_finished.is_some()
    {
        return None;
    }
    let seq = session.inbound_next?;
    if seq.0 == ALL_ONES {
        return None;
    }
    Some(seq)
}

/// An announced number that is the expected one.
#[tactic(auto, using(crate::proofs::Laws::same_rule))]
pub fn same(session: Session, binding: Binding, next: SeqNum) -> bool
    ensures { Same result next (view session) binding }
{
    !binding.is_closing()
        && !session.start_pending
        && session.remote_flow.is_sequenced()
        && next.0 != 0
        && session.replay.is_none()
        && session.peer_finished.is_none()
        && session.inbound_next == Some(next)
}

/// A message sent in sequence.
#[tactic(auto, using(crate::proofs::Laws::sent_rule))]
pub fn sent(session: Session, binding: Binding) -> bool
    ensures { Sent result (view session) binding }
{
    binding.is_established()
        && binding.in_sequence
        && session.local_flow.is_sequenced()
        && session.peer_finished.is_none()
        && session.outbound_next.0 < ALL_ONES - 1
}

/// Nothing is due.
#[tactic(auto, using(crate::proofs::Laws::idle_rule, crate::proofs::Laws::idle_never))]
pub fn idle(session: Session, binding: Binding, now: Instant) -> bool
    ensures { Idle result now (view session) binding }
{
    if !binding.is_established() {
        return false;
    }
    match session.next_deadline(binding) {
        Some(due) => now < due,
        None => true,
    }
}

/// The header of a batch of the request in flight.
#[tactic(auto, using(crate::proofs::Laws::header_rule))]
pub fn header(session: Session, binding: Binding, message: Retransmission) -> Option<Outstanding>
    ensures { Header result message (view session) binding }
{
    if binding.is_closing()
        || !session.remote_flow.is_recoverable()
        || message.session_id != session.id
    {
        return None;
    }
    let outstanding = session.outstanding?;
    if message.request_timestamp != outstanding.timestamp || !in_range(message, outstanding) {
        return None;
    }
    Some(outstanding)
}

/// A first gap: what is missing.
#[tactic(auto, using(crate::proofs::Laws::lost_rule))]
pub fn lost(session: Session, binding: Binding, next: SeqNum, stamp: Nanotime) -> Option<Gap>
    ensures { Lost result next stamp (view session) binding }
{
    if !binding.is_established()
        || session.start_pending
        || !session.remote_flow.is_recoverable()
        || session.replay.is_some()
        || session.peer_finished.is_some()
        || session.outstanding.is_some()
        || stamp.0 == ALL_ONES
        || session.config.max_pending_gaps == 0
        || !session.gaps.is_empty()
    {
        return None;
    }
    let expected = session.inbound_next?;
    if next <= expected || next.0 - expected.0 > session.config.max_gap_len {
        return None;
    }
    Some(Gap {
        from: expected,
        end: next,
    })
}

/// The last message of the batch that ends all recovery.
#[tactic(auto, using(crate::proofs::Laws::recovered_rule, crate::proofs::Laws::sound_missing))]
pub fn recovered(session: Session, binding: Binding) -> Option<SeqNum>
    ensures { Recovered result (view session) binding }
{
    if !binding.is_established() || session.peer_finished.is_some() {
        return None;
    }
    let replay = session.replay?;
    if replay.remaining > 1 || replay.next.0 == ALL_ONES {
        return None;
    }
    let outstanding = session.outstanding?;
    if outstanding.delivered == u32::MAX
        || outstanding.count == 0
        || outstanding.delivered + 1 < outstanding.count
    {
        return None;
    }
    // A copy of this list alone: where `session` lends it, all of `session` is copied, and a message lost and recovered takes a fifth longer.
    let missing = session.gaps.missing;
    if !session.gaps.sound() || session.gaps.overflow_received.len() != 0 || missing.len() != 1 {
        return None;
    }
    let gap = missing.front()?;
    if gap.end < gap.from || gap.end.0 - gap.from.0 > outstanding.count as u64 {
        return None;
    }
    Some(replay.next)
}

/// A request of the peer that can be served.
#[tactic(auto, using(crate::proofs::Laws::asked_rule))]
pub fn asked(session: Session, binding: Binding, message: RetransmitRequest) -> bool
    ensures { Asked result message (view session) binding }
{
    binding.is_established()
        && session.local_flow.is_recoverable()
        && message.session_id == session.id
        && session.provider.is_none()
        && message.count != 0
        && message.count <= session.config.max_retransmit_count
        && session.is_sent(message)
}

/// The request that a batch of this count answers.
#[tactic(auto, using(crate::proofs::Laws::batch_passes, crate::proofs::Laws::batch_does))]
pub fn batch(session: Session, binding: Binding, count: u32) -> Option<Provider>
    ensures { Batch result count (view session) binding }
{
    if !binding.is_established() {
        return None;
    }
    let provider = session.provider?;
    if count == 0
        || provider.sent as u64 + count as u64 > provider.count as u64
        || provider.sent as u64 > ALL_ONES - provider.from.0
    {
        return None;
    }
    Some(provider)
}
