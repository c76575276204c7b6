//! Records whose call a look at a few fields knows: what they change is stored in place, and is the rule book's step.
ghost use Rattle.std.specs.Prelude.{◌≡◌};
ghost use Rattle.session.specs.View.{view};
ghost use Rattle.replay.specs.Ordinary.{LiveIf, SameIf, SentIf, QuickIs, link_heard, link_kept_alive};

use queue::Outputs;
use session::Session;
use trace::records::{Entry, Record};
use types::binding::{Binding, Link};
use types::ids::{ALL_ONES, Instant, SeqNum};
use types::messages::PeerMessage;

/// An ordinary record, which changes a few fields and queues nothing.
#[derive(Clone, Copy)]
pub enum Quick {
    Live(SeqNum),
    Same,
    Sent(SeqNum),
}

/// Whether an announced number is an ordinary one.
fn quick_sequence(session: Session, binding: Binding, message: PeerMessage) -> Option<Quick>
    ensures { SameIf result message (view session) binding }
{
    let PeerMessage::Sequence(m) = message else {
        return None;
    };
    if fast::same(session, binding, m.next_seq_no) {
        return Some(Quick::Same);
    }
    None
}

/// Whether a live message is an ordinary one.
fn quick_live(session: Session, binding: Binding) -> Option<Quick>
    ensures { LiveIf result (view session) binding }
{
    let seq = fast::live(session, binding)?;
    if seq.0 == ALL_ONES {
        return None;
    }
    Some(Quick::Live(seq))
}

/// Whether a message is sent in the ordinary way.
fn quick_send(session: Session, binding: Binding) -> Option<Quick>
    ensures { SentIf result (view session) binding }
{
    if !fast::sent(session, binding) {
        return None;
    }
    let seq = session.outbound_next;
    if seq.0 == ALL_ONES {
        return None;
    }
    Some(Quick::Sent(seq))
}

/// Whether a record is an ordinary one.
pub fn quick_of(session: Session, link: Link, queue: Outputs, record: Record) -> Option<Quick>
    ensures { QuickIs result «record» session link queue }
{
    let binding = link.binding?;
    if !fast::is_ready(session, link.reason, queue) {
        return None;
    }
    if !record.reason.fits() {
        return None;
    }
    match record.entry {
        Entry::Application => quick_live(session, binding),
        Entry::Peer(message) => quick_sequence(session, binding, message),
        Entry::Send => quick_send(session, binding),
        _ => None,
    }
}

/// The binding has just heard from the peer.
pub fn heard(mut link: Link, now: Instant) -> Link
    ensures { result ≡ link_heard now link }
{
    if let Some(binding) = &mut link.binding {
        binding.last_received = now;
    }
    link
}

/// The binding has just sent.
pub fn kept_alive(mut link: Link, now: Instant) -> Link
    ensures { result ≡ link_kept_alive now link }
{
    if let Some(binding) = &mut link.binding {
        binding.last_keepalive = now;
    }
    link
}
