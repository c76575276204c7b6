//! What a record asks for becomes a call: the one place where the trace program and the library make calls, each with the queue lent.
#![tactic(auto)]

ghost use Rattle.std.specs.Prelude.{◌≡◌};
ghost use Rattle.calls.specs.View.{Answered};
ghost use Rattle.dispatch.specs.Entries.{call_of, is_call};
ghost use Rattle.lent.specs.View.{called};

use lent::Handed;
use queue::Outputs;
use session::Session;
use trace::records::Entry;
use types::binding::Link;
use types::ids::{Instant, Nanotime};
use types::reasons::Reason;

/// Whether an entry is a call on a session: neither an open nor malformed.
pub fn is_call(entry: Entry) -> bool
    ensures { result ≡ is_call entry }
{
    !matches!(entry, Entry::Open { .. } | Entry::Malformed)
}

/// The call of an entry. An open or a malformed one is no call on a session: its caller has turned it away, and it releases.
pub fn run(
    queue: &mut Outputs,
    session: Session,
    link: Link,
    entry: Entry,
    now: Instant,
    stamp: Nanotime,
    text: Reason,
) -> Handed
    ensures { Answered (call_of entry now stamp text) (called result queue.new) session link queue.old }
{
    match entry {
        Entry::Open { .. } | Entry::Release | Entry::Malformed => {
            lent::release(queue, session, link)
        }
        Entry::Bind {
            local_keepalive,
            remote_keepalive,
            next,
        } => lent::bind(
            queue,
            session,
            link,
            now,
            stamp,
            local_keepalive,
            remote_keepalive,
            next,
        ),
        Entry::Application => lent::on_application(queue, session, link, now, stamp),
        Entry::Peer(message) => lent::on_peer(queue, session, link, now, stamp, message, text),
        Entry::Send => lent::send_application(queue, session, link, now),
        Entry::Terminate(code) => lent::terminate(queue, session, link, now, code, text),
        Entry::Retransmit(count) => lent::retransmit(queue, session, link, now, count),
        Entry::Reject(code) => lent::reject_retransmit_request(queue, session, link, code, text),
        Entry::End => lent::end_retransmission(queue, session, link),
        Entry::Timeout => lent::on_timeout(queue, session, link, now, stamp),
    }
}
