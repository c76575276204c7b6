//! The library's calls under their C names: each is the call of `library` that has its name.
#![tactic(auto)]

ghost use Rattle.std.specs.Prelude.{◌≡◌};
ghost use Rattle.library.specs.Exported.{CallIs, OpenOut, deadline_reply, ClosedIs};

use library::mirror::{Done, Opening, Record, Reply, Request};

/// A call on a record. A number outside its list is refused: 1 in a record, then 5 in a request.
#[unsafe(no_mangle)]
pub extern "C" fn fixp_call(record: Record, request: Request) -> Done
    ensures { CallIs «record» request result }
{
    library::fixp_call(record, request)
}

/// A new session. Flows and policy outside their lists are refused by 2, as a configuration out of range is.
#[unsafe(no_mangle)]
pub extern "C" fn fixp_open(opening: Opening) -> Done
    ensures { OpenOut opening result }
{
    library::fixp_open(opening)
}

/// The next instant with work for a timeout, as the number of an ok: 1. Unbound there is none.
#[unsafe(no_mangle)]
pub extern "C" fn fixp_next_deadline(record: Record) -> Reply
    ensures { result ≡ deadline_reply «record» }
{
    library::fixp_next_deadline(record)
}

/// The host reports the transport closed: 1.
#[unsafe(no_mangle)]
pub extern "C" fn fixp_transport_closed(record: Record) -> Done
    ensures { ClosedIs «record» result }
{
    library::fixp_transport_closed(record)
}
