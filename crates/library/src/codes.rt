//! The numbers that stand for enums: 01's where it has them. A number outside its list reads as the list's last, and `is_clean` refuses it before.
ghost use Rattle.std.specs.Prelude.{◌≡◌};
ghost use Rattle.rules.specs.Answers.{operation_number, status_number};
ghost use Rattle.library.specs.Numbers.{is_listed, flow_in, policy_in, termination_in, rejection_in, by_in, name_in, is_name_number};

use types::answers::{Operation, SessionStatus};
use types::config::RetransmitStallPolicy;
use types::ids::{FlowType, RetransmitRejectCode, TerminationCode};
use types::messages::MessageName;
use types::output::TerminatedBy;

/// Whether a code is one of 1 to `last`.
pub fn listed(code: u8, last: u8) -> bool
    ensures { result ≡ is_listed code last }
{
    (1..=last).contains(&code)
}

pub fn flow_in(code: u8) -> FlowType
    ensures { result ≡ flow_in code }
{
    FlowType::try_from(code).unwrap_or(FlowType::None)
}

pub fn policy_in(code: u8) -> RetransmitStallPolicy
    ensures { result ≡ policy_in code }
{
    RetransmitStallPolicy::try_from(code).unwrap_or(RetransmitStallPolicy::EventOnly)
}

pub fn termination_in(code: u8) -> TerminationCode
    ensures { result ≡ termination_in code }
{
    TerminationCode::try_from(code).unwrap_or(TerminationCode::ReRequestInProgress)
}

pub fn rejection_in(code: u8) -> RetransmitRejectCode
    ensures { result ≡ rejection_in code }
{
    RetransmitRejectCode::try_from(code).unwrap_or(RetransmitRejectCode::RequestLimitExceeded)
}

/// Who ended a binding: 1 this side, 2 the peer.
pub fn by_in(code: u8) -> TerminatedBy
    ensures { result ≡ by_in code }
{
    TerminatedBy::try_from(code).unwrap_or(TerminatedBy::Peer)
}

/// A message's name by the kind of its trace record.
pub fn name_in(kind: u8) -> MessageName
    ensures { result ≡ name_in kind }
{
    MessageName::try_from(kind).unwrap_or(MessageName::ApplicationMessage)
}

/// Whether a number names a message: 4, or 32 to 44.
pub fn is_name(kind: u8) -> bool
    ensures { result ≡ is_name_number kind }
{
    matches!(kind, 4 | 32..=44)
}

/// A local call by the kind of its trace record.
pub fn operation_out(operation: Operation) -> u64
    ensures { result ≡ operation_number operation }
{
    operation as u64
}

pub fn status_out(status: SessionStatus) -> u64
    ensures { result ≡ status_number status }
{
    status as u64
}
