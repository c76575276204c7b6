//! The numbers of 01's lists, of one byte each, and what they stand for.
ghost use Rattle.std.specs.Prelude.{◌≡◌};
ghost use Rattle.types.specs.Flows.{flow_number, policy_number, termination_number, rejection_number, by_number, name_number};
ghost use Rattle.types.specs.Codes.{flow_of, policy_of, termination_of, rejection_of, by_of, name_of_number};

use crate::config::RetransmitStallPolicy;
use crate::ids::{FlowType, RetransmitRejectCode, TerminationCode};
use crate::messages::MessageName;
use crate::output::TerminatedBy;

/// A code outside its list.
#[derive(Clone, Copy, PartialEq, Eq)]
pub struct Unlisted;

// A table for each enum: the numbers differ, and the gate takes no impl that a macro of ours writes.
impl TryFrom<u8> for FlowType {
    type Error = Unlisted;

    #[tactic(auto, unfolding(crate::specs::Codes::flow_of))]
    fn try_from(code: u8) -> Result<FlowType, Unlisted>
        ensures { result ≡ flow_of code }
    {
        match code {
            1 => Ok(FlowType::Recoverable),
            2 => Ok(FlowType::Idempotent),
            3 => Ok(FlowType::Unsequenced),
            4 => Ok(FlowType::None),
            _ => Err(Unlisted),
        }
    }
}

impl From<FlowType> for u8 {
    fn from(flow: FlowType) -> u8
        ensures { result ≡ flow_number flow }
    {
        flow as u8
    }
}

impl TryFrom<u8> for RetransmitStallPolicy {
    type Error = Unlisted;

    #[tactic(auto, unfolding(crate::specs::Codes::policy_of))]
    fn try_from(code: u8) -> Result<RetransmitStallPolicy, Unlisted>
        ensures { result ≡ policy_of code }
    {
        match code {
            1 => Ok(RetransmitStallPolicy::Terminate),
            2 => Ok(RetransmitStallPolicy::ReRequestAfterContextSwitch),
            3 => Ok(RetransmitStallPolicy::ReRequestAfterBatch),
            4 => Ok(RetransmitStallPolicy::EventOnly),
            _ => Err(Unlisted),
        }
    }
}

impl From<RetransmitStallPolicy> for u8 {
    fn from(policy: RetransmitStallPolicy) -> u8
        ensures { result ≡ policy_number policy }
    {
        policy as u8
    }
}

impl TryFrom<u8> for TerminationCode {
    type Error = Unlisted;

    #[tactic(auto, unfolding(crate::specs::Codes::termination_of))]
    fn try_from(code: u8) -> Result<TerminationCode, Unlisted>
        ensures { result ≡ termination_of code }
    {
        match code {
            1 => Ok(TerminationCode::Finished),
            2 => Ok(TerminationCode::UnspecifiedError),
            3 => Ok(TerminationCode::ReRequestOutOfBounds),
            4 => Ok(TerminationCode::ReRequestInProgress),
            _ => Err(Unlisted),
        }
    }
}

impl From<TerminationCode> for u8 {
    fn from(code: TerminationCode) -> u8
        ensures { result ≡ termination_number code }
    {
        code as u8
    }
}

impl TryFrom<u8> for RetransmitRejectCode {
    type Error = Unlisted;

    #[tactic(auto, unfolding(crate::specs::Codes::rejection_of))]
    fn try_from(code: u8) -> Result<RetransmitRejectCode, Unlisted>
        ensures { result ≡ rejection_of code }
    {
        match code {
            1 => Ok(RetransmitRejectCode::OutOfRange),
            2 => Ok(RetransmitRejectCode::InvalidSession),
            3 => Ok(RetransmitRejectCode::RequestLimitExceeded),
            _ => Err(Unlisted),
        }
    }
}

impl From<RetransmitRejectCode> for u8 {
    fn from(code: RetransmitRejectCode) -> u8
        ensures { result ≡ rejection_number code }
    {
        code as u8
    }
}

impl TryFrom<u8> for TerminatedBy {
    type Error = Unlisted;

    #[tactic(auto, unfolding(crate::specs::Codes::by_of))]
    fn try_from(code: u8) -> Result<TerminatedBy, Unlisted>
        ensures { result ≡ by_of code }
    {
        match code {
            1 => Ok(TerminatedBy::Local),
            2 => Ok(TerminatedBy::Peer),
            _ => Err(Unlisted),
        }
    }
}

impl From<TerminatedBy> for u8 {
    fn from(by: TerminatedBy) -> u8
        ensures { result ≡ by_number by }
    {
        by as u8
    }
}

impl TryFrom<u8> for MessageName {
    type Error = Unlisted;

    #[tactic(auto, unfolding(crate::specs::Codes::name_of_number))]
    fn try_from(code: u8) -> Result<MessageName, Unlisted>
        ensures { result ≡ name_of_number code }
    {
        match code {
            4 => Ok(MessageName::ApplicationMessage),
            32 => Ok(MessageName::Sequence),
            33 => Ok(MessageName::Context),
            34 => Ok(MessageName::UnsequencedHeartbeat),
            35 => Ok(MessageName::RetransmitRequest),
            36 => Ok(MessageName::Retransmission),
            37 => Ok(MessageName::RetransmitReject),
            38 => Ok(MessageName::Terminate),
            39 => Ok(MessageName::FinishedSending),
            40 => Ok(MessageName::FinishedReceiving),
            41 => Ok(MessageName::Applied),
            42 => Ok(MessageName::NotApplied),
            43 => Ok(MessageName::Topic),
            44 => Ok(MessageName::MessageTemplate),
            _ => Err(Unlisted),
        }
    }
}

impl From<MessageName> for u8 {
    fn from(name: MessageName) -> u8
        ensures { result ≡ name_number name }
    {
        name as u8
    }
}
