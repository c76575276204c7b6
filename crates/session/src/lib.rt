//! The session and its steps (session.rs): a file for each group of 01's port order.
#![tactic(auto)]

ghost use Rattle.std.specs.Prelude.{◌≡◌, [], ◌≤◌};
ghost use Rattle.queue.specs.View.{queue_of};
ghost use Rattle.rules.specs.Names.bound as bind;
ghost use Rattle.rules.specs.State.{did, stays, ends};
ghost use Rattle.rules.specs.Binding.{new_session};
ghost use Rattle.session.specs.View.{view, SessIs, StepIs, with_answer, first_of, InOrder};

use queue::Outputs;
use rings::gaps::Gaps;
use types::answers::{Refusal, Verdict};
use types::binding::{Binding, Bound};
use types::config::FixpConfig;
use types::ids::{FlowType, SeqNum, SessionId};
use types::parts::{Outstanding, PeerFinished, Provider, Replay};

pub mod asking;
pub mod bind;
pub mod deadlines;
pub mod ending;
pub mod finishing;
pub mod local;
pub mod numbering;
pub mod peer;
pub mod queries;
pub mod serving;

// Order is no invariant of the type: a session that a host hands in may be in any state (refusal 1). So a step asks for one fact, `Ready` or `InOrder`,
// and its methods stay the session's, as in session.rs: a type that held the fact would take every field a name further off.
/// The logical session: identity, flows, configuration and sequence state (FIXP 3.4.3).
#[derive(Clone, Copy)]
pub struct Session {
    pub id: SessionId,
    pub local_flow: FlowType,
    pub remote_flow: FlowType,
    pub config: FixpConfig,
    /// Number of this side's next application message.
    pub outbound_next: SeqNum,
    /// Number of the peer's next live application message, on a sequenced flow.
    pub inbound_next: Option<SeqNum>,
    /// Nothing has fixed yet where the peer's numbers stand.
    pub start_pending: bool,
    pub gaps: Gaps,
    pub outstanding: Option<Outstanding>,
    pub replay: Option<Replay>,
    /// A Retransmission has switched the context and no NextSeqNo has switched it back (FIXP 4.6.2.2).
    pub awaiting_resume: bool,
    pub provider: Option<Provider>,
    pub peer_finished: Option<PeerFinished>,
    /// The logical session is over (FIXP 4.7.2).
    pub finalized: bool,
}

// Session, binding and queue are three arguments, and `now` and `stamp` two, as session.rs passes them.
/// What a step leaves: session, binding and queue, whether the binding stands, and the answer.
#[derive(Clone, Copy)]
pub struct Step {
    pub session: Session,
    pub binding: Binding,
    pub queue: Outputs,
    pub bound: Bound,
    pub answer: Result<Verdict, Refusal>,
}

impl Step {
    /// The same step with another answer.
    fn answered(mut self, answer: Result<Verdict, Refusal>) -> Step
        ensures { result ≡ with_answer answer self }
    {
        self.answer = answer;
        self
    }
}

impl Session {
    /// A sequenced peer is expected to start at 1 until something says where it stands (FIXP 5.1.1).
    pub fn new(
        id: SessionId,
        local_flow: FlowType,
        remote_flow: FlowType,
        config: FixpConfig,
    ) -> Session
        requires { config.max_pending_gaps ≤ 64 }
        ensures { SessIs result (new_session id local_flow remote_flow config) }
    {
        let gaps = Gaps::new();
        let first = first_of(remote_flow);
        let pending = remote_flow.is_sequenced();
        Session {
            id,
            local_flow,
            remote_flow,
            config,
            outbound_next: SeqNum(1),
            inbound_next: first,
            start_pending: pending,
            gaps,
            outstanding: None,
            replay: None,
            awaiting_resume: false,
            provider: None,
            peer_finished: None,
            finalized: false,
        }
    }

    /// The binding stands, and this is the answer.
    fn reply(self, binding: Binding, queue: Outputs, answer: Result<Verdict, Refusal>) -> Step
        requires { InOrder self queue }
        ensures { StepIs result (queue_of queue) (did (view self) binding [] bind.Stay answer) }
    {
        Step {
            session: self,
            binding,
            queue,
            bound: Bound::Stay,
            answer: answer,
        }
    }

    /// The binding stands.
    fn stay(self, binding: Binding, queue: Outputs) -> Step
        requires { InOrder self queue }
        ensures { StepIs result (queue_of queue) (stays (view self) binding []) }
    {
        self.reply(binding, queue, Ok(Verdict::Done))
    }

    /// The binding is over.
    fn unbind(self, binding: Binding, queue: Outputs) -> Step
        requires { InOrder self queue }
        ensures { StepIs result (queue_of queue) (ends (view self) binding []) }
    {
        Step {
            session: self,
            binding,
            queue,
            bound: Bound::Unbind,
            answer: Ok(Verdict::Done),
        }
    }
}

/// The number that a new session expects of a peer.
fn first_of(remote_flow: FlowType) -> Option<SeqNum>
    ensures { result ≡ first_of remote_flow }
{
    if remote_flow.is_sequenced() {
        return Some(SeqNum(1));
    }
    None
}
