//! The configuration of a session (config.rs, as 01 fixes it).

/// The largest `max_pending_gaps` (01, refusal 2).
pub const MAX_PENDING: u16 = 64;

/// What to do with a stalled request; 01 numbers them 1 to 4.
#[derive(Clone, Copy)]
pub enum RetransmitStallPolicy {
    Terminate = 1,
    ReRequestAfterContextSwitch = 2,
    ReRequestAfterBatch = 3,
    EventOnly = 4,
}

/// What a session is opened with. Refusal 2 has the ranges. Durations are nanoseconds.
#[derive(Clone, Copy)]
pub struct FixpConfig {
    pub max_gap_len: u64,
    pub max_retransmit_count: u32,
    pub max_pending_gaps: u16,
    pub retransmit_timeout: u64,
    pub peer_silence_grace: Option<u64>,
    pub retransmit_stall_policy: RetransmitStallPolicy,
}
