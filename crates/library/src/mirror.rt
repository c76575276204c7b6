//! The records as plain numbers, for callers in C or Rust: no enum crosses the border, a number of 01 or of `codes` stands for it.
// Flags beside values, kinds as numbers, lengths and places beside arrays, one struct a room: the C interface.
use queue::MAX_OUTPUTS;
use rings::gaps::{MAX_GAPS, MAX_RUNS};
use types::reasons::MAX_REASON_LEN;

/// A number that may be absent.
#[repr(C)]
#[derive(Clone, Copy, Default)]
pub struct Number {
    pub some: bool,
    pub it: u64,
}

/// The two halves of a session's id.
#[repr(C)]
#[derive(Clone, Copy)]
pub struct Id {
    pub low: u64,
    pub high: u64,
}

/// The first `len` bytes of a reason.
#[repr(C)]
#[derive(Clone, Copy)]
pub struct Text {
    pub bytes: [u8; MAX_REASON_LEN],
    pub len: usize,
}

/// The numbers from..end.
#[repr(C)]
#[derive(Clone, Copy)]
pub struct Range {
    pub from: u64,
    pub end: u64,
}

/// The ring of gaps.
#[repr(C)]
#[derive(Clone, Copy)]
pub struct Missing {
    pub slots: [Range; MAX_GAPS],
    pub head: usize,
    pub count: usize,
}

/// The ring of overflow runs.
#[repr(C)]
#[derive(Clone, Copy)]
pub struct Overflow {
    pub slots: [Range; MAX_RUNS],
    pub head: usize,
    pub count: usize,
}

/// What a session is opened with.
#[repr(C)]
#[derive(Clone, Copy)]
pub struct Settings {
    pub max_gap_len: u64,
    pub max_retransmit_count: u32,
    pub max_pending_gaps: u16,
    pub policy: u8,
    pub timeout: u64,
    pub grace: Number,
}

/// Our request in flight, if `some`.
#[repr(C)]
#[derive(Clone, Copy, Default)]
pub struct Asked {
    pub some: bool,
    pub interrupted: bool,
    pub batch_complete: bool,
    pub stall_reported: bool,
    pub count: u32,
    pub delivered: u32,
    pub stamp: u64,
    pub from: u64,
    pub last_progress: u64,
}

/// The batch being received, if `some`.
#[repr(C)]
#[derive(Clone, Copy, Default)]
pub struct Batch {
    pub some: bool,
    pub remaining: u32,
    pub next: u64,
}

/// The peer's request being served, if `some`.
#[repr(C)]
#[derive(Clone, Copy, Default)]
pub struct Served {
    pub some: bool,
    pub count: u32,
    pub sent: u32,
    pub stamp: u64,
    pub from: u64,
}

/// The peer's FinishedSending, if `some`.
#[repr(C)]
#[derive(Clone, Copy, Default)]
pub struct Finished {
    pub some: bool,
    pub receiving_sent: bool,
    pub end: Number,
}

/// The binding, if `some`. `phase` is 1 Established, 2 Terminating with `sent_at` and `code`, 3 Closing with `deadline`.
#[repr(C)]
#[derive(Clone, Copy)]
pub struct Bond {
    pub some: bool,
    pub phase: u8,
    pub code: u8,
    pub in_sequence: bool,
    pub sent_at: u64,
    pub deadline: Number,
    pub local_keepalive: u64,
    pub remote_keepalive: u64,
    pub last_keepalive: u64,
    pub last_received: u64,
}

/// An output: `kind` says which (see `outputs`), and which of the fields speak.
#[repr(C)]
#[derive(Clone, Copy)]
pub struct Out {
    pub kind: u8,
    pub code: u8,
    pub by: u8,
    pub reason: u8,
    pub count: u32,
    pub id: Id,
    pub stamp: u64,
    pub number: u64,
    pub length: u64,
    pub seq: Number,
    pub text: Text,
}

/// The output queue.
#[repr(C)]
#[derive(Clone, Copy)]
pub struct Queue {
    pub slots: [Out; MAX_OUTPUTS],
    pub head: usize,
    pub count: usize,
    pub closing: bool,
}

/// A session, its binding, the reason of our Terminate and the output queue.
#[repr(C)]
#[derive(Clone, Copy)]
pub struct Record {
    pub id: Id,
    pub local_flow: u8,
    pub remote_flow: u8,
    pub start_pending: bool,
    pub awaiting_resume: bool,
    pub finalized: bool,
    pub config: Settings,
    pub outbound_next: u64,
    pub inbound_next: Number,
    pub missing: Missing,
    pub overflow: Overflow,
    pub asked: Asked,
    pub batch: Batch,
    pub served: Served,
    pub finished: Finished,
    pub bond: Bond,
    pub reason: Text,
    pub queue: Queue,
}

/// A call. `kind` is that of the trace record (01, "Trace program"), which also says which of the fields speak.
#[repr(C)]
#[derive(Clone, Copy)]
pub struct Request {
    pub kind: u8,
    pub code: u8,
    pub count: u32,
    pub now: u64,
    pub stamp: u64,
    pub id: Id,
    pub message_stamp: u64,
    pub number: u64,
    pub seq: Number,
    pub local_keepalive: u64,
    pub remote_keepalive: u64,
    pub reason: Text,
}

/// What `fixp_open` takes.
#[repr(C)]
#[derive(Clone, Copy)]
pub struct Opening {
    pub id: Id,
    pub local_flow: u8,
    pub remote_flow: u8,
    pub config: Settings,
}

/// An answer: 1 ok, 2 accept, 3 replay, 4 discard, 5 sent, 6 batch, 7 refused (01, "Trace program"), the number that it has, if it has one, and what a refusal carries.
#[repr(C)]
#[derive(Clone, Copy)]
pub struct Reply {
    pub kind: u8,
    pub refusal: u8,
    pub number: Number,
    pub first: u64,
    pub second: u64,
}

/// What a call leaves, and its answer.
#[repr(C)]
#[derive(Clone, Copy)]
pub struct Done {
    pub record: Record,
    pub reply: Reply,
}
