//! A trace's records run one after another, a line for each (01, "Trace program").
#![tactic(auto)]

ghost use Rattle.std.specs.Prelude.{◌≡◌, ◌≤◌, ◌<◌, ◌+◌, ◌-◌, length, ◌++◌, leb, ltb, IfOk, if◌then◌else◌};
ghost use Rattle.types.specs.States.{link_status};
ghost use Rattle.rules.specs.Queries.{next_inbound_seq};
ghost use Rattle.queue.specs.View.{OutsWf};
ghost use Rattle.session.specs.View.{view, SessWf};
ghost use Rattle.calls.specs.View.{world_of};
ghost use Rattle.trace.specs.Text.{line_text, first_text, end_text, stop_text, max_line, Adds};
ghost use Rattle.replay.specs.Run.{lines_from, lines_of, records, records_from, max_input, max_output, Prints, TraceIs};
ghost use Rattle.replay.specs.Stepped.{Stepped};

use crate::missing::missing_in;
use crate::ordinary::{Quick, heard, kept_alive, quick_of};
use calls::Called;
use queue::Outputs;
use session::Session;
use std::io::{self, Read};
use trace::reader::Trace;
use trace::records::{Entry, Record};
use trace::text::RecordLine;
use types::answers::{Delivery, Refusal, SessionStatus, Verdict};
use types::binding::Link;
use types::ids::SeqNum;

pub mod missing;
pub mod ordinary;

/// The longest input in bytes.
const MAX_INPUT: usize = 65536;

/// Room for every line of the longest input: a record has at least 20 bytes and a line at most 144. A shorter buffer is not written.
const MAX_OUTPUT: usize = 524288;

fn status_of(link: Link) -> SessionStatus
    ensures { result ≡ link_status link.binding }
{
    match link.binding {
        Some(binding) => binding.status(),
        None => SessionStatus::Unbound,
    }
}

/// The line of a record: where session and binding stand after it.
fn line_of(
    out: &mut [u8],
    at: usize,
    index: u64,
    answer: Result<Verdict, Refusal>,
    session: Session,
    link: Link,
    outputs: u64,
) -> usize
    requires { at + max_line ≤ length out.old }
    ensures { Adds out.old at (line_text index answer (link_status link.binding) (next_inbound_seq (view session)) (length (view session).gaps.missing) outputs) max_line out.new result }
{
    trace::text::record_line(
        out,
        at,
        RecordLine {
            index,
            answer,
            status: status_of(link),
            expected: session.next_inbound_seq(),
            gaps: session.gaps.missing.len() as u64,
            outputs,
        },
    )
}

/// Where a run stands between two records.
#[derive(Clone, Copy)]
struct Held {
    session: Session,
    link: Link,
    queue: Outputs,
}

/// What a record is answered, and how many outputs it has.
#[derive(Clone, Copy)]
struct Told {
    answer: Result<Verdict, Refusal>,
    outputs: u64,
}

impl Held {
    /// The call of a record. The queue is emptied behind it.
    fn step(&mut self, record: Record) -> Told
        requires session_in_order { SessWf self.old.session }
        requires queue_in_order { OutsWf self.old.queue }
        ensures { Stepped «record» (world_of self.old.session self.old.link self.old.queue) self.new.session self.new.link self.new.queue result.answer result.outputs }
    {
        let Some(quick) = quick_of(self.session, self.link, self.queue, record) else {
            return self.plain_step(record);
        };
        match quick {
            Quick::Live(seq) => {
                self.session.inbound_next = Some(SeqNum(seq.0 + 1));
                self.session.start_pending = false;
                self.link = heard(self.link, record.now);
                Told {
                    answer: Ok(Verdict::Delivered(Delivery::Accept {
                        seq: Some(seq),
                        retransmitted: false,
                    })),
                    outputs: 0,
                }
            }
            Quick::Same => {
                self.session.awaiting_resume = false;
                self.link = heard(self.link, record.now);
                Told {
                    answer: Ok(Verdict::Done),
                    outputs: 0,
                }
            }
            Quick::Sent(seq) => {
                self.session.outbound_next = SeqNum(seq.0 + 1);
                self.link = kept_alive(self.link, record.now);
                Told {
                    answer: Ok(Verdict::Sent(Some(seq))),
                    outputs: 0,
                }
            }
        }
    }

    /// The call of any record.
    fn plain_step(&mut self, record: Record) -> Told
        requires session_in_order { SessWf self.old.session }
        requires queue_in_order { OutsWf self.old.queue }
        ensures { Stepped «record» (world_of self.old.session self.old.link self.old.queue) self.new.session self.new.link self.new.queue result.answer result.outputs }
    {
        let handed = dispatch::run(
            &mut self.queue,
            self.session,
            self.link,
            record.entry,
            record.now,
            record.stamp,
            record.reason,
        );
        self.session = handed.session;
        self.link = handed.link;
        let outputs = self.queue.len() as u64;
        self.queue.count = 0;
        Told {
            answer: handed.answer,
            outputs,
        }
    }
}

/// The records behind an open: their lines from `first` on, and the last line.
fn run(mut records: Trace, opened: Called, out: &mut [u8], first: usize) -> usize
    requires in_bounds { records.at ≤ length records.bytes.now }
    requires input_len { length records.bytes.now ≤ max_input }
    requires behind_an_open { 20 ≤ records.at }
    requires in_order { SessWf opened.session × OutsWf opened.queue }
    requires first_lines { first ≤ 288 }
    requires room { max_output ≤ length out.old }
    ensures { Prints out.old first (lines_from 1 (world_of opened.session opened.link opened.queue) (records_from (length records.entry.bytes.now - 1) records.entry.bytes.now records.entry.at)) out.new result }
{
    let mut held = Held {
        session: opened.session,
        link: opened.link,
        queue: opened.queue,
    };
    let mut wrote = first;
    let mut index: u64 = 1;
    while let Some(bytes) = records.next_record() {
        let record = trace::records::read_record(bytes);
        if !dispatch::is_call(record.entry) {
            return trace::text::stop_line(out, wrote, index);
        }
        let told = held.step(record);
        wrote = line_of(
            out,
            wrote,
            index,
            told.answer,
            held.session,
            held.link,
            told.outputs,
        );
        index += 1;
    }
    trace::text::end_line(out, wrote, missing_in(held.session.gaps))
}

/// The records behind a refused open: there must be none.
fn run_refused(records: Trace, out: &mut [u8], at: usize) -> usize
    requires { at + max_line ≤ length out.old }
    ensures { Adds out.old at (if ltb records.entry.at (length records.entry.bytes.now) then stop_text 1 else end_text 0) max_line out.new result }
{
    if records.at < records.bytes.len() {
        return trace::text::stop_line(out, at, 1);
    }
    trace::text::end_line(out, at, 0)
}

/// A trace that is not empty begins with an open.
fn run_from_open(s: &[u8], out: &mut [u8], first: usize) -> usize
    requires input_len { length s.now ≤ max_input }
    requires first_line { first ≤ max_line }
    requires room { max_output ≤ length out.old }
    ensures { Prints out.old first (lines_of (records s.now)) out.new result }
{
    let mut records = Trace::new(s);
    let Some(bytes) = records.next_record() else {
        return trace::text::end_line(out, first, 0);
    };
    let Entry::Open {
        id,
        local_flow,
        remote_flow,
        config,
    } = trace::records::read_record(bytes).entry
    else {
        return trace::text::stop_line(out, first, 0);
    };
    let opened = calls::open(id, local_flow, remote_flow, config);
    if opened.answer.is_err() {
        let next = trace::text::record_line(
            out,
            first,
            RecordLine {
                index: 0,
                answer: opened.answer,
                status: SessionStatus::Unbound,
                expected: None,
                gaps: 0,
                outputs: 0,
            },
        );
        return run_refused(records, out, next);
    }
    let next = line_of(out, first, 0, opened.answer, opened.session, opened.link, 0);
    run(records, opened, out, next)
}

/// The text of a trace of at most 65,536 bytes.
fn run_whole(s: &[u8], out: &mut [u8]) -> usize
    requires s_len_bound { length s.now ≤ max_input }
    requires max_output_in_bounds { max_output ≤ length out.old }
    ensures { Prints out.old 0 (first_text ++ lines_of (records s.now)) out.new result }
{
    let first = trace::text::first_line(out, 0);
    run_from_open(s, out, first)
}

/// Runs a whole trace: its lines stand in the buffer, as many bytes as it says. A buffer of under 524,288 bytes stays as it is.
pub fn run_trace(s: &[u8], out: &mut [u8]) -> usize
    ensures { TraceIs (leb max_output (length out.old)) s.now out.old out.new result }
{
    if out.len() < MAX_OUTPUT {
        return 0;
    }
    if s.len() > MAX_INPUT {
        return trace::text::stop_line(out, 0, 0);
    }
    run_whole(s, out)
}

/// Room for the lines, in a function of its own: a proof that sees the zeros counts them one by one.
fn room() -> [u8; MAX_OUTPUT] {
    [0u8; MAX_OUTPUT]
}

/// The first `n` bytes are written.
fn write_out<R: Print>(rt: &R, out: &[u8], n: usize) -> io::Result<()>
    requires { n ≤ length out.now }
{
    rt.write_all(&out[..n])
}

/// Runs a whole trace and writes its lines. A write that fails is the only error; some of the lines may be written then.
pub fn print_trace<R: Print>(rt: &R, s: &[u8]) -> io::Result<()> {
    let mut out = room();
    let n = run_trace(s, &mut out);
    write_out(rt, &out, n)
}

/// Reads until the buffer is full or the input ends: how many bytes stand at its start. A read that fails is the only error; what was read before
/// it stands in the buffer, which has its length as ever.
pub fn read_full<R: Read>(reader: &mut R, buf: &mut [u8]) -> io::Result<usize>
    ensures within { IfOk result (λ n. n ≤ length buf.new) }
    ensures length_kept { length buf.new ≡ length buf.old }
{
    let mut done = 0;
    // No `for`: each turn goes on by as much as was read.
    while done < buf.len() {
        let n = reader.read(&mut buf[done..])?;
        if n == 0 {
            return Ok(done);
        }
        done += n;
    }
    Ok(done)
}
