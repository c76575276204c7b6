//! What calls cost, for tools/bench: loops over a record that is held in place. A call is made by its ordinary form, which stores the few
//! fields that change, and where it is not an ordinary one by `calls`: with that way out the compiler can't make one turn of all of them.
#![tactic(auto)]

ghost use Rattle.std.specs.Prelude.{◌<◌};

use calls::Called;
use queue::Outputs;
use rings::gaps::{MAX_GAPS, MAX_RUNS};
use session::Session;
use types::binding::{Binding, Link};
use types::config::{FixpConfig, RetransmitStallPolicy};
use types::ids::{FlowType, Instant, Nanotime, SeqNum, SessionId};
use types::messages::{PeerMessage, Retransmission, RetransmitRequest, Sequence, SessionMessage};
use types::output::{Event, Output, Said};
use types::parts::{Outstanding, Provider, Replay};
use types::reasons::Reason;

/// Every duration: no timer comes due.
const LONG: u64 = 1000000000000;

/// The stamp of every call that needs none of its own.
const STAMP: Nanotime = Nanotime(7);

/// A bound record, its link taken apart.
#[derive(Clone, Copy)]
pub struct Held {
    pub session: Session,
    pub binding: Binding,
    pub reason: Reason,
    pub queue: Outputs,
}

/// What a call left, its outputs taken off: none where it is not bound.
fn hold(called: Called) -> Option<Held> {
    let mut queue = called.queue;
    queue.count = 0;
    Some(Held {
        session: called.session,
        binding: called.link.binding?,
        reason: called.link.reason,
        queue,
    })
}

impl Held {
    fn is_ready(&self) -> bool {
        fast::is_ready(self.session, self.reason, self.queue)
    }

    fn link(&self) -> Link {
        Link {
            binding: Some(self.binding),
            reason: self.reason,
        }
    }

    /// Goes on with what the plain call leaves.
    // A function of its own: where the call stands in a loop, what it leaves has room there that is cleared at each turn, 70 ns. Never inlined: then
    // the record's fields stay where they are, and a send takes 2 ns less.
    #[cold]
    #[inline(never)]
    fn plain<F: FnOnce(Held) -> Called>(&mut self, call: F) -> Option<()>
        requires { F.pre call self.old }
    {
        *self = hold(call(*self))?;
        Some(())
    }

    /// An output at a place of the queue, which holds none that counts.
    fn say(&mut self, at: usize, said: Said)
        requires { at < 32 }
    {
        self.queue.slots[at] = Output::new(said, 0, Reason::none());
    }

    /// A live message.
    fn live(&mut self, now: Instant) -> Option<()> {
        let Some(seq) = fast::live(self.session, self.binding) else {
            return self.plain(|held| calls::on_application(
                held.session,
                held.link(),
                held.queue,
                now,
                STAMP,
            ));
        };
        self.session.inbound_next = Some(SeqNum(seq.0.checked_add(1)?));
        self.session.start_pending = false;
        self.binding.last_received = now;
        Some(())
    }

    /// An announced number.
    fn same(&mut self, now: Instant, next_seq_no: SeqNum) -> Option<()> {
        if !self.is_ready() || !fast::same(self.session, self.binding, next_seq_no) {
            return self.plain(|held| calls::on_peer(
                held.session,
                held.link(),
                held.queue,
                now,
                STAMP,
                PeerMessage::Sequence(Sequence { next_seq_no }),
                Reason::none(),
            ));
        }
        self.session.awaiting_resume = false;
        self.binding.last_received = now;
        Some(())
    }

    /// A message sent.
    fn send(&mut self, now: Instant) -> Option<()> {
        if !self.is_ready() || !fast::sent(self.session, self.binding) {
            return self.plain(|held| calls::send_application(
                held.session,
                held.link(),
                held.queue,
                now,
            ));
        }
        self.session.outbound_next = SeqNum(self.session.outbound_next.0.checked_add(1)?);
        self.binding.last_keepalive = now;
        Some(())
    }

    /// A timeout.
    fn idle(&mut self, now: Instant) -> Option<()> {
        if self.is_ready() && fast::idle(self.session, self.binding, now) {
            return Some(());
        }
        self.plain(|held| calls::on_timeout(held.session, held.link(), held.queue, now, STAMP))
    }

    /// A Sequence that leaves out one message, which is asked for.
    fn lose(&mut self, now: Instant, stamp: Nanotime, next: SeqNum) -> Option<SeqNum> {
        if !self.is_ready() {
            return None;
        }
        let gap = fast::lost(self.session, self.binding, next, stamp)?;
        let from = gap.from;
        *self
            .session
            .gaps
            .missing
            .slots
            .get_mut(self.session.gaps.missing.head)? = gap;
        self.session.gaps.missing.count = 1;
        self.session.inbound_next = Some(next);
        self.session.awaiting_resume = false;
        self.session.outstanding = Some(Outstanding {
            timestamp: stamp,
            from,
            count: 1,
            delivered: 0,
            last_progress: now,
            interrupted: false,
            batch_complete: false,
            stall_reported: false,
        });
        self.binding.last_received = now;
        self.binding.in_sequence = false;
        self.say(0, Said::Event(Event::SequenceGap { from, count: 1 }));
        self.say(
            1,
            Said::Send(SessionMessage::RetransmitRequest(RetransmitRequest {
                session_id: self.session.id,
                timestamp: stamp,
                from_seq_no: from,
                count: 1,
            })),
        );
        self.queue.head = 0;
        self.queue.count = 0;
        Some(from)
    }

    /// The header of the batch that answers.
    fn begin(&mut self, now: Instant, stamp: Nanotime, from: SeqNum) -> Option<()> {
        if !self.is_ready() {
            return None;
        }
        let header = Retransmission {
            session_id: self.session.id,
            request_timestamp: stamp,
            next_seq_no: from,
            count: 1,
        };
        let mut begun = fast::header(self.session, self.binding, header)?;
        begun.last_progress = now;
        begun.interrupted = false;
        begun.batch_complete = false;
        begun.stall_reported = false;
        self.session.outstanding = Some(begun);
        self.session.awaiting_resume = true;
        self.session.replay = Some(Replay {
            next: from,
            remaining: 1,
        });
        self.binding.last_received = now;
        Some(())
    }

    /// The one message of the batch.
    fn recover(&mut self, now: Instant) -> Option<()> {
        if !self.is_ready() {
            return None;
        }
        fast::recovered(self.session, self.binding)?;
        self.session.gaps.missing.count = 0;
        self.session.outstanding = None;
        self.session.replay = None;
        self.binding.last_received = now;
        self.say(0, Said::Event(Event::RecoveryComplete));
        self.queue.count = 0;
        Some(())
    }

    /// The Sequence behind the batch.
    fn resume(&mut self, now: Instant, next: SeqNum) -> Option<()> {
        if !self.is_ready() || !fast::same(self.session, self.binding, next) {
            return None;
        }
        self.session.awaiting_resume = false;
        self.binding.last_received = now;
        Some(())
    }

    /// A request of the peer.
    fn asked(&mut self, now: Instant, stamp: Nanotime) -> Option<()> {
        let request = RetransmitRequest {
            session_id: self.session.id,
            timestamp: stamp,
            from_seq_no: SeqNum(3),
            count: 2,
        };
        if !self.is_ready() || !fast::asked(self.session, self.binding, request) {
            return self.plain(|held| calls::on_peer(
                held.session,
                held.link(),
                held.queue,
                now,
                STAMP,
                PeerMessage::RetransmitRequest(request),
                Reason::none(),
            ));
        }
        let from = request.from_seq_no;
        self.session.provider = Some(Provider {
            request_timestamp: request.timestamp,
            from,
            count: 2,
            sent: 0,
        });
        self.binding.last_received = now;
        self.say(
            0,
            Said::Event(Event::RetransmitRequested { from, count: 2 }),
        );
        self.queue.head = 0;
        Some(())
    }

    /// The batch that answers it: the stamp answered, or 0 where the plain call was made.
    fn serve(&mut self, now: Instant) -> Option<u64> {
        if !self.is_ready() {
            return None;
        }
        let Some(provider) = fast::batch(self.session, self.binding, 2) else {
            self.plain(|held| calls::retransmit(held.session, held.link(), held.queue, now, 2))?;
            return Some(0);
        };
        self.say(
            0,
            Said::Send(SessionMessage::Retransmission(Retransmission {
                session_id: self.session.id,
                request_timestamp: provider.request_timestamp,
                next_seq_no: provider.from,
                count: 2,
            })),
        );
        self.session.provider = None;
        self.binding.in_sequence = false;
        self.binding.last_keepalive = now;
        Some(provider.request_timestamp.0)
    }
}

/// The number expected next.
fn expected(session: Session) -> u64 {
    session.next_inbound_seq().map_or(0, |seq| seq.0)
}

/// The number behind it.
fn following(session: Session) -> SeqNum {
    SeqNum(expected(session).checked_add(1).unwrap_or(0))
}

/// A bound session, both sides Recoverable, the peer expected at 1.
fn bound() -> Called {
    let config = FixpConfig {
        max_gap_len: 100,
        max_retransmit_count: 10,
        max_pending_gaps: 64,
        retransmit_timeout: LONG,
        peer_silence_grace: None,
        retransmit_stall_policy: RetransmitStallPolicy::EventOnly,
    };
    let opened = calls::open(
        SessionId(3, 3),
        FlowType::Recoverable,
        FlowType::Recoverable,
        config,
    );
    calls::bind(
        opened.session,
        opened.link,
        opened.queue,
        Instant(0),
        Nanotime(0),
        LONG,
        LONG,
        Some(SeqNum(1)),
    )
}

/// A message, and a Sequence that leaves out the one behind it.
fn lost_again(called: Called) -> Called {
    let heard = calls::on_application(
        called.session,
        called.link,
        Outputs::new(),
        Instant(0),
        STAMP,
    );
    calls::on_peer(
        heard.session,
        heard.link,
        Outputs::new(),
        Instant(0),
        STAMP,
        PeerMessage::Sequence(Sequence {
            next_seq_no: following(heard.session),
        }),
        Reason::none(),
    )
}

fn bound_again(called: Called) -> Called {
    calls::bind(
        called.session,
        called.link,
        Outputs::new(),
        Instant(0),
        STAMP,
        LONG,
        LONG,
        Some(SeqNum(expected(called.session))),
    )
}

/// The record with so many gaps, a message between each two, and its queue empty.
fn with_gaps(gaps: u64) -> Called {
    let mut called = bound();
    for _ in 0..gaps.min(64) {
        called = lost_again(called);
    }
    called
}

/// The record with so many overflow runs too: a message, a gap over the limit, which unbinds, and a bind, over and over. The first such gap
/// is held by itself and makes no run.
fn with_runs(gaps: u64, runs: u64) -> Called {
    let mut called = with_gaps(gaps);
    if runs > 0 {
        called = bound_again(lost_again(called));
    }
    for _ in 0..runs.min(256) {
        called = bound_again(lost_again(called));
    }
    called
}

/// The record after so many sends.
fn start(gaps: u64, runs: u64, sends: u64) -> Option<Held> {
    let mut called = with_runs(gaps, runs);
    for _ in 0..sends.min(100) {
        called = calls::send_application(called.session, called.link, Outputs::new(), Instant(0));
    }
    hold(called)
}

/// How many gaps and runs there are: a thousand for each gap.
#[unsafe(no_mangle)]
pub extern "C" fn fixp_bench_lists(gaps: u64, runs: u64) -> u64 {
    let lists = with_runs(gaps, runs).session.gaps;
    if lists.missing.count > MAX_GAPS || lists.overflow_received.count > MAX_RUNS {
        return 0;
    }
    1000 * lists.missing.count as u64 + lists.overflow_received.count as u64
}

fn live(turns: u64, gaps: u64, runs: u64) -> Option<u64> {
    let mut held = start(gaps, runs, 0)?;
    for i in 0..turns {
        if !held.is_ready() {
            return None;
        }
        held.live(Instant(i))?;
    }
    Some(expected(held.session))
}

/// Live numbering, behind so many gaps and runs: the number expected next.
#[unsafe(no_mangle)]
pub extern "C" fn fixp_bench_live(turns: u64, gaps: u64, runs: u64) -> u64 {
    live(turns, gaps, runs).unwrap_or(0)
}

fn plain(turns: u64, gaps: u64, runs: u64) -> Option<u64> {
    let held = start(gaps, runs, 0)?;
    let mut session = held.session;
    let mut link = held.link();
    let mut queue = held.queue;
    for i in 0..turns {
        let called = calls::on_application(session, link, queue, Instant(i), STAMP);
        session = called.session;
        link = called.link;
        queue = called.queue;
        queue.count = 0;
    }
    Some(expected(session))
}

/// Live numbering by the plain call alone, behind so many gaps and runs: the number expected next.
#[unsafe(no_mangle)]
pub extern "C" fn fixp_bench_plain(turns: u64, gaps: u64, runs: u64) -> u64 {
    plain(turns, gaps, runs).unwrap_or(0)
}

/// A whole trace, its lines in the buffer: how many bytes.
#[unsafe(no_mangle)]
pub extern "C" fn fixp_bench_trace(trace: &[u8], out: &mut [u8]) -> usize {
    replay::run_trace(trace, out)
}

fn same(turns: u64, next: u64) -> Option<u64> {
    let mut held = start(0, 0, 0)?;
    for i in 0..turns {
        held.same(Instant(i), SeqNum(next))?;
    }
    Some(expected(held.session))
}

/// A Sequence of the expected number: the number expected next.
#[unsafe(no_mangle)]
pub extern "C" fn fixp_bench_same(turns: u64, next: u64) -> u64 {
    same(turns, next).unwrap_or(0)
}

fn send(turns: u64) -> Option<u64> {
    let mut held = start(0, 0, 1)?;
    for i in 0..turns {
        held.send(Instant(i))?;
    }
    Some(held.session.outbound_next.0)
}

/// Sends: the number sent next.
#[unsafe(no_mangle)]
pub extern "C" fn fixp_bench_send(turns: u64) -> u64 {
    send(turns).unwrap_or(0)
}

fn idle(turns: u64) -> Option<u64> {
    let mut held = start(0, 0, 0)?;
    for i in 0..turns {
        held.idle(Instant(i % 1000))?;
    }
    Some(expected(held.session))
}

/// Timeouts with nothing due: the number expected next.
#[unsafe(no_mangle)]
pub extern "C" fn fixp_bench_idle(turns: u64) -> u64 {
    idle(turns).unwrap_or(0)
}

fn round(turns: u64) -> Option<u64> {
    let mut held = start(0, 0, 0)?;
    for i in 0..turns {
        let now = Instant(i);
        let stamp = Nanotime(i % 1000);
        let next = following(held.session);
        let from = held.lose(now, stamp, next)?;
        held.begin(now, stamp, from)?;
        held.recover(now)?;
        held.resume(now, next)?;
        if !held.is_ready() {
            return None;
        }
        held.live(now)?;
    }
    Some(expected(held.session))
}

/// A message lost, asked for, replayed, resumed, and the next one: the number expected next.
#[unsafe(no_mangle)]
pub extern "C" fn fixp_bench_round(turns: u64) -> u64 {
    round(turns).unwrap_or(0)
}

fn serve(turns: u64) -> Option<u64> {
    let mut held = start(0, 0, 20)?;
    let mut sum: u64 = 0;
    for i in 0..turns {
        let now = Instant(i);
        held.asked(now, Nanotime(i % 1000))?;
        sum = sum.wrapping_add(held.serve(now)?);
    }
    Some(sum)
}

/// A request served by one batch: a sum of the stamps answered.
#[unsafe(no_mangle)]
pub extern "C" fn fixp_bench_serve(turns: u64) -> u64 {
    serve(turns).unwrap_or(0)
}
