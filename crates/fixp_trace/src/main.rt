//! The trace program (01, "Trace program"): a trace from standard input, a line for each record to standard output.
#![tactic(auto)]

use std::io;

fn main(rt: HostRuntime) -> io::Result<()> {
    let mut buf = [0u8; 65537];
    let n = replay::read_full(&mut rt.reader(), &mut buf)?;
    replay::print_trace(&rt, &buf[..n])
}
