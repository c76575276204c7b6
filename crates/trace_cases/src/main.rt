//! Runs each trace that an argument names, one after another: what the Rust answers to them stands in `stdout`.
#![tactic(auto)]

use std::rt::Files;
use std::{env, fs, io};

fn one<R: Files + Print + Eprint>(rt: &R, path: &str) -> io::Result<()> {
    let mut buf = [0u8; 65537];
    match fs::open(rt, path) {
        Ok(mut file) => {
            let n = replay::read_full(&mut file, &mut buf)?;
            replay::print_trace(rt, &buf[..n])
        }
        Err(error) => eprintln!(rt; "{path}: {error}"),
    }
}

fn main(rt: HostRuntime) -> io::Result<()> {
    for path in env::args(&rt)?.skip(1) {
        one(&rt, path.as_str())?;
    }
    Ok(())
}
