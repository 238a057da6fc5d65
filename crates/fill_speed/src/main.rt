//! `fill_speed fill N` writes 1 MiB of a file so many times over, on a device in memory; `fill_speed set N` sets as many bytes
//! of a list so many times. It prints nothing: `bench/fills` takes the times.
#![tactic(auto)]

use ct_pm::RamPm;
use ct_write::Data;
use growth_stops::{Growth, with_file};
use std::alloc::Global;
use std::env;
use std::process::ExitCode;
use write_stops::{Holder, Wrote};

/// How many bytes are written, and how many pages the device has.
const BYTES: u64 = 1_048_576;

const PAGES: u64 = 1024;

/// A file of 2 MiB at most, on a device in memory.
fn file(alloc: Global) -> Option<Holder<RamPm>> {
    let Ok(dev) = RamPm::new(alloc, PAGES) else {
        return None;
    };
    match with_file(alloc, dev)?.grow_file(3) {
        Growth::Done(grown) => Some(Holder::of(grown)),
        Growth::Stopped(_) | Growth::Refused => None,
    }
}

/// Writes the file so many times; whether each write was done.
fn fill(alloc: Global, times: u64) -> bool {
    let Some(mut holder) = file(alloc) else {
        return false;
    };
    for turn in 0..times {
        let byte = (turn % 251) as u8;
        holder = match holder.write(0, Data::Fill { len: BYTES, byte }) {
            Wrote::Done(holder) => holder,
            Wrote::Stopped(_) | Wrote::Refused => return false,
        };
    }
    true
}

/// Sets as many bytes so many times; whether each was set.
fn set(alloc: Global, times: u64) -> bool {
    let Ok(mut bytes) = vec![in alloc; 0u8; BYTES as usize] else {
        return false;
    };
    for turn in 0..times {
        let byte = (turn % 251) as u8;
        bytes.fill(byte);
        let at = turn as usize % 1024;
        if at < bytes.len() && bytes[at] != byte {
            return false;
        }
    }
    true
}

/// What the words after the program's name ask for.
fn run(rt: &HostRuntime, alloc: Global) -> bool {
    let Ok(mut words) = env::args(rt) else {
        return false;
    };
    let _ = words.next();
    let (Some(work), Some(times)) = (words.next(), words.next()) else {
        return false;
    };
    let Ok(times) = times.parse::<u64>() else {
        return false;
    };
    match work.as_str() {
        "fill" => fill(alloc, times),
        "set" => set(alloc, times),
        _ => false,
    }
}

fn main(rt: HostRuntime) -> ExitCode {
    let done = run(&rt, rt.alloc());
    ExitCode::from(if done { 0 } else { 1 })
}
