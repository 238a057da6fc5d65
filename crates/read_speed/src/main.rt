//! `read_speed read N` reads 1 MiB of a file so many times, on a device in memory; `read_speed copy N` copies as many bytes of
//! a list so many times. It prints nothing: `bench/reads` takes the times.
#![tactic(auto)]

ghost use Rattle.std.specs.Prelude.{◌≡◌, IfSome, length};

use ct_fs::{Fs, format};
use ct_pm::RamPm;
use std::alloc::Global;
use std::env;
use std::process::ExitCode;

/// How many bytes are read, and how many pages the device has.
const BYTES: usize = 1_048_576;

const PAGES: u64 = 1024;

/// So many times the byte.
fn bytes_of(alloc: Global, byte: u8) -> Option<Vec<u8>>
    ensures { IfSome result (λ bytes. length bytes.items ≡ BYTES) }
{
    match vec![in alloc; byte; BYTES] {
        Ok(bytes) => Some(bytes),
        Err(_) => None,
    }
}

/// Makes a file of as many bytes; whether it was made.
fn make(fs: &mut Fs<RamPm>) -> bool {
    if fs.create(b"/a").is_err() {
        return false;
    }
    fs.fill(b"/a", 0, BYTES as u64, 65).is_ok()
}

/// Reads the file so many times; whether each read gave all of it.
fn read_over(fs: &Fs<RamPm>, alloc: Global, times: u64) -> bool {
    let Some(mut buffer) = bytes_of(alloc, 0) else {
        return false;
    };
    for _ in 0..times {
        match fs.read(b"/a", 0, BYTES as u64, buffer.as_mut_slice()) {
            Ok(count) => {
                if count != BYTES as u64 {
                    return false;
                }
            }
            Err(_) => return false,
        }
    }
    true
}

/// The same on a file system that is made first.
fn read(alloc: Global, times: u64) -> bool {
    let Ok(dev) = RamPm::new(alloc, PAGES) else {
        return false;
    };
    match format(alloc, dev, 16) {
        Ok(made) => {
            let mut fs = made;
            let done = make(&mut fs) && read_over(&fs, alloc, times);
            let _dev = fs.unmount();
            done
        }
        Err(_) => false,
    }
}

/// Copies as many bytes so many times; whether each came over.
fn copy(alloc: Global, times: u64) -> bool {
    let (Some(mut from), Some(mut to)) = (bytes_of(alloc, 65), bytes_of(alloc, 0)) else {
        return false;
    };
    for turn in 0..times {
        let byte = (turn % 251) as u8;
        let at = turn as usize % 1024;
        if at < from.len() {
            from[at] = byte;
        }
        if from.len() == to.len() {
            to.copy_from_slice(from.as_slice());
        }
        if at < to.len() && to[at] != byte {
            return false;
        }
    }
    true
}

/// What the words after the program's name ask for.
fn run(rt: &HostRuntime, alloc: Global) -> bool {
    let Ok(mut words) = env::args(rt) else {
        return false;
    };
    let _ = words.next();
    let (Some(work), Some(times)) = (words.next(), words.next()) else {
        return false;
    };
    let Ok(times) = times.parse::<u64>() else {
        return false;
    };
    match work.as_str() {
        "read" => read(alloc, times),
        "copy" => copy(alloc, times),
        _ => false,
    }
}

fn main(rt: HostRuntime) -> ExitCode {
    let done = run(&rt, rt.alloc());
    ExitCode::from(if done { 0 } else { 1 })
}
