//! Runs of the shell as tests make them, with the words as one line, and input and output in memory; calls over a file system
//! and beside it over a plain tree; and calls of all verbs that a number gives.
//!
//! There is no model of its own, and no test, so that it is proved once.
#![tactic(auto)]

mod beside;
mod draws;
mod trees;

ghost use Rattle.std.specs.Prelude.{◌≤◌};
ghost use Rattle.ct_pm.specs.Device.{NothingPending};

pub use beside::{change, is_alike};
use ct_base::{MOST_PAGES, MemSink, MemSource, NoMemory};
use ct_pm::{Pm, RamPm};
use ct_run::{Status, run};
pub use draws::drawn;
use std::alloc::{AllocError, Global};
pub use trees::is_same_tree;

/// How many bytes a read gives at most, where the test does not say.
const PIECE: usize = 1000;

/// How many bytes may be written, where the test does not say.
const ROOM: u64 = 1 << 20;

/// What a run leaves: its status, its device, and the bytes that it wrote.
#[derive(Drop)]
pub struct Left<D> {
    pub status: Status,
    pub dev: D,
    pub out: MemSink,
}

// The words of a line, each after a space or more.
fn words_of(alloc: Global, line: &str) -> Result<Vec<String>, AllocError> {
    let mut words = Vec::new(alloc);
    for word in line.split_ascii_whitespace() {
        words.push(String::from_str(alloc, word)?)?;
    }
    Ok(words)
}

/// Runs the words of a line over a device, with these ends.
///
/// # Errors
///
/// `NoMemory` where there is none for the words.
pub fn ran_between<D: Pm + Drop>(
    alloc: Global,
    line: &str,
    dev: D,
    mut input: MemSource,
    mut out: MemSink,
) -> Result<Left<D>, NoMemory>
    requires { NothingPending (D.told dev) }
{
    let words = match words_of(alloc, line) {
        Ok(words) => words,
        Err(_) => return Err(NoMemory),
    };
    let outcome = run(alloc, &words, dev, &mut input, &mut out);
    Ok(Left {
        status: outcome.status,
        dev: outcome.dev,
        out,
    })
}

/// Runs the words of a line over a device, with a script as the input, where no end fails.
///
/// # Errors
///
/// `NoMemory` where there is none for the words, the script, or 1 MiB of output.
pub fn ran<D: Pm + Drop>(
    alloc: Global,
    line: &str,
    dev: D,
    script: &[u8],
) -> Result<Left<D>, NoMemory>
    requires { NothingPending (D.told dev) }
{
    let script = match script.to_vec(alloc) {
        Ok(script) => script,
        Err(_) => return Err(NoMemory),
    };
    let input = MemSource::new(script, PIECE, Vec::new(alloc));
    let out = MemSink::new(alloc, ROOM, Vec::new(alloc))?;
    ran_between(alloc, line, dev, input, out)
}

/// A device in memory of so many pages, with an empty file system of 16 inodes where these are 256 at least.
///
/// # Errors
///
/// `NoMemory` where there is none for the device and the run.
pub fn formatted(alloc: Global, pages: u64) -> Result<RamPm, NoMemory>
    requires { pages ≤ MOST_PAGES }
{
    let dev = RamPm::new(alloc, pages)?;
    Ok(ran(alloc, "format x 16", dev, b"")?.dev)
}
