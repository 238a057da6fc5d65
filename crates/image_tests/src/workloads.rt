// The summaries of calls that a number gives: of runs, and of a plain tree that makes the same calls.
use crate::images::check;
use ct_base::{NameBuf, NoMemory};
use ct_gen::Gen;
use ct_plain::PlainTree;
use ct_pm::RamPm;
use ct_run::Status;
use ct_tree::{Call, Reply};
use script_runs::{Left, ran};
use std::alloc::Global;
use std::test::Fail;

// How many replies there were of each kind.
#[derive(Clone, Copy)]
struct Kinds {
    done: u64,
    data: u64,
    refused: u64,
}

impl Kinds {
    fn count(&mut self, reply: &Reply) {
        match reply {
            Reply::Done => self.done = self.done.saturating_add(1),
            Reply::Data(_) => self.data = self.data.saturating_add(1),
            Reply::Refused(_) => self.refused = self.refused.saturating_add(1),
            _ => {}
        }
    }
}

// Makes the calls that a number gives on a tree.
fn replies(tree: &mut PlainTree, number: u64, count: u64) -> Result<Kinds, NoMemory> {
    let mut replies = Kinds {
        done: 0,
        data: 0,
        refused: 0,
    };
    for made in Gen::new(number, count) {
        let mut first = NameBuf::new();
        let mut second = NameBuf::new();
        let reply = tree.call(&made.call(&mut first, &mut second))?;
        replies.count(&reply);
    }
    Ok(replies)
}

// The sizes of the sixteen files together, as far as they are there, and how many are.
fn files(tree: &mut PlainTree) -> Result<(u64, u64), NoMemory> {
    let mut count: u64 = 0;
    let mut bytes: u64 = 0;
    for number in 0..16u8 {
        let tens = [b'/', b'f', b'1', b'0' + number % 10];
        let ones = [b'/', b'f', b'0' + number % 10];
        let path = if number < 10 {
            ones.as_slice()
        } else {
            tens.as_slice()
        };
        if let Reply::File(size) = tree.call(&Call::Stat { path })? {
            count = count.saturating_add(1);
            bytes = bytes.saturating_add(size);
        }
    }
    Ok((count, bytes))
}

// What the calls of a number come to on a plain tree: those that were done, that gave data and that were refused, the files
// that are there then, and their bytes.
fn outcome(alloc: Global, number: u64, count: u64) -> Result<[u64; 5], NoMemory> {
    let mut tree = PlainTree::new(alloc)?;
    let kinds = replies(&mut tree, number, count)?;
    let (files, bytes) = files(&mut tree)?;
    Ok([kinds.done, kinds.data, kinds.refused, files, bytes])
}

// The summary of a plain tree. The files are made before the calls that are drawn.
fn summary(alloc: Global, number: u64, count: u64) -> Result<String, Fail> {
    let calls = count.saturating_add(16);
    let [done, data, refused, files, bytes] = outcome(alloc, number, count)?;
    Ok(format!(in alloc;
        "calls {calls} done {done} data {data} refused {refused} files {files} bytes {bytes}\n"
    )?)
}

// Numbers, counts of draws, and the summaries of the calls that these give.
const ROWS: [(u64, u64, &str); 3] = [
    (0, 0, "calls 16 done 16 data 0 refused 0 files 16 bytes 0\n"),
    (0, 1, "calls 17 done 16 data 0 refused 1 files 16 bytes 0\n"),
    (
        7,
        10_000,
        "calls 10016 done 4792 data 789 refused 4435 files 9 bytes 1928998\n",
    ),
];

#[test]
fn a_plain_tree_has_these_summaries(rt: HostRuntime) -> Result<(), Fail> {
    for (number, count, want) in ROWS {
        let found = summary(rt.alloc(), number, count)?;
        assert_eq!(rt; found.as_str(), want);
    }
    Ok(())
}

// A run of the calls of a number. The input is not read.
fn generated(alloc: Global, number: u64, count: u64) -> Result<Left<RamPm>, Fail> {
    let line = format!(in alloc; "gen {number} {count}")?;
    let dev = RamPm::new(alloc, 4096)?;
    Ok(ran(alloc, line.as_str(), dev, b"create /never\n")?)
}

#[test]
fn runs_have_these_summaries(rt: HostRuntime) -> Result<(), Fail> {
    for (number, count, want) in ROWS {
        let left = generated(rt.alloc(), number, count)?;
        check(&rt, &left, Status::Done, want.as_bytes());
    }
    Ok(())
}
