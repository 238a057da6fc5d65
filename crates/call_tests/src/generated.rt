// Calls that a number gives, over the file system and beside it over a plain tree.
use ct_base::NameBuf;
use ct_fs::{Fs, format};
use ct_gen::Gen;
use ct_plain::PlainTree;
use ct_pm::{Pm, RamPm};
use script_runs::{drawn, is_alike, is_same_tree};
use std::alloc::Global;
use std::test::Fail;

const NUMBER: u64 = 7;

const CALLS: u64 = 1_000;

// How many of the calls both answer alike, up to the first that they do not.
fn alike<D: Pm>(alloc: Global, fs: &mut Fs<D>) -> Result<u64, Fail> {
    let mut tree = PlainTree::new(alloc)?;
    let mut alike: u64 = 0;
    for made in Gen::new(NUMBER, CALLS) {
        let mut first = NameBuf::new();
        let mut second = NameBuf::new();
        if !is_alike(fs, &mut tree, &made.call(&mut first, &mut second))? {
            break;
        }
        alike = alike.saturating_add(1);
    }
    Ok(alike)
}

// An empty file system.
fn fresh(alloc: Global) -> Result<Fs<RamPm>, Fail> {
    match format(alloc, RamPm::new(alloc, 16_384)?, 1024) {
        Ok(fs) => Ok(fs),
        Err(_) => Err(Fail::from("format")),
    }
}

#[test]
fn generated_calls_answer_as_a_plain_tree_does(rt: HostRuntime) -> Result<(), Fail> {
    let alloc = rt.alloc();
    let mut fs = fresh(alloc)?;
    let alike = alike(alloc, &mut fs);
    let _dev = fs.unmount();
    // the number gives 16 files before its calls
    assert_eq!(rt; alike?, CALLS + 16);
    Ok(())
}

// How many calls of all verbs are drawn.
const DRAWS: u64 = 500;

// How many of them both answer alike, up to the first that they do not, and whether both hold the same tree then.
fn drawn_alike<D: Pm>(alloc: Global, fs: &mut Fs<D>, number: u64) -> Result<(u64, bool), Fail> {
    let mut tree = PlainTree::new(alloc)?;
    let mut alike: u64 = 0;
    for call in drawn(alloc, number, DRAWS)?.iter() {
        if !is_alike(fs, &mut tree, call)? {
            break;
        }
        alike = alike.saturating_add(1);
    }
    Ok((alike, is_same_tree(alloc, fs, &mut tree)?))
}

// The same over a file system that is made for it.
fn drawn_on_fresh(alloc: Global, number: u64) -> Result<(u64, bool), Fail> {
    let mut fs = fresh(alloc)?;
    let found = drawn_alike(alloc, &mut fs, number);
    let _dev = fs.unmount();
    found
}

#[test]
fn calls_of_all_verbs_answer_as_a_plain_tree_does(rt: HostRuntime) -> Result<(), Fail> {
    for number in 1..4 {
        let found = drawn_on_fresh(rt.alloc(), number)?;
        assert_eq!(rt; found, (DRAWS, true), "number {number}");
    }
    Ok(())
}
