// Every pair of paths of a small tree is renamed, over the file system and beside it over a plain tree; and names of several
// lengths, with their steps.
ghost use Rattle.std.specs.Prelude.{◌≡◌, IfOk};
ghost use Rattle.ct_pm.specs.Images.{IsSettled};
ghost use Rattle.pm_trace.specs.Meaning.{history};

use ct_fs::{Fs, format};
use ct_plain::PlainTree;
use ct_pm::{Pm, RamPm};
use ct_tree::Call;
use pm_trace::TracePm;
use record_stops::steps_since;
use script_runs::is_alike;
use std::alloc::{AllocError, Global};
use std::process::Abort;
use std::test::Fail;

// What is there, what is not, and what is no path.
const PATHS: [&[u8]; 13] = [
    b"/",
    b"/a",
    b"/b",
    b"/d",
    b"/d/b",
    b"/d/e",
    b"/d/e/c",
    b"/x",
    b"/new",
    b"/d/new",
    b"/d/e/new",
    b"/none/new",
    b"bad",
];

// The calls that make the tree: directories, and files each of another length.
const MAKES: [Call<'static>; 11] = [
    Call::Mkdir { path: b"/d" },
    Call::Mkdir { path: b"/d/e" },
    Call::Mkdir { path: b"/x" },
    Call::Create { path: b"/a" },
    Call::Create { path: b"/b" },
    Call::Create { path: b"/d/b" },
    Call::Create { path: b"/d/e/c" },
    Call::Fill {
        path: b"/a",
        off: 0,
        len: 1,
        byte: 65,
    },
    Call::Fill {
        path: b"/b",
        off: 0,
        len: 5000,
        byte: 66,
    },
    Call::Truncate {
        path: b"/d/b",
        len: 3,
    },
    Call::Truncate {
        path: b"/d/e/c",
        len: 4,
    },
];

// Makes the tree and then the rename, over both, and asks of each path. It gives how many answers were not alike.
fn differences<D: Pm>(
    fs: &mut Fs<D>,
    tree: &mut PlainTree,
    rename: &Call<'_>,
) -> Result<u64, Fail> {
    let mut differences: u64 = 0;
    for call in MAKES.iter().chain([rename]) {
        differences = differences.saturating_add(!is_alike(fs, tree, call)? as u64);
    }
    for path in PATHS {
        differences = differences.saturating_add(!is_alike(fs, tree, &Call::Stat { path })? as u64);
    }
    Ok(differences)
}

// Renames a pair on a device that is made anew.
fn check_pair(rt: &impl Abort, alloc: Global, path: &[u8], to: &[u8]) -> Result<(), Fail> {
    let mut tree = PlainTree::new(alloc)?;
    let mut fs = match format(alloc, RamPm::new(alloc, 512)?, 16) {
        Ok(fs) => fs,
        Err(_) => return Err(Fail::from("format")),
    };
    let found = differences(&mut fs, &mut tree, &Call::Rename { path, to });
    let _dev = fs.unmount();
    assert_eq!(rt; found?, 0, "{path:?} {to:?}");
    Ok(())
}

#[test]
fn each_pair_of_paths_is_renamed_as_in_a_plain_tree(rt: HostRuntime) -> Result<(), Fail> {
    let alloc = rt.alloc();
    for path in PATHS {
        for to in PATHS {
            check_pair(&rt, alloc, path, to)?;
        }
    }
    Ok(())
}

// Lengths at and around the edges of words: a name of up to 16 bytes is two words beside the one that has its length.
const LENGTHS: [u64; 6] = [1, 8, 9, 16, 17, 248];

// The path of a name of so many equal bytes.
fn path_of(alloc: Global, byte: u8, length: u64) -> Result<Vec<u8>, AllocError> {
    let mut path = Vec::new(alloc);
    path.push(b'/')?;
    for _ in 0..length {
        path.push(byte)?;
    }
    Ok(path)
}

// Whether two paths differ in one of eight bytes.
fn differ_at(path: &[u8], to: &[u8], from: usize) -> bool {
    (from..from.saturating_add(8)).any(|i| path.get(i) != to.get(i))
}

// How many pairs a new name takes: the word of its length, and each of the 31 others that changes.
fn pairs_of(path: &[u8], to: &[u8]) -> u64 {
    let mut pairs: u64 = 1;
    for word in 0..31 {
        if differ_at(path, to, 1 + 8 * word) {
            pairs = pairs.saturating_add(1);
        }
    }
    pairs
}

// A device that starts with nothing pending.
fn device(alloc: Global) -> Result<TracePm, Fail>
    ensures { IfOk result (λ device. IsSettled (history device)) }
{
    let words = vec![in alloc; 0; 512 * 256]?;
    Ok(TracePm::new(alloc, words, 60_000, Vec::new(alloc))?)
}

// The device after a format and the calls, of which each is answered as by a plain tree.
fn ran(alloc: Global, calls: &[Call<'_>]) -> Result<TracePm, Fail> {
    let mut tree = PlainTree::new(alloc)?;
    let mut fs = match format(alloc, device(alloc)?, 16) {
        Ok(fs) => fs,
        Err(_) => return Err(Fail::from("format")),
    };
    let mut are_alike = true;
    for call in calls {
        are_alike = matches!(is_alike(&mut fs, &mut tree, call), Ok(true)) && are_alike;
    }
    let dev = fs.unmount();
    if are_alike {
        Ok(dev)
    } else {
        Err(Fail::from("an answer"))
    }
}

// Renames a file in its directory, asks of both names, and counts the steps. Up to three pairs are three stores each and two
// for the gate, under three fences; more are copied behind the long gate, with six stores and a fence more.
fn check_new_name(rt: &impl Abort, alloc: Global, path: &[u8], to: &[u8]) -> Result<(), Fail> {
    let calls = [
        Call::Create { path },
        Call::Rename { path, to },
        Call::Stat { path },
        Call::Stat { path: to },
        Call::List { path: b"/" },
    ];
    let before = ran(alloc, &calls[..1])?.clock();
    let steps = steps_since(&ran(alloc, &calls)?, before);
    let pairs = pairs_of(path, to);
    let stores = pairs.saturating_mul(3);
    let wanted = if pairs <= 3 {
        (stores.saturating_add(2), 3)
    } else {
        (stores.saturating_add(8), 4)
    };
    assert_eq!(rt; (steps.stores, steps.fences), wanted, "{path:?} to {to:?}");
    Ok(())
}

#[test]
fn a_new_name_drafts_the_words_that_change(rt: HostRuntime) -> Result<(), Fail> {
    let alloc = rt.alloc();
    for length in LENGTHS {
        for new_length in LENGTHS {
            let path = path_of(alloc, b'a', length)?;
            check_new_name(&rt, alloc, &path, &path_of(alloc, b'b', new_length)?)?;
            if length != new_length {
                check_new_name(&rt, alloc, &path, &path_of(alloc, b'a', new_length)?)?;
            }
        }
    }
    Ok(())
}
