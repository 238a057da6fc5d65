// Calls of all verbs that a number gives, over few paths at which mostly something is.
ghost use Rattle.std.specs.Prelude.{◌≡◌, All, IfOk, length};
ghost use Rattle.ct_tree.specs.Step.{op_of};
ghost use Rattle.script_runs.specs.Drawn.{IsFew, IsOverFew};

use ct_base::{NoMemory, PAGE_BYTES};
use ct_gen::step;
use ct_tree::Call;
use std::alloc::Global;

// How many paths there are: those of directories, those of files, and three at which mostly neither is to be made.
const PATHS: u64 = 12;

const DIRECTORIES: u64 = 3;

const FILES: u64 = 6;

// One of the few paths.
fn path_at(number: u64) -> &'static [u8]
    ensures { IsFew result.now }
{
    match number {
        0 => b"/d",
        1 => b"/e",
        2 => b"/d/e",
        3 => b"/a",
        4 => b"/b",
        5 => b"/d/a",
        6 => b"/d/b",
        7 => b"/e/a",
        8 => b"/d/e/b",
        9 => b"/c",
        10 => b"/",
        _ => b"c",
    }
}

// The path of a directory, or now and then any.
fn directory(draw: u64) -> &'static [u8]
    ensures { IsFew result.now }
{
    if draw % 8 == 0 {
        return path_at(draw / 8 % PATHS);
    }
    path_at(draw / 8 % DIRECTORIES)
}

// The path of a file, or now and then any.
fn file(draw: u64) -> &'static [u8]
    ensures { IsFew result.now }
{
    if draw % 8 == 0 {
        return path_at(draw / 8 % PATHS);
    }
    path_at(DIRECTORIES + draw / 8 % FILES)
}

// Offsets, at and around the edges of pages, and the last two of them past partitions of one page and of 64.
const OFFSETS: [u64; 16] = [
    0, 0, 0, 1, 7, 100, 4095, 4096, 4097, 8192, 12_288, 16_384, 20_000, 32_767, 40_960, 270_000,
];

// Lengths, of which the longest are of several pages.
const LENGTHS: [u64; 16] = [
    0, 1, 2, 8, 100, 512, 4095, 4096, 4097, 5000, 8192, 8192, 12_288, 16_384, 16_384, 20_000,
];

fn offset(draw: u64) -> u64 {
    OFFSETS[(draw % 16) as usize]
}

fn extent(draw: u64) -> u64 {
    LENGTHS[(draw % 16) as usize]
}

fn text(draw: u64) -> &'static [u8] {
    match draw % 4 {
        0 => b"",
        1 => b"x",
        2 => b"some bytes",
        _ => b"sixty-four bytes, which are eight words of a device and one line",
    }
}

// The call of a draw: its verb from the lowest five bits, then seven for each of two paths, and four for each number.
fn call_of(draw: u64) -> Call<'static>
    ensures { IsOverFew (op_of result) }
{
    let path = file(draw / 32);
    let (off, len) = (draw / 524_288, draw / 8_388_608);
    match draw % 32 {
        0..=3 => Call::Create { path },
        4..=6 => Call::Mkdir {
            path: directory(draw / 32),
        },
        7..=9 => Call::Write {
            path,
            off: offset(off),
            bytes: text(len),
        },
        10..=13 => Call::Fill {
            path,
            off: offset(off),
            len: extent(len),
            byte: (draw / 134_217_728 % 256) as u8,
        },
        14 | 15 => Call::Append {
            path,
            bytes: text(len),
        },
        16 | 17 => Call::Read {
            path,
            off: offset(off),
            len: extent(len).min(PAGE_BYTES),
        },
        18..=20 => Call::Truncate {
            path,
            len: offset(off),
        },
        21..=23 => Call::Exchange {
            path,
            off: PAGE_BYTES * (off % 4),
            other: file(draw / 4096),
            other_off: PAGE_BYTES * (off / 4 % 4),
            len: PAGE_BYTES * (len % 4),
        },
        24 | 25 => Call::Rename {
            path,
            to: file(draw / 4096),
        },
        26 => Call::Rename {
            path: directory(draw / 32),
            to: directory(draw / 4096),
        },
        27 => Call::Unlink { path },
        28 => Call::Rmdir {
            path: directory(draw / 32),
        },
        29 => Call::Stat { path },
        30 => Call::List {
            path: directory(draw / 32),
        },
        _ => Call::Where { path },
    }
}

/// So many calls of all verbs, drawn from a number: the same for the same number. Each path is one of twelve: those of three
/// directories, one in another, of six files in them and in the root, one at which nothing is made on purpose, the root, and
/// what is no path. A call is mostly given a path at which its object may be, so that from an empty tree on about two calls in
/// five are done, some of each verb, and the others refused.
///
/// # Errors
///
/// `NoMemory` where there is none for the list.
pub fn drawn(alloc: Global, number: u64, count: u64) -> Result<Vec<Call<'static>>, NoMemory>
    ensures count { IfOk result (λ calls. length calls.items ≡ count) }
    ensures few { IfOk result (λ calls. All (λ call. IsOverFew (op_of call)) calls.items) }
{
    let mut calls = Vec::new(alloc);
    let mut state = number;
    for _ in 0..count {
        state = step(state);
        match calls.push(call_of(state >> 32)) {
            Ok(()) => {}
            Err(_) => return Err(NoMemory),
        }
    }
    Ok(calls)
}
