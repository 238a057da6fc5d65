// The calls of a number, one after another.
ghost use Rattle.std.specs.Prelude.{◌≡◌, ◌+◌, ◌*◌, ◌/◌, ◌%◌, ◌^◌, ◌<◌};
ghost use Rattle.std.specs.Iterator.{YieldsFirstBy, item_count};
ghost use Rattle.ct_gen.specs.Made.{drawn, gen_op, made, next_state};

use crate::GenCall;
use ct_base::PAGE_BYTES;
use std::marker::Model;

/// How many files there are.
const FILES: u64 = 16;

/// The bytes of the parts of a page that some fills go by: an eighth of a page.
pub const PART_BYTES: u64 = 512;

/// The most draws of a workload.
pub const MOST_DRAWS: u64 = 1_000_000;

/// The calls that are still to come.
#[derive(Drop)]
pub struct Gen {
    // How many of the files have been made.
    files: u64,
    state: u64,
    left: u64,
}

impl Model for Gen {
    ghost use Rattle.std.specs.Prelude.{◌-◌, ◌≤◌, ◌++◌, List};
    ghost use Rattle.ct_tree.specs.Step.{Op};
    ghost use Rattle.ct_gen.specs.Made.{creations, draws};

    ghost Value = { List Op };

    ghost view = { λ g. creations (16 - g.files) g.files ++ draws g.left g.state };

    ghost invariant = { λ g. g.files ≤ 16 };
}

/// The state of the generator after one draw more. A draw is its upper half.
pub fn step(state: u64) -> u64
    ensures { result ≡ next_state state }
{
    state
        .wrapping_mul(6_364_136_223_846_793_005)
        .wrapping_add(1_442_695_040_888_963_407)
}

// The call of a draw.
fn draw(q: u64) -> GenCall
    requires { q < 2 ^ 32 }
    ensures { gen_op result ≡ drawn q }
{
    let file = q / 8 % FILES;
    let next = (file + 1) % FILES;
    let off = PAGE_BYTES * (q / 128 % 64);
    let count = 1 + q / 8192 % 8;
    let byte = (q / 65_536 % 256) as u8;
    match q % 8 {
        0 | 1 => GenCall::Fill {
            file,
            off,
            len: PAGE_BYTES * count,
            byte,
        },
        2 => GenCall::Fill {
            file,
            off: off + byte as u64,
            len: PART_BYTES * count,
            byte,
        },
        3 => GenCall::Append { file, byte },
        4 => GenCall::Truncate {
            file,
            len: off + byte as u64,
        },
        5 => GenCall::Read { file, off },
        6 => GenCall::Exchange {
            file,
            other: next,
            off,
        },
        _ if byte < 128 => GenCall::Create { file },
        _ => GenCall::Rename { file, to: next },
    }
}

impl Gen {
    /// The calls of a number: sixteen that make files, and then so many draws.
    pub fn new(number: u64, count: u64) -> Gen
        ensures { result ≡ made number count }
    {
        Gen {
            files: 0,
            state: number,
            left: count,
        }
    }
}

impl Iterator for Gen {
    type Item = GenCall;

    ghost next_gives = { YieldsFirstBy gen_op (λ s. s) };

    ghost remaining = { item_count (λ s. s) };

    fn next(&mut self) -> Option<GenCall> {
        if self.files < FILES {
            let file = self.files;
            self.files += 1;
            return Some(GenCall::Create { file });
        }
        if self.left == 0 {
            return None;
        }
        self.left -= 1;
        self.state = step(self.state);
        Some(draw(self.state >> 32))
    }
}
