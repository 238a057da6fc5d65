// What a call asks to be there, by ranges of addresses, and the cells on the way to them.
ghost use Rattle.std.specs.Prelude.{◌≡◌, ℕ, ◌+◌, ◌-◌, ◌*◌, ◌/◌, ◌^◌, ◌<◌, ◌≤◌, ◌↔◌, true, List, [], ◌∷◌, ◌++◌};
ghost use Rattle.ct_base.specs.Wants.{Want as Wanted, is_on_path, is_wanted};
ghost use Rattle.ct_walk.specs.Has.{IsInRange, AreInRange};
ghost use Rattle.ct_walk.specs.Runs.{IsNearest};

use ct_base::{ADDRESS_END, PAGE_BYTES, TABLE_ENTRIES, Vaddr};
use std::marker::Model;

/// That the page, or the table of a level, of each address from `at` to `at + len - 1` is there.
///
/// Height 0 asks for the page of each address, heights 1 to 3 for the table of that level on its way, and height 4 for the
/// root, which is always there. The range has at least one address, and its addresses are below `ADDRESS_END`.
#[derive(Clone, Copy, Debug, Drop)]
pub struct Want {
    pub height: u32,
    pub at: Vaddr,
    pub len: u64,
}

impl Model for Want {
    ghost use Rattle.ct_base.specs.Wants.{Want as Wanted};
    ghost use Rattle.ct_walk.specs.Has.{IsInRange};

    ghost Value = { Wanted };

    ghost view = { λ w. record { height = w.height; at = w.at; len = w.len } };

    ghost invariant = { λ w. IsInRange (record { height = w.height; at = w.at; len = w.len }) };

    ghost inverse = { λ w. record { height = w.height; at = w.at; len = w.len } };
}

/// The cells of a depth from the one with number `first` to the one before `past`.
#[derive(Clone, Copy, Debug, PartialEq, Eq)]
pub struct Run {
    pub first: u64,
    pub past: u64,
}

/// How many bytes the range of a cell of a depth has.
pub fn span(depth: u32) -> u64
    requires { depth ≤ 4 }
    ensures exact { result ≡ PAGE_BYTES * TABLE_ENTRIES ^ (4 - depth) }
    ensures some { 0 < result }
    ensures most { result ≤ ADDRESS_END }
{
    PAGE_BYTES * TABLE_ENTRIES.pow(4 - depth)
}

impl Want {
    /// The height, from 0 to 4.
    pub fn height(&self) -> u32
        ensures exact { result ≡ self.now.height }
        ensures in_range { IsInRange self.now }
    {
        self.height
    }

    /// The cells of a depth on the path of the want.
    pub fn cells(&self, depth: u32) -> Run
        requires { depth ≤ 4 }
        ensures exact { (x : ℕ) → is_on_path depth x self.now ≡ true ↔ ((result.first ≤ x) × (x < result.past)) }
        ensures within { result.past ≤ TABLE_ENTRIES ^ depth }
        ensures order { result.first ≤ result.past }
        ensures some { 0 < result.past → result.first < result.past }
    {
        if depth + self.height > 4 {
            return Run { first: 0, past: 0 };
        }
        let bytes = span(depth);
        let at = self.at.get();
        let last = at + (self.len - 1);
        Run {
            first: at / bytes,
            past: last / bytes + 1,
        }
    }
}

/// The first run of wanted cells from one on: those before it are not wanted. Where none is wanted any more, it is empty
/// and stands at the end.
pub fn next_run(wants: &[Want], depth: u32, from: u64) -> Run
    requires deep { depth ≤ 4 }
    requires within { from ≤ TABLE_ENTRIES ^ depth }
    ensures { IsNearest wants.now depth from result }
{
    let end = TABLE_ENTRIES.pow(depth);
    let mut run = Run {
        first: end,
        past: end,
    };
    for want in wants {
        run = nearer(run, want, depth, from);
    }
    run
}

// The run, or the cells of one more want where they are nearer.
fn nearer(run: Run, want: &Want, depth: u32, from: u64) -> Run
    requires { depth ≤ 4 }
    ensures { (wants : List Wanted) → IsNearest wants depth from run → IsNearest (wants ++ want.now ∷ []) depth from result }
{
    let cells = want.cells(depth);
    if cells.past <= from {
        return run;
    }
    let first = cells.first.max(from);
    if run.first <= first {
        return run;
    }
    Run {
        first,
        past: cells.past,
    }
}

/// The depth of the deepest cells that wants ask for; 0 where they ask for none but the root.
pub fn deepest(wants: &[Want]) -> u32
    ensures most { result ≤ 4 }
    ensures covers { (d x : ℕ) → is_wanted wants.now d x ≡ true → d ≤ result }
    ensures in_range { AreInRange wants.now }
{
    let mut depth = 0u32;
    for want in wants {
        depth = depth.max(4 - want.height());
    }
    depth
}
