//! The pieces in which two equally long ranges of virtual pages are exchanged.
//! The one model: `Pieces` is seen as the list of the (offset, height) that are still to come.
#![tactic(auto)]

ghost use Rattle.std.specs.Prelude.{◌≡◌, ℕ, List, All, ◌+◌, ◌-◌, ◌*◌, ◌^◌, ◌<◌, ◌≤◌, ◌&&◌, ◌==◌, nat_le, length};
ghost use Rattle.std.specs.Iterator.{YieldsFirstBy, item_count};
ghost use Rattle.ct_base.specs.Pieces.{fits, height_at, pieces, IsBlock, Covers, InOneSlot, AlignedAlike};

use ct_base::{SLOT_PAGES, TABLE_ENTRIES};
use std::marker::Model;

/// An aligned run of as many pages as a table of level `height` leads to, `offset` pages into both ranges. The height is from
/// 0 to 3, and 0 stands for one page.
#[derive(Clone, Copy, Debug, PartialEq, Eq, Drop)]
pub struct Piece {
    pub offset: u64,
    pub height: u32,
}

/// The pieces that are left of two ranges of `n` pages, from `a` and from `b` on.
#[derive(Drop)]
pub struct Pieces {
    a: u64,
    b: u64,
    n: u64,
    at: u64,
}

impl Model for Pieces {
    ghost use Rattle.std.specs.Prelude.{◌+◌, ◌-◌, ◌^◌, ◌≤◌, ℕ, List};
    ghost use Rattle.ct_base.specs.Pieces.{pieces_from};
    ghost use Rattle.ct_base.specs.declared.layout.TheConstants.{TABLE_ENTRIES};

    ghost Value = { List (ℕ × ℕ) };

    ghost view = { λ p. pieces_from (p.n - p.at) p.a p.b p.n p.at };

    ghost invariant = { λ p. (p.at ≤ p.n) × (p.a + p.n ≤ TABLE_ENTRIES ^ 4) × (p.b + p.n ≤ TABLE_ENTRIES ^ 4) };
}

/// Whether `width` pages from offset `i` on lie inside and begin at a multiple of `width` on both sides.
fn is_fit(a: u64, b: u64, n: u64, i: u64, width: u64) -> bool
    requires some { 0 < width }
    requires narrow { width ≤ TABLE_ENTRIES ^ 4 }
    requires first { a + n ≤ TABLE_ENTRIES ^ 4 }
    requires second { b + n ≤ TABLE_ENTRIES ^ 4 }
    requires inside { i ≤ n }
    ensures { result ≡ fits a b n i width }
{
    (a + i) % width == 0 && (b + i) % width == 0 && i + width <= n
}

/// The greatest height at which a piece may begin at offset `i`.
#[tactic(auto, using(crate::proofs::Steps::height_le, crate::proofs::Steps::height_inside), unfolding(ct_base::specs::Pieces::height_at))]
fn greatest_height(a: u64, b: u64, n: u64, i: u64) -> u32
    requires first { a + n ≤ TABLE_ENTRIES ^ 4 }
    requires second { b + n ≤ TABLE_ENTRIES ^ 4 }
    requires inside { i ≤ n }
    ensures exact { result ≡ height_at a b n i }
    ensures low { result ≤ 3 }
    ensures inside { i < n → i + TABLE_ENTRIES ^ result ≤ n }
{
    if is_fit(a, b, n, i, SLOT_PAGES) {
        3
    } else if is_fit(a, b, n, i, TABLE_ENTRIES * TABLE_ENTRIES) {
        2
    } else if is_fit(a, b, n, i, TABLE_ENTRIES) {
        1
    } else {
        0
    }
}

impl Pieces {
    /// The pieces of two ranges of `n` virtual pages, each as high as can be.
    pub fn new(a: u64, b: u64, n: u64) -> Pieces
        requires first { a + n ≤ TABLE_ENTRIES ^ 4 }
        requires second { b + n ≤ TABLE_ENTRIES ^ 4 }
        ensures { result ≡ pieces a b n }
    {
        Pieces { a, b, n, at: 0 }
    }
}

impl Iterator for Pieces {
    type Item = Piece;

    ghost next_gives = { YieldsFirstBy (λ piece. (piece.offset, piece.height)) (λ s. s) };

    ghost remaining = { item_count (λ s. s) };

    fn next(&mut self) -> Option<Piece> {
        if self.at >= self.n {
            return None;
        }
        let offset = self.at;
        let height = greatest_height(self.a, self.b, self.n, offset);
        self.at = offset + TABLE_ENTRIES.pow(height);
        Some(Piece { offset, height })
    }
}

/// How many pieces two ranges of `n` virtual pages have: as few as any cover by blocks that are aligned in both.
///
/// There are at most 2,555 where each range lies in one root slot and both begin alike.
pub fn count(a: u64, b: u64, n: u64) -> u64
    requires first { a + n ≤ TABLE_ENTRIES ^ 4 }
    requires second { b + n ≤ TABLE_ENTRIES ^ 4 }
    ensures exact { result ≡ length (pieces a b n) }
    ensures least { (blocks : List (ℕ × ℕ)) → All (IsBlock a b n) blocks → Covers blocks n → result ≤ length blocks }
    ensures few { InOneSlot a n → InOneSlot b n → AlignedAlike a b n → result ≤ 2555 }
{
    let mut found: u64 = 0;
    for _piece in Pieces::new(a, b, n) {
        found += 1;
    }
    found
}
