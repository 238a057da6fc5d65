// The pieces of two ranges of pages.
ghost use Rattle.std.specs.Prelude.{ℕ, All};
ghost use Rattle.ct_base.specs.Pieces.{pieces, IsBlock};
ghost use Rattle.ct_laws.specs.Cover.{CoverOnce};

/// Each piece is aligned on both sides and lies in the range, and each offset of the range lies in exactly one.
pub fn pieces_cover_each_offset_once()
    ensures blocks { (a b n : ℕ) → All (IsBlock a b n) (pieces a b n) }
    ensures once { (a b n : ℕ) → CoverOnce (pieces a b n) n }
{}
