// Sets of lines: a mask of 64 bits for each page, since a page has 64 lines.
ghost use Rattle.std.specs.Prelude.{◌≡◌, ◌^◌, ℕ, ◌/◌, ◌%◌, ◌<◌, ◌↔◌, length, slice_index, IsBitSet, IsTrue};
ghost use Rattle.pm_file.specs.Lines.{with_line};

/// How many words a line has.
pub const LINE_WORDS: usize = 8;

/// Puts a line into the set.
pub fn add_line(masks: &mut Vec<u64>, line: u64)
    requires { line / 64 < length masks.old.items }
    ensures masks { masks.new.items ≡ with_line masks.old.items line }
    ensures fit { (page : ℕ) → slice_index masks.new.items page < 2 ^ 64 }
{
    let page = (line / 64) as usize;
    masks[page] |= 1 << (line % 64);
}

/// Whether a line is in the set. None past its last page is.
pub fn has_line(masks: &[u64], line: u64) -> bool
    ensures { IsTrue result ↔ IsBitSet (slice_index masks.now (line / 64)) (line % 64) }
{
    let page = (line / 64) as usize;
    page < masks.len() && masks[page] & (1 << (line % 64)) != 0
}
