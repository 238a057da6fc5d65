ghost use Rattle.std.specs.Prelude.{◌≡◌, ℕ, ◌*◌, ◌+◌, ◌/◌, ◌%◌, ◌<◌, ◌≤◌, [], length, All, Contains, IfOk, IsBitSet, IsTrue, ◌↔◌, vec_capacity};
ghost use Rattle.ct_base.specs.declared.layout.TheConstants.{MOST_PAGES, PAGE_WORDS};
ghost use Rattle.pm_file.specs.Lines.{HasLine, line_words};

use crate::lines::{LINE_WORDS, has_line};
use ct_base::{MOST_PAGES, NoMemory, PAGE_WORDS};
use std::alloc::Global;

/// How many lines are kept at most.
const ROOM: usize = 1024;

/// A line, and the words that it had when it was kept.
#[derive(Clone, Copy)]
pub struct KeptLine {
    pub line: u64,
    pub words: [u64; LINE_WORDS],
}

/// Lines as the file has them: what they held before they were first stored to since they were last written. Of lines for
/// which there was no room it is not known.
#[derive(Drop)]
pub struct Kept {
    pub lines: Vec<KeptLine>,
    ghost room: { 1024 ≤ vec_capacity lines },
}

impl Kept {
    ghost use Rattle.pm_file.specs.Kept.{Keeps, IsAsKept};

    /// No line, with room for 1,024.
    pub fn new(alloc: Global) -> Result<Kept, NoMemory>
        ensures { IfOk result (λ kept. kept.lines.items ≡ []) }
    {
        match Vec::with_capacity(alloc, ROOM) {
            Ok(lines) => Ok(Kept { lines }),
            Err(_) => Err(NoMemory),
        }
    }

    /// Keeps a line, given by its eight words, where there is room.
    pub fn keep(&mut self, line: u64, words: &[u64])
        requires { length words.now ≡ 8 }
        ensures { Keeps self.old.lines.items self.new.lines.items line words.now }
    {
        if self.lines.len() >= ROOM {
            return;
        }
        let mut held = [0; LINE_WORDS];
        held.copy_from_slice(words);
        match self.lines.push(KeptLine { line, words: held }) {
            Ok(()) => {}
            Err(_) => unreachable!(),
        }
    }

    /// Brings the lines into their order.
    pub fn sort(&mut self)
        ensures { All (Contains self.old.lines.items) self.new.lines.items }
    {
        self.lines.sort_unstable_by_key(|kept| kept.line);
    }

    /// The lines of a page that have the words with which they were kept, as a mask. The lines are in their order.
    pub fn same_lines(&self, page: u64, words: &[u64]) -> u64
        requires few { page < MOST_PAGES }
        requires there { PAGE_WORDS * page + PAGE_WORDS ≤ length words.now }
        ensures { (line : ℕ) → IsBitSet result line → IsAsKept self.now.lines.items words.now (64 * page + line) }
    {
        let first = self.lines.partition_point(|kept| kept.line < 64 * page);
        let mut same = 0;
        for kept in &self.lines[first..] {
            if kept.line / 64 != page {
                break;
            }
            if is_same(kept, words) {
                same |= 1 << (kept.line % 64);
            }
        }
        same
    }

    /// Forgets the marked lines: they were written, or it is not known how far.
    pub fn forget(&mut self, marked: &[u64])
        ensures kept { All (Contains self.old.lines.items) self.new.lines.items }
        ensures forgotten { All (λ kept. ¬ HasLine marked.now kept.line) self.new.lines.items }
    {
        self.lines.retain(|kept| !has_line(marked, kept.line));
    }
}

// Whether a line has the words with which it was kept.
fn is_same(kept: &KeptLine, words: &[u64]) -> bool
    requires { 8 * kept.now.line + 8 ≤ length words.now }
    ensures { IsTrue result ↔ (kept.now.words ≡ line_words words.now kept.now.line) }
{
    let first = LINE_WORDS * kept.line as usize;
    kept.words.as_slice() == &words[first..first + LINE_WORDS]
}
