ghost use Rattle.std.proofs.Common.{arith};
ghost use Rattle.std.specs.Prelude.{◌≡◌, ◌≢◌, ◌≤◌, ◌*◌, ◌/◌, ◌%◌, ◌<◌, ◌+◌, ◌-◌, ◌^◌, ℕ, Ok, None, true, length, IfOk, OnOk, OnErr, IsBitSet, IsTrue, ◌↔◌, All, Contains, [], bit_and, slice_index, slice_set};
ghost use Rattle.ct_base.specs.declared.layout.TheConstants.{MOST_PAGES, PAGE_WORDS};
ghost use Rattle.ct_base.specs.Causes.{HasCause};
ghost use Rattle.pm_file.specs.Kept.{Keeps};
ghost use Rattle.pm_file.specs.Lines.{with_line, line_words, HasLine};

use crate::attach::{AttachFault, PIECE, read_words, whole_pages};
use crate::kept::Kept;
use crate::lines::{LINE_WORDS, has_line};
use crate::marks::Marks;
use crate::writer::{Writer, zeros};
use ct_base::{MOST_PAGES, PAGE_WORDS};
use ct_pm::{Pm, PmFault};
use std::alloc::Global;
use std::fs::{Files, OpenFile, OpenOptions};
use std::io;
use std::os::unix::fs::FileExt;

/// The words of a file's whole pages in memory.
///
/// A store changes memory alone; what its line held is kept, where the line was not stored to since it was last written and
/// fewer than 1,024 lines are kept. A flush marks its line for the next fence, where it was stored to since it was last
/// written. A fence writes the marked lines to the file, but for those that are as they were kept, and syncs it. What was
/// read from the file may be what another process wrote and did not sync, so the first fence syncs before it writes too, and
/// so does the one after a failed fence.
#[derive(Drop)]
pub struct FilePm<F> {
    file: F,
    words: Vec<u64>,
    pages: u64,
    marks: Marks,
    kept: Kept,
    writer: Writer,
    unsynced: bool,
    faults: u64,
    ghost whole_pages: { length words.items ≡ PAGE_WORDS * pages },
    ghost words_fit: { (word : ℕ) → slice_index words.items word < 2 ^ 64 },
    ghost few: { pages ≤ MOST_PAGES },
    ghost marks_size: { length marks.marked.items ≡ pages },
    ghost kept_stored: { All (λ kept. HasLine marks.stored.items kept.line) kept.lines.items },
}

impl<F: FileExt + OpenFile + Drop> FilePm<F> {
    ghost use Rattle.pm_file.specs.Device.{IsFresh, IsQuiet, pages_of, stored_of, marked_of, is_unsynced, faults_of};

    /// Opens a file that is there for reading and writing, and reads its whole pages. A rest shorter than a page is
    /// ignored and stays in the file. A file of over 262,144 whole pages gives a device of 0 pages.
    ///
    /// # Errors
    ///
    /// `File` where the file could not be opened, measured or read, and `NoMemory` where memory ran out.
    pub fn attach<R: Files<File = F>>(
        rt: &R,
        alloc: Global,
        name: &str,
    ) -> Result<FilePm<F>, AttachFault>
        ensures pages { IfOk result (λ device. pages_of device ≤ MOST_PAGES) }
        ensures fresh { IfOk result (λ device. IsFresh device) }
    {
        match OpenOptions::new().read(true).write(true).open(rt, name) {
            Ok(file) => FilePm::over(alloc, file),
            Err(_) => Err(AttachFault::File),
        }
    }

    /// Reads the whole pages of an open file, as `attach` does. The file has to be open for reading and writing.
    ///
    /// # Errors
    ///
    /// `File` where the file could not be measured or read, and `NoMemory` where memory ran out.
    pub fn over(alloc: Global, file: F) -> Result<FilePm<F>, AttachFault>
        ensures pages { IfOk result (λ device. pages_of device ≤ MOST_PAGES) }
        ensures fresh { IfOk result (λ device. IsFresh device) }
    {
        let Ok(pages) = whole_pages(&file) else {
            return Err(AttachFault::File);
        };
        let Ok(marks) = Marks::new(alloc, pages) else {
            return Err(AttachFault::NoMemory);
        };
        let Ok(writer) = Writer::new(alloc) else {
            return Err(AttachFault::NoMemory);
        };
        let Ok(kept) = Kept::new(alloc) else {
            return Err(AttachFault::NoMemory);
        };
        match words_of_file(alloc, &file, pages) {
            Ok(words) => Ok(FilePm::of_parts(file, words, pages, marks, kept, writer)),
            Err(fault) => Err(fault),
        }
    }

    // Whether a fence has nothing to write or to sync.
    fn is_quiet(&self) -> bool
        ensures { IsTrue result ↔ IsQuiet self.now }
    {
        !self.unsynced && self.marks.is_empty()
    }

    // The device over the words that were read.
    fn of_parts(
        file: F,
        words: Vec<u64>,
        pages: u64,
        marks: Marks,
        kept: Kept,
        writer: Writer,
    ) -> FilePm<F>
        requires words { length words.items ≡ PAGE_WORDS * pages }
        requires few { pages ≤ MOST_PAGES }
        requires marks { length marks.marked.items ≡ pages }
        requires none_kept { kept.lines.items ≡ [] }
        ensures pages { pages_of result ≡ pages }
        ensures stored { stored_of result ≡ marks.stored.items }
        ensures marked { marked_of result ≡ marks.marked.items }
        ensures unsynced { is_unsynced result ≡ true }
        ensures faults { faults_of result ≡ 0 }
    {
        FilePm {
            file,
            words,
            pages,
            marks,
            kept,
            writer,
            unsynced: true,
            faults: 0,
        }
    }
}

// The words of so many pages from the front of the file.
fn words_of_file<F: FileExt>(alloc: Global, file: &F, pages: u64) -> Result<Vec<u64>, AttachFault>
    requires { pages ≤ MOST_PAGES }
    ensures { IfOk result (λ words. length words.items ≡ PAGE_WORDS * pages) }
{
    let Ok(mut words) = vec![in alloc; 0; (PAGE_WORDS * pages) as usize] else {
        return Err(AttachFault::NoMemory);
    };
    let Ok(mut buffer) = zeros(alloc, 8 * PIECE) else {
        return Err(AttachFault::NoMemory);
    };
    match read_words(file, &mut buffer, &mut words) {
        Ok(()) => Ok(words),
        Err(_) => Err(AttachFault::File),
    }
}

// Gathers the marked lines of a page.
fn add_page<F: FileExt>(
    file: &F,
    words: &[u64],
    page: u64,
    mask: u64,
    writer: &mut Writer,
) -> io::Result<()>
    requires few { page < MOST_PAGES }
    requires there { PAGE_WORDS * page + PAGE_WORDS ≤ length words.now }
{
    for line in 0..64 {
        if mask & (1 << line) != 0 {
            let number = 64 * page + line;
            let first = LINE_WORDS * number as usize;
            writer.add(file, number, &words[first..first + LINE_WORDS])?;
        }
    }
    Ok(())
}

// Keeps a line as it is, where it was not stored to since it was last written.
fn keep_line(kept: &mut Kept, stored: &[u64], words: &[u64], line: u64)
    requires { 8 * line + 8 ≤ length words.now }
    ensures first { ¬ HasLine stored.now line → Keeps kept.old.lines.items kept.new.lines.items line (line_words words.now line) }
    ensures again { HasLine stored.now line → kept.new.lines.items ≡ kept.old.lines.items }
{
    if has_line(stored, line) {
        return;
    }
    let first = LINE_WORDS * line as usize;
    kept.keep(line, &words[first..first + LINE_WORDS]);
}

// Writes the marked lines but for those that are as the file has them, and syncs the file. A file that may hold what nobody
// synced is synced before, so that nothing is written that rests on what may not last; where no line is marked, that is all.
fn write_back<F: FileExt + OpenFile>(
    file: &F,
    unsynced: bool,
    words: &[u64],
    marks: &Marks,
    kept: &Kept,
    writer: &mut Writer,
) -> io::Result<()>
    requires size { length words.now ≡ PAGE_WORDS * length marks.now.marked.items }
    requires few { length marks.now.marked.items ≤ MOST_PAGES }
{
    if unsynced {
        file.sync_data()?;
    }
    if marks.is_empty() {
        return Ok(());
    }
    for page in &marks.pages {
        let mask = marks.marked[*page as usize] & !kept.same_lines(*page, words);
        add_page(file, words, *page, mask, writer)?;
    }
    writer.send(file)?;
    file.sync_data()
}

impl<F: FileExt + OpenFile + Drop> Pm for FilePm<F> {
    ghost use Rattle.ct_pm.specs.declared.step.Step.TheVariants.{Store, Flush, Fence};
    ghost use Rattle.ct_pm.specs.Device.{AddsStep};
    ghost use Rattle.pm_file.specs.Device.{words_of, faults_of, stored_of, marked_of, kept_of, is_unsynced, IsQuiet};

    ghost words = { λ device. device.words.items };

    ghost page_count = { λ device. device.pages };

    ghost faults = { λ device. device.faults };

    ghost told = { λ _. None };

    ghost replays = { λ _. tt };

    ghost whole_pages = { λ device. device.whole_pages };

    ghost words_fit = { λ device. device.words_fit };

    ghost words_count = { λ device. Prim.omega (arith, device.few) };

    fn pages(&self) -> u64 {
        self.pages
    }

    fn load(&self, word: u64) -> u64 {
        self.words[word as usize]
    }

    fn store(&mut self, word: u64, value: u64) -> Result<(), PmFault>
        requires { word < length (words_of self.old) }
        ensures words { words_of self.new ≡ slice_set (words_of self.old) word value }
        ensures faults { faults_of self.new ≡ faults_of self.old }
        ensures ok { result ≡ Ok tt }
        ensures marked { marked_of self.new ≡ marked_of self.old }
        ensures stored { slice_index (words_of self.old) word ≢ value → stored_of self.new ≡ with_line (stored_of self.old) (word / 8) }
        ensures same { slice_index (words_of self.old) word ≡ value → self.new ≡ self.old }
        ensures kept_first { slice_index (words_of self.old) word ≢ value → ¬ HasLine (stored_of self.old) (word / 8) → Keeps (kept_of self.old) (kept_of self.new) (word / 8) (line_words (words_of self.old) (word / 8)) }
        ensures kept_again { HasLine (stored_of self.old) (word / 8) → kept_of self.new ≡ kept_of self.old }
    {
        let at = word as usize;
        if self.words[at] == value {
            return Ok(());
        }
        let line = word / 8;
        keep_line(&mut self.kept, &self.marks.stored, &self.words, line);
        self.words[at] = value;
        self.marks.store(line);
        Ok(())
    }

    fn flush(&mut self, line: u64) -> Result<(), PmFault>
        requires { 8 * line < length (words_of self.old) }
        ensures words { words_of self.new ≡ words_of self.old }
        ensures faults { faults_of self.new ≡ faults_of self.old }
        ensures ok { result ≡ Ok tt }
        ensures stored { stored_of self.new ≡ stored_of self.old }
        ensures marked { IsBitSet (slice_index (stored_of self.old) (line / 64)) (line % 64) → marked_of self.new ≡ with_line (marked_of self.old) line }
        ensures others { ¬ IsBitSet (slice_index (stored_of self.old) (line / 64)) (line % 64) → marked_of self.new ≡ marked_of self.old }
        ensures as_kept { kept_of self.new ≡ kept_of self.old }
    {
        self.marks.mark(line);
        Ok(())
    }

    fn fence(&mut self) -> Result<(), PmFault>
        ensures words { words_of self.new ≡ words_of self.old }
        ensures step { AddsStep result Fence None None }
        ensures cause { HasCause (faults_of self.old) (faults_of self.new) result }
        ensures quiet { OnOk result (IsQuiet self.new) }
        ensures stored { OnOk result ((page : ℕ) → slice_index (stored_of self.new) page ≡ bit_and (slice_index (stored_of self.old) page) (2 ^ 64 - 1 - slice_index (marked_of self.old) page)) }
        ensures kept { OnErr result ((marked_of self.new ≡ marked_of self.old) × (stored_of self.new ≡ stored_of self.old)) }
        ensures unsynced { OnErr result (is_unsynced self.new ≡ true) }
        ensures as_kept { All (Contains (kept_of self.old)) (kept_of self.new) }
        ensures forgotten { All (λ kept. ¬ HasLine (marked_of self.old) kept.line) (kept_of self.new) }
        ensures count { faults_of self.new ≤ faults_of self.old + 1 }
        ensures nothing_to_do { IsQuiet self.old → (result ≡ Ok tt) × (self.new ≡ self.old) }
    {
        if self.is_quiet() {
            return Ok(());
        }
        self.marks.sort();
        self.kept.sort();
        let answer = write_back(
            &self.file,
            self.unsynced,
            &self.words,
            &self.marks,
            &self.kept,
            &mut self.writer,
        );
        self.kept.forget(&self.marks.marked);
        if answer.is_err() {
            self.unsynced = true;
            self.faults = self.faults.saturating_add(1);
            return Err(PmFault);
        }
        self.marks.clear();
        self.unsynced = false;
        Ok(())
    }
}
