ghost use Rattle.std.proofs.Common.{arith};
ghost use Rattle.std.specs.Prelude.{◌≡◌, ◌≤◌, ◌*◌, ◌<◌, ◌+◌, ◌^◌, ◌/◌, ◌∷◌, ◌++◌, [], ℕ, Ok, Some, false, length, replicate, IfOk, OnOk, OnErr, slice_get, slice_index, slice_index_or, slice_set, if◌then◌else◌};
ghost use Rattle.ct_base.specs.Causes.{HasCause};
ghost use Rattle.ct_pm.specs.Images.{words_after};
ghost use Rattle.pm_outbox.specs.Asked.{asked, is_marked};
ghost use Rattle.ct_base.specs.declared.layout.TheConstants.{MOST_PAGES, PAGE_WORDS};
ghost use Rattle.pm_outbox.specs.declared.ask.Ask.TheVariants as ask;

use crate::ask::Ask;
use crate::lines::line_words;
use crate::past::Past;
use ct_base::{MOST_PAGES, NoMemory, PAGE_WORDS};
use ct_pm::{Pm, PmFault, Step};
use std::alloc::Global;

/// Words in memory, with an outbox. A line is marked where a word of it has changed since it was flushed last: a flush of
/// another line asks nothing.
#[derive(Drop)]
pub struct OutboxPm {
    words: Vec<u64>,
    pages: u64,
    marks: Vec<bool>,
    asks: Vec<Ask>,
    faults: u64,
    past: Past,
    ghost replays: { words.items ≡ words_after past.past.start past.past.steps },
    ghost asked: { asks.items ≡ asked past.past.start past.past.steps },
    ghost whole_pages: { length words.items ≡ PAGE_WORDS * pages },
    ghost marks_size: { length words.items ≡ 8 * length marks.items },
    ghost marked: { (line : ℕ) → line < length marks.items → slice_index_or marks.items line false ≡ is_marked past.past.start past.past.steps line },
    ghost words_fit: { (word : ℕ) → slice_index words.items word < 2 ^ 64 },
    ghost few: { pages ≤ MOST_PAGES },
}

impl OutboxPm {
    ghost use Rattle.std.specs.Prelude.{List, reverse};
    ghost use Rattle.ct_pm.specs.Images.{IsSettled};
    ghost use Rattle.pm_outbox.specs.Medium.{MayHold};
    ghost use Rattle.pm_outbox.specs.Outbox.{faults_of, history, outbox_of, pages_of, words_of};

    /// The device over words that the medium holds, with nothing asked.
    pub fn over(alloc: Global, words: Vec<u64>, pages: u64) -> Result<OutboxPm, NoMemory>
        requires size { length words.items ≡ PAGE_WORDS * pages }
        requires few { pages ≤ MOST_PAGES }
        ensures words { IfOk result (λ device. words_of device ≡ words.items) }
        ensures pages { IfOk result (λ device. pages_of device ≡ pages) }
        ensures history { IfOk result (λ device. history device ≡ record { start = words.items; steps = [] }) }
        ensures outbox { IfOk result (λ device. outbox_of device ≡ []) }
        ensures faults { IfOk result (λ device. faults_of device ≡ 0) }
        ensures settled { IfOk result (λ device. IsSettled (history device)) }
    {
        let Ok(marks) = vec![in alloc; false; words.len() / 8] else {
            return Err(NoMemory);
        };
        Ok(OutboxPm::unmarked(alloc, words, pages, marks))
    }

    // The device over words that the medium holds, with no line marked.
    fn unmarked(alloc: Global, words: Vec<u64>, pages: u64, marks: Vec<bool>) -> OutboxPm
        requires size { length words.items ≡ PAGE_WORDS * pages }
        requires few { pages ≤ MOST_PAGES }
        requires marks { marks.items ≡ replicate (length words.items / 8) false }
        ensures words { words_of result ≡ words.items }
        ensures pages { pages_of result ≡ pages }
        ensures history { history result ≡ record { start = words.items; steps = [] } }
        ensures outbox { outbox_of result ≡ [] }
        ensures faults { faults_of result ≡ 0 }
        ensures settled { IsSettled (history result) }
    {
        let past = Past::start(&words);
        OutboxPm {
            words,
            pages,
            marks,
            asks: Vec::new(alloc),
            faults: 0,
            past,
        }
    }

    /// How much was asked.
    pub fn asked(&self) -> usize
        ensures { result ≡ length (asked (history self.now).start (history self.now).steps) }
    {
        self.asks.len()
    }

    /// What was asked at a place, counted from 0.
    pub fn ask_at(&self, place: usize) -> Option<Ask>
        ensures { result ≡ slice_get (asked (history self.now).start (history self.now).steps) place }
    {
        self.asks.get(place).copied()
    }

    /// Begins the history again at the words as they read, with nothing asked. The medium has seen all that was asked.
    pub fn restart(&mut self)
        requires settled { IsSettled (history self.old) }
        ensures history { history self.new ≡ record { start = words_of self.old; steps = [] } }
        ensures words { words_of self.new ≡ words_of self.old }
        ensures pages { pages_of self.new ≡ pages_of self.old }
        ensures faults { faults_of self.new ≡ faults_of self.old }
        ensures outbox { outbox_of self.new ≡ [] }

        // So the medium holds the words at which the history begins.
        ensures held { (image : List ℕ) → MayHold (history self.old).start (reverse (asked (history self.old).start (history self.old).steps)) image → image ≡ words_of self.old }
        ensures settled { IsSettled (history self.new) }
    {
        self.past = Past::start(&self.words);
        self.asks.clear();
    }
}

impl Pm for OutboxPm {
    ghost use Rattle.ct_pm.specs.declared.step.Step.TheVariants.{Store, Flush, Fence};
    ghost use Rattle.ct_pm.specs.Device.{AddsStep};
    ghost use Rattle.pm_outbox.specs.Outbox.{faults_of, history, outbox_of, reads_otherwise, words_of};
    ghost use Rattle.pm_outbox.specs.Lines.{line_at};

    ghost words = { λ device. device.words.items };

    ghost page_count = { λ device. device.pages };

    ghost faults = { λ device. device.faults };

    ghost told = { λ device. Some device.past.past };

    ghost replays = { λ device. device.replays };

    ghost whole_pages = { λ device. device.whole_pages };

    ghost words_fit = { λ device. device.words_fit };

    ghost words_count = { λ device. Prim.omega (arith, device.few) };

    fn pages(&self) -> u64 {
        self.pages
    }

    fn load(&self, word: u64) -> u64 {
        self.words[word as usize]
    }

    fn store(&mut self, word: u64, value: u64) -> Result<(), PmFault>
        requires { word < length (words_of self.old) }
        ensures words { words_of self.new ≡ slice_set (words_of self.old) word value }
        ensures faults { faults_of self.new ≡ faults_of self.old }
        ensures ok { result ≡ Ok tt }
        ensures outbox { outbox_of self.new ≡ outbox_of self.old }
        ensures step { AddsStep result (Store word value) (Some (history self.old)) (Some (history self.new)) }
    {
        let past = Past::stepped(&self.past, &Step::Store { word, value });
        if self.words[word as usize] != value {
            self.marks[word as usize / 8] = true;
        }
        self.words[word as usize] = value;
        self.past = past;
        Ok(())
    }

    fn flush(&mut self, line: u64) -> Result<(), PmFault>
        requires { 8 * line < length (words_of self.old) }
        ensures words { words_of self.new ≡ words_of self.old }
        ensures step { AddsStep result (Flush line) (Some (history self.old)) (Some (history self.new)) }
        ensures cause { HasCause (faults_of self.old) (faults_of self.new) result }
        ensures asked { OnOk result (outbox_of self.new ≡ (if reads_otherwise self.old line then outbox_of self.old ++ ask.Write line (line_at (words_of self.old) line) ∷ [] else outbox_of self.old)) }
        ensures kept { OnErr result (outbox_of self.new ≡ outbox_of self.old) }
    {
        if self.marks[line as usize] {
            let words = line_words(&self.words, line);
            if self.asks.push(Ask::Write { line, words }).is_err() {
                self.faults = self.faults.saturating_add(1);
                return Err(PmFault);
            }
            self.marks[line as usize] = false;
        }
        self.past = Past::stepped(&self.past, &Step::Flush { line });
        Ok(())
    }

    fn fence(&mut self) -> Result<(), PmFault>
        ensures words { words_of self.new ≡ words_of self.old }
        ensures step { AddsStep result Fence (Some (history self.old)) (Some (history self.new)) }
        ensures cause { HasCause (faults_of self.old) (faults_of self.new) result }
        ensures asked { OnOk result (outbox_of self.new ≡ outbox_of self.old ++ ask.Sync ∷ []) }
        ensures kept { OnErr result (outbox_of self.new ≡ outbox_of self.old) }
    {
        if self.asks.push(Ask::Sync).is_err() {
            self.faults = self.faults.saturating_add(1);
            return Err(PmFault);
        }
        self.past = Past::stepped(&self.past, &Step::Fence);
        Ok(())
    }
}
