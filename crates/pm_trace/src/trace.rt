ghost use Rattle.std.proofs.Common.{arith};
ghost use Rattle.std.specs.Prelude.{List, ◌≡◌, ◌≢◌, ◌≤◌, ◌*◌, ◌+◌, ◌/◌, ◌<◌, ◌^◌, ◌%◌, ◌⊎◌, ◌↔◌, ℕ, Some, [], ◌∷◌, ◌++◌, length, reverse, OnOk, OnErr, IfOk, IsErr, IsTrue, Contains, slice_index, slice_get, vec_capacity};
ghost use Rattle.ct_pm.specs.Images.{after, words_after};
ghost use Rattle.ct_base.specs.Causes.{HasCause};
ghost use Rattle.ct_base.specs.declared.layout.TheConstants.{MOST_PAGES, PAGE_WORDS};
ghost use Rattle.pm_trace.specs.Trace.{IsWithin};
ghost use Rattle.pm_trace.specs.declared.trace.TheConstants.{MOST_STEPS};

use crate::crash::chosen_image;
use ct_base::{MOST_PAGES, NoMemory, PAGE_WORDS};
use ct_pm::{Pm, PmFault, Step};
use std::alloc::Global;

/// The most steps that a device has room for.
pub const MOST_STEPS: u64 = 16_777_216;

/// A device of persistent memory that keeps its start words and every step.
///
/// Its calls of `store`, `flush` and `fence` are numbered together from 0. One fails exactly where its number is listed or
/// the room for steps is full.
#[derive(Drop)]
pub struct TracePm {
    start: Vec<u64>,
    words: Vec<u64>,
    steps: Vec<Step>,
    room: u64,
    calls: u64,
    faults: u64,
    fail_at: Vec<u64>,
    pages: u64,
    ghost replays: { words.items ≡ words_after start.items (reverse steps.items) },
    ghost whole_pages: { length words.items ≡ PAGE_WORDS * pages },
    ghost start_whole: { length start.items ≡ PAGE_WORDS * pages },
    ghost words_fit: { (word : ℕ) → slice_index words.items word < 2 ^ 64 },
    ghost few: { pages ≤ MOST_PAGES },
    ghost small_room: { room ≤ MOST_STEPS },
    ghost within: { length steps.items ≤ room },
    ghost reserved: { room ≤ vec_capacity steps },
}

impl TracePm {
    ghost use Rattle.ct_pm.specs.Images.{IsAllowed, IsSettled};
    ghost use Rattle.pm_trace.specs.Crash.{IsChosen, AreSteps};
    ghost use Rattle.pm_trace.specs.Meaning.{history, words_of, room_of, listed, calls_of, faults_of, CountsCall, IsToFail};

    /// A device that reads as these words. It has room for `room` steps, and the calls whose numbers stand in `fail_at`
    /// fail.
    ///
    /// # Errors
    ///
    /// `NoMemory` where memory ran out.
    pub fn new(
        alloc: Global,
        words: Vec<u64>,
        room: u64,
        fail_at: Vec<u64>,
    ) -> Result<TracePm, NoMemory>
        requires whole { length words.items % PAGE_WORDS ≡ 0 }
        requires few { length words.items ≤ MOST_PAGES * PAGE_WORDS }
        requires room { room ≤ MOST_STEPS }
        ensures told { IfOk result (λ device. history device ≡ record { start = words.items; steps = [] }) }
        ensures words { IfOk result (λ device. words_of device ≡ words.items) }
        ensures settled { IfOk result (λ device. IsSettled (history device)) }
        ensures set_up { IfOk result (λ device. (room_of device ≡ room) × (listed device ≡ fail_at.items) × (calls_of device ≡ 0) × (faults_of device ≡ 0)) }
    {
        let Ok(start) = words.to_vec(alloc) else {
            return Err(NoMemory);
        };
        let Ok(steps) = Vec::with_capacity(alloc, room as usize) else {
            return Err(NoMemory);
        };
        let pages = words.len() as u64 / PAGE_WORDS;
        Ok(TracePm {
            start,
            words,
            steps,
            room,
            calls: 0,
            faults: 0,
            fail_at,
            pages,
        })
    }

    /// The number of steps so far, which is the number of this moment.
    pub fn clock(&self) -> u64
        ensures { result ≡ length (history self.now).steps }
    {
        self.steps.len() as u64
    }

    /// Step `i + 1`, the first step made being step 1.
    pub fn step_at(&self, i: u64) -> Step
        requires { i < length (history self.now).steps }
        ensures { slice_get (reverse (history self.now).steps) i ≡ Some result }
    {
        self.steps[i as usize]
    }

    /// The words as they read.
    pub fn into_words(self) -> Vec<u64>
        ensures { result.items ≡ words_of self }
    {
        self.words
    }

    /// A device of the same room that starts as a crash now may leave this one: each line as it was after the step that
    /// `choice` has for it. A choice below the line's floor is raised to it, and one above the clock is lowered. A line
    /// past the end of `choice` is as it is now.
    ///
    /// # Errors
    ///
    /// `NoMemory` where memory ran out.
    pub fn crash(
        &self,
        alloc: Global,
        choice: &[u64],
        fail_at: Vec<u64>,
    ) -> Result<TracePm, NoMemory>
        ensures image { IfOk result (λ device. IsChosen choice.now (history self.now) (history device).start) }
        ensures allowed { IfOk result (λ device. IsAllowed (history self.now) (history device).start) }
        ensures every { (image : List ℕ) → IsAllowed (history self.now) image → (picks : List ℕ) × AreSteps picks (history self.now) × IsChosen picks (history self.now) image }
        ensures one { (a b : List ℕ) → IsChosen choice.now (history self.now) a → IsChosen choice.now (history self.now) b → a ≡ b }
        ensures no_steps { IfOk result (λ device. (history device).steps ≡ []) }
        ensures settled { IfOk result (λ device. IsSettled (history device)) }
        ensures words { IfOk result (λ device. words_of device ≡ (history device).start) }
        ensures set_up { IfOk result (λ device. (room_of device ≡ room_of self.now) × (listed device ≡ fail_at.items) × (calls_of device ≡ 0) × (faults_of device ≡ 0)) }
    {
        match chosen_image(alloc, &self.start, &self.steps, choice) {
            Ok(image) => TracePm::new(alloc, image, self.room, fail_at),
            Err(_) => Err(NoMemory),
        }
    }

    // Makes the step, or fails.
    fn make(&mut self, step: Step) -> Result<(), PmFault>
        requires { IsWithin self.old.words.items step }
        ensures start { self.new.start.items ≡ self.old.start.items }
        ensures words { OnOk result (self.new.words.items ≡ after self.old.words.items step) }
        ensures steps { OnOk result (self.new.steps.items ≡ self.old.steps.items ++ step ∷ []) }
        ensures words_err { OnErr result (self.new.words.items ≡ self.old.words.items) }
        ensures steps_err { OnErr result (self.new.steps.items ≡ self.old.steps.items) }
        ensures cause { HasCause self.old.faults self.new.faults result }
        ensures fails { IsErr result ↔ IsToFail self.old }
        ensures call { CountsCall self.old self.new }
    {
        let fails = self.is_to_fail();
        self.calls = self.calls.saturating_add(1);
        if fails {
            self.faults = self.faults.saturating_add(1);
            return Err(PmFault);
        }
        self.add(step);
        Ok(())
    }

    // The next call fails.
    fn is_to_fail(&self) -> bool
        ensures { IsTrue result ↔ IsToFail self.now }
    {
        self.fail_at.contains(&self.calls) || self.steps.len() as u64 == self.room
    }

    // Adds a step for which there is room.
    fn add(&mut self, step: Step)
        requires within { IsWithin self.old.words.items step }
        requires room { length self.old.steps.items ≢ room_of self.old }
        ensures start { self.new.start.items ≡ self.old.start.items }
        ensures words { self.new.words.items ≡ after self.old.words.items step }
        ensures steps { self.new.steps.items ≡ self.old.steps.items ++ step ∷ [] }
        ensures counts { (calls_of self.new ≡ calls_of self.old) × (faults_of self.new ≡ faults_of self.old) }
        ensures set_up { (listed self.new ≡ listed self.old) × (room_of self.new ≡ room_of self.old) }
    {
        self.steps.push(step).unwrap();
        if let Step::Store { word, value } = step {
            self.words[word as usize] = value;
        }
    }
}

impl Pm for TracePm {
    ghost use Rattle.ct_pm.specs.declared.step.Step.TheVariants.{Store, Flush, Fence};
    ghost use Rattle.ct_pm.specs.Device.{AddsStep};
    ghost use Rattle.std.specs.Prelude.{slice_set};
    ghost use Rattle.pm_trace.specs.Meaning.{history, words_of, faults_of, CountsCall, IsToFail};

    ghost words = { λ device. device.words.items };

    ghost page_count = { λ device. device.pages };

    ghost faults = { λ device. device.faults };

    ghost told = { λ device. Some (record { start = device.start.items; steps = reverse device.steps.items }) };

    ghost replays = { λ device. device.replays };

    ghost whole_pages = { λ device. device.whole_pages };

    ghost words_fit = { λ device. device.words_fit };

    ghost words_count = { λ device. Prim.omega (arith, device.few) };

    fn pages(&self) -> u64 {
        self.pages
    }

    fn load(&self, word: u64) -> u64 {
        self.words[word as usize]
    }

    fn store(&mut self, word: u64, value: u64) -> Result<(), PmFault>
        requires { word < length (words_of self.old) }
        ensures words { OnOk result (words_of self.new ≡ slice_set (words_of self.old) word value) }
        ensures step { AddsStep result (Store word value) (Some (history self.old)) (Some (history self.new)) }
        ensures words_err { OnErr result (words_of self.new ≡ words_of self.old) }
        ensures cause { HasCause (faults_of self.old) (faults_of self.new) result }
        ensures fails { IsErr result ↔ IsToFail self.old }
        ensures call { CountsCall self.old self.new }
    {
        self.make(Step::Store { word, value })
    }

    fn flush(&mut self, line: u64) -> Result<(), PmFault>
        ensures words { words_of self.new ≡ words_of self.old }
        ensures step { AddsStep result (Flush line) (Some (history self.old)) (Some (history self.new)) }
        ensures cause { HasCause (faults_of self.old) (faults_of self.new) result }
        ensures fails { IsErr result ↔ IsToFail self.old }
        ensures call { CountsCall self.old self.new }
    {
        self.make(Step::Flush { line })
    }

    fn fence(&mut self) -> Result<(), PmFault>
        ensures words { words_of self.new ≡ words_of self.old }
        ensures step { AddsStep result Fence (Some (history self.old)) (Some (history self.new)) }
        ensures cause { HasCause (faults_of self.old) (faults_of self.new) result }
        ensures fails { IsErr result ↔ IsToFail self.old }
        ensures call { CountsCall self.old self.new }
    {
        self.make(Step::Fence)
    }
}
