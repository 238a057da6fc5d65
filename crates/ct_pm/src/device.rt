ghost use Rattle.std.specs.Prelude.{◌≡◌, ◌*◌, ◌^◌, ◌/◌, ◌<◌, ◌≤◌, [], ◌∷◌, List, ℕ, Option, length, IfSome, OnOk, OnErr, slice_index, slice_set};
ghost use Rattle.ct_base.specs.Causes.{HasCause};
ghost use Rattle.ct_base.specs.declared.layout.TheConstants.{PAGE_WORDS};
ghost use Rattle.ct_pm.specs.declared.step.Step.TheVariants.{Store, Flush, Fence};
ghost use Rattle.ct_pm.specs.Images.{History, reads};
ghost use Rattle.ct_pm.specs.Device.{AddsStep};

use thiserror::Error;

/// The device failed at a store, a flush or a fence. That call changed no word and made no step.
#[derive(Clone, Copy, Debug, PartialEq, Eq, Error)]
#[error("the device failed")]
pub struct PmFault;

/// Persistent memory, in words of eight bytes, lines of eight words and pages of 512 words.
///
/// Words, lines and pages are numbered from 0: line `l` holds words `8 * l` to `8 * l + 7`, and page `p` holds words
/// `512 * p` to `512 * p + 511`. A store is one word, and is never torn. What was stored lasts once its line was flushed
/// and a fence was made after the flush. Until then a crash may leave it or not, each line for itself.
pub trait Pm {
    /// The words as they read.
    ghost words: { Self → List ℕ };

    /// The number of pages.
    ghost page_count: { Self → ℕ };

    /// How often the device has failed.
    ghost faults: { Self → ℕ };

    /// The start words and the steps, where the device tells them. The number of steps is its clock.
    ghost told: { Self → Option History };

    /// The number of pages, which is fixed for the device's life.
    fn pages(&self) -> u64
        ensures { result ≡ page_count self.now };

    /// The word as it reads now.
    fn load(&self, word: u64) -> u64
        requires { word < length (words self.now) }
        ensures { result ≡ slice_index (words self.now) word };

    /// Sets one word.
    ///
    /// # Errors
    ///
    /// `PmFault` where the device failed. Then no word changed and no step was made.
    fn store(&mut self, word: u64, value: u64) -> Result<(), PmFault>
        requires { word < length (words self.old) }
        ensures words { OnOk result (words self.new ≡ slice_set (words self.old) word value) }
        ensures step { AddsStep result (Store word value) (told self.old) (told self.new) }
        ensures words_err { OnErr result (words self.new ≡ words self.old) }
        ensures cause { HasCause (faults self.old) (faults self.new) result };

    /// Starts to write a line back. The next fence waits for it.
    ///
    /// # Errors
    ///
    /// `PmFault` where the device failed. Then no step was made.
    fn flush(&mut self, line: u64) -> Result<(), PmFault>
        requires { 8 * line < length (words self.old) }
        ensures words { words self.new ≡ words self.old }
        ensures step { AddsStep result (Flush line) (told self.old) (told self.new) }
        ensures cause { HasCause (faults self.old) (faults self.new) result };

    /// Waits until the lines that were flushed are written back.
    ///
    /// # Errors
    ///
    /// `PmFault` where the device failed. Then no step was made.
    fn fence(&mut self) -> Result<(), PmFault>
        ensures words { words self.new ≡ words self.old }
        ensures step { AddsStep result Fence (told self.old) (told self.new) }
        ensures cause { HasCause (faults self.old) (faults self.new) result };

    /// The words as they read are the start words after all steps.
    ghost replays: { (device : Self) → IfSome (told device) (λ h. words device ≡ reads h) };

    /// The words are those of the pages.
    ghost whole_pages: { (device : Self) → length (words device) ≡ PAGE_WORDS * page_count device };

    /// A word fits a u64.
    ghost words_fit: { (device : Self) (word : ℕ) → slice_index (words device) word < 2 ^ 64 };

    /// And so does its number.
    ghost words_count: { (device : Self) → PAGE_WORDS * page_count device ≤ 2 ^ 64 };
}
