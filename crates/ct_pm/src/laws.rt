// What holds of every history.
ghost use Rattle.std.specs.Prelude.{◌≡◌, ◌⊎◌, [], ◌∷◌, ℕ, Bool, List, Option, Some, Contains, IsTrue, length, slice_set, ◌+◌, ◌/◌, ◌<◌, ◌≤◌};
ghost use Rattle.ct_pm.specs.declared.step.Step.TheVariants.{Store, Flush, Fence};
ghost use Rattle.ct_pm.specs.Images.{History, at, first, reads, SameLine, IsAllowed, IsSettled, IsWrittenBack};
ghost use Rattle.ct_pm.specs.Device.{with_steps, LeavesOnly, MakesOnly, QuietOff, StoresOver};

/// After a fence, a line that was written back before it shows what it reads. So where every line was written back,
/// nothing is pending.
pub fn a_fence_holds_lines()
    ensures line { (h : History) (line : ℕ) (image : List ℕ) → IsWrittenBack line h →
        IsAllowed (record { start = h.start; steps = Fence ∷ h.steps }) image → SameLine line image (reads h) }
    ensures all { (h : History) → ((line : ℕ) → IsWrittenBack line h) → IsSettled (record { start = h.start; steps = Fence ∷ h.steps }) }
{}

/// Stores to one line appear in their order: an image that a crash may leave after a store is one from before it, or one from
/// before it that shows in the store's line what read there, with the word set. So with the word it has all that was stored to
/// the line before.
pub fn stores_to_a_line_appear_in_order()
    ensures { (h : History) (word value : ℕ) (image : List ℕ) → word < length h.start → IsAllowed (record { start = h.start; steps = Store word value ∷ h.steps }) image →
        IsAllowed h image ⊎ ((base : List ℕ) × IsAllowed h base × SameLine (word / 8) base (reads h) × (image ≡ slice_set base word value)) }
{}

/// The words as they read are an image that a crash may leave. So what holds of each image holds of them.
pub fn what_reads_is_allowed()
    ensures { (h : History) → IsAllowed h (reads h) }
{}

/// A step is quiet off the word that it stores, and two stretches that are quiet off the same words make one.
pub fn steps_are_quiet()
    ensures store { (h : History) (word value : ℕ) → word < length h.start → QuietOff (λ w. w ≡ word) (Some h) (with_steps (Store word value ∷ []) (Some h)) }
    ensures flush { (told : Option History) (line : ℕ) → QuietOff (λ _. ⊥) told (with_steps (Flush line ∷ []) told) }
    ensures fence { (told : Option History) → QuietOff (λ _. ⊥) told (with_steps (Fence ∷ []) told) }
    ensures then { (moved : List ℕ) (old mid new : Option History) → QuietOff (Contains moved) old mid → QuietOff (Contains moved) mid new → QuietOff (Contains moved) old new }
{}

/// The words that read before a step are an image that a crash may leave then. So where each image of a stretch passes one
/// test and each store another, each store that is made passes its test over words that pass theirs. Two such stretches make
/// one, and a store is made over what reads at the moment before it.
pub fn stores_are_made_over_images()
    ensures over { (holds : List ℕ → Bool) (gives : ℕ → ℕ → Bool) (old new : Option History) → LeavesOnly old new (λ image. IsTrue (holds image)) →
        MakesOnly (λ word value. IsTrue (gives word value)) old new → StoresOver (λ words word value. IsTrue (holds words) × IsTrue (gives word value)) old new }
    ensures then { (may : List ℕ → ℕ → ℕ → Bool) (old mid new : Option History) → StoresOver (λ words word value. IsTrue (may words word value)) old mid →
        StoresOver (λ words word value. IsTrue (may words word value)) mid new → StoresOver (λ words word value. IsTrue (may words word value)) old new }
    ensures at { (may : List ℕ → ℕ → ℕ → Bool) (past h : History) (moment word value : ℕ) → StoresOver (λ words word value. IsTrue (may words word value)) (Some past) (Some h) →
        length past.steps ≤ moment → first (moment + 1) h.steps ≡ Store word value ∷ first moment h.steps → IsTrue (may (reads (at moment h)) word value) }
{}
