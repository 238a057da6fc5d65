//! Laws of images and their tables: cells, and the changes that a step of work may make of them. It has no calls of use at
//! run time: each function states a law in its contract, and the lemmas that crates above cite stand in proofs/.
#![tactic(auto)]

ghost use Rattle.std.specs.Prelude.{◌≡◌, ◌+◌, ◌*◌, ◌/◌, ◌^◌, ◌<◌, ◌≤◌, ℕ, suc, true, List};
ghost use Rattle.ct_base.specs.Exchange.{partner, Apart};
ghost use Rattle.ct_base.specs.Free.{IsFilePage};
ghost use Rattle.ct_base.specs.Walk.{walk, byte, page_at, page_count, AreTables, Keeps};
ghost use Rattle.ct_base.specs.Wants.{Want, is_wanted, missing};
ghost use Rattle.ct_image.specs.Changes.{Links, Unreached};

use ct_base::{ADDRESS_END, FIRST_PAGE, PAGE_BYTES, TABLE_ENTRIES};

/// The walk at an address is the page of the cell of its virtual page.
pub fn walks_are_cells()
    ensures { (img : List ℕ) → (v : ℕ) → v < ADDRESS_END → walk img v ≡ page_at img 4 (v / PAGE_BYTES) }
{}

/// A page under a live file is one of those from the first that may be handed out to the page count less 1.
pub fn file_pages_are_pages()
    ensures { (img : List ℕ) → (page : ℕ) → IsFilePage img page → (FIRST_PAGE ≤ page) × (page < page_count img) }
{}

/// A page that is linked leaves the tables well formed, and each byte what it was.
pub fn links_keep_bytes()
    ensures tables { (old new : List ℕ) → (d x i page : ℕ) → Links old new d x i page → AreTables new }
    ensures bytes { (old new : List ℕ) → (d x i page : ℕ) → Links old new d x i page → (v : ℕ) → v < ADDRESS_END → byte new v ≡ byte old v }
{}

/// A page that is linked where it is wanted takes exactly one from what is missing.
pub fn links_are_counted()
    ensures { (old new : List ℕ) → (d x i page : ℕ) → (wants : List Want) → Links old new d x i page → is_wanted wants (suc d) (x * TABLE_ENTRIES + i) ≡ true → missing new wants + 1 ≡ missing old wants }
{}

/// What is written on a page that no cell has changes no table and no byte.
pub fn unreached_pages_are_free()
    ensures { (old new : List ℕ) → (page n : ℕ) → Unreached old new page → Keeps old new n }
{}

/// Exchanging two ranges twice changes nothing.
pub fn exchanges_undo_themselves()
    ensures { (a b n p : ℕ) → Apart a b n → partner a b n (partner a b n p) ≡ p }
{}
