// Laws on short lists of wants. They are proved, and do nothing when they are called.
ghost use Rattle.std.specs.Prelude.{◌≡◌, ℕ, ◌+◌, ◌*◌, ◌/◌, ◌^◌, ◌<◌, ◌≤◌, List, All};
ghost use Rattle.ct_base.specs.declared.inode.Inode.{Inode};
ghost use Rattle.ct_base.specs.Exchange.{HasTables};
ghost use Rattle.ct_base.specs.Inode.{part};
ghost use Rattle.ct_base.specs.Pieces.{pieces};
ghost use Rattle.ct_base.specs.Plan.{exchange_plan, side_wants, stage, touched, truncate_plan, write_plan};
ghost use Rattle.ct_base.specs.Wants.{is_wanted, missing};
ghost use Rattle.ct_plan.specs.Few.{AreMet, IsAligned, few_both_wants, few_exchange_wants, few_truncate_plan, few_wants, few_write_plan, few_write_wants};

use ct_base::{PAGE_BYTES, SLOT_SPAN, TABLE_ENTRIES};

/// Three wants ask for the cells that one side's pieces ask for.
pub fn three_wants_stand_for_a_side()
    ensures { (a b n d x : ℕ) → 1 ≤ n → is_wanted (side_wants a (pieces a b n)) d x ≡ is_wanted (few_wants a b n) d x }
{}

/// As much is missing of the short plan of a write as of the long one, on each image.
pub fn short_plans_of_writes_need_as_much()
    ensures { (img : List ℕ) → (b : ℕ → ℕ) → (count : ℕ) → (f : Inode) → (off len : ℕ) → IsAligned f → off + len ≤ SLOT_SPAN
        → missing img (write_plan b count f off len).wants ≡ missing img (few_write_plan b count f off len).wants }
{}

/// And of a truncation.
pub fn short_plans_of_truncations_need_as_much()
    ensures { (img : List ℕ) → (b : ℕ → ℕ) → (count : ℕ) → (f : Inode) → (len : ℕ) → (len < f.size → len / PAGE_BYTES < 8 ^ f.level)
        → missing img (truncate_plan b count f len).wants ≡ missing img (few_truncate_plan b count f len).wants }
{}

/// And of an exchange of at least a page.
pub fn short_plans_of_exchanges_need_as_much()
    ensures { (img : List ℕ) → (f : Inode) → (off : ℕ) → (g : Inode) → (other len : ℕ) → PAGE_BYTES ≤ len
        → missing img (exchange_plan f off g other len).wants ≡ missing img (few_exchange_wants f off g other len) }
{}

/// Where a short list is met, each piece has its table on both sides.
pub fn met_lists_have_the_tables()
    ensures exchange { (img : List ℕ) → (a b n : ℕ) → 1 ≤ n → a + n ≤ TABLE_ENTRIES ^ 4 → b + n ≤ TABLE_ENTRIES ^ 4 → AreMet img (few_both_wants a b n) → All (HasTables img a b) (pieces a b n) }
    ensures write { (img : List ℕ) → (f : Inode) → (off len : ℕ)
        → (f.base + off) / PAGE_BYTES + touched off len ≤ TABLE_ENTRIES ^ 4 → stage (f.base + off) / PAGE_BYTES + touched off len ≤ TABLE_ENTRIES ^ 4
        → AreMet img (few_write_wants f off len (part f))
        → All (HasTables img ((f.base + off) / PAGE_BYTES) (stage (f.base + off) / PAGE_BYTES)) (pieces ((f.base + off) / PAGE_BYTES) (stage (f.base + off) / PAGE_BYTES) (touched off len)) }
{}

/// A write takes at most two pages for each page that it touches, and 128.
pub fn writes_take_few_pages()
    ensures { (img : List ℕ) → (b : ℕ → ℕ) → (count : ℕ) → (f : Inode) → (off len : ℕ) → IsAligned f → off + len ≤ SLOT_SPAN
        → missing img (write_plan b count f off len).wants ≤ 2 * touched off len + 128 }
{}
