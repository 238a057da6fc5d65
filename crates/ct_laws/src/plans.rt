// How many pages calls take: two on images that are known, and each at most.
ghost use Rattle.std.specs.Prelude.{◌≡◌, ℕ, ◌+◌, ◌*◌, ◌≤◌, List, None};
ghost use Rattle.ct_base.specs.Rules.{Sound};
ghost use Rattle.ct_base.specs.View.{inode_count};
ghost use Rattle.ct_tree.specs.Lands.{files};
ghost use Rattle.ct_tree.specs.Need.{HasNeed};
ghost use Rattle.ct_tree.specs.Ordered.{IsTree};
ghost use Rattle.ct_tree.specs.Resolve.{IsDir};
ghost use Rattle.ct_tree.specs.Stands.{Stands};
ghost use Rattle.ct_tree.specs.Step.{Op, refusal};
ghost use Rattle.ct_tree.specs.Tree.{Tree};
ghost use Rattle.ct_laws.specs.Bounds.{KeepsLimits, Touches};
ghost use Rattle.ct_laws.specs.Plans.{AFirstCreateNeeds, ANewObjectNeeds, AFirstFillNeeds};

use crate::limits::CALL_PAGES;
use ct_base::LEAST_INODES;

/// A header page of each of levels 0 to 8 with nine tables of level 1 and nine of level 2, and three tables and a page for the
/// directory. The page of inode 2 is there; that of inode 64 is not, and is one more.
pub fn a_first_create_needs_31_pages()
    ensures first { AFirstCreateNeeds 31 }
    ensures inode { ANewObjectNeeds 64 32 }
{}

/// 4,096 staged pages, eight staging tables of level 1, one of level 2 and one of level 3.
pub fn a_first_fill_of_16_mebibytes_needs_4106_pages()
    ensures { AFirstFillNeeds 16777216 4106 }
{}

/// A call that no check refuses keeps to the limits, and takes at most two pages for each page of a file that it writes on, and
/// `CALL_PAGES`.
pub fn calls_take_few_pages()
    ensures keeps { (img : List ℕ) (t : Tree) (op : Op) → Sound img → LEAST_INODES ≤ inode_count img → IsTree t → IsDir t → Stands (files img) 1 t → refusal t op ≡ None
        → KeepsLimits img op }
    ensures few { (img : List ℕ) (op : Op) (need n : ℕ) → Sound img → LEAST_INODES ≤ inode_count img → KeepsLimits img op → HasNeed img op need → Touches img op n
        → need ≤ 2 * n + CALL_PAGES }
{}
