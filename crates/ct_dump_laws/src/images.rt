// The trees of images, and their dumps.
ghost use Rattle.std.specs.Prelude.{◌≡◌, ℕ, List, true};
ghost use Rattle.ct_base.specs.View.{inode_count};
ghost use Rattle.ct_dump.specs.Dumped.{are_short, dumped, placed_below};
ghost use Rattle.ct_script.specs.Script.{items};
ghost use Rattle.ct_tree.specs.Lands.{Lands};
ghost use Rattle.ct_tree.specs.Ordered.{IsTree};
ghost use Rattle.ct_tree.specs.Runs.{Runs};
ghost use Rattle.ct_tree.specs.Tree.{Dir, Tree, none};
ghost use Rattle.ct_dump_laws.specs.Dumpable.{HoldsBytes, IsDumpable, IsWithinLimit};
ghost use Rattle.ct_dump_laws.specs.Plain.{replies_from};

/// The files and the names of an image's tree hold bytes, and no file is longer than a call can make it. So the tree, with its
/// entries in order, is one that a dump makes again where its paths are short enough; and so it is on every file system with
/// as many inodes as the image.
pub fn an_image_holds_bytes()
    ensures bytes { (img : List ℕ) (t : Tree) → Lands img t → HoldsBytes t }
    ensures sizes { (img : List ℕ) (t : Tree) → Lands img t → IsWithinLimit t }
    ensures dumpable { (img : List ℕ) (t : Tree) → Lands img t → IsTree t → are_short (placed_below t) ≡ true → IsDumpable t }
    ensures runs { (img : List ℕ) (t : Tree) → Lands img t → IsTree t → are_short (placed_below t) ≡ true
        → Runs (inode_count img) (Dir none) (items (dumped t)) (replies_from (Dir none) (items (dumped t))) t }
{}
