// What holds of every image, in the words that the calls of the file system promise.
ghost use Rattle.std.specs.Prelude.{◌≡◌, ◌≢◌, ◌↔◌, ◌-◌, ◌*◌, ◌<◌, ◌≤◌, ℕ, List, [], ◌∷◌, ◌++◌, length, Some, None, true, false};
ghost use Rattle.std.specs.Str.{bytes_eq};
ghost use Rattle.ct_base.specs.Format.{IsFormatted};
ghost use Rattle.ct_base.specs.Inode.{live_parts, free_parts};
ghost use Rattle.ct_base.specs.Named.{Leads};
ghost use Rattle.ct_base.specs.Objects.{Object};
ghost use Rattle.ct_base.specs.Plan.{Plan, first_free_number};
ghost use Rattle.ct_base.specs.Rules.{Rule, Sound, FailsFirst};
ghost use Rattle.ct_base.specs.Settled.{settled};
ghost use Rattle.ct_base.specs.Slots.{IsSlot};
ghost use Rattle.ct_base.specs.View.{view, inode_count};
ghost use Rattle.ct_tree.specs.Checks.{names};
ghost use Rattle.ct_tree.specs.Need.{HasPlan};
ghost use Rattle.ct_tree.specs.Resolve.{parent, last_name, put, cut, IsDir};
ghost use Rattle.ct_tree.specs.Runs.{MakesNode};
ghost use Rattle.ct_tree.specs.Step.{Op, create, mkdir, unlink, rmdir, rename, refusal, step};
ghost use Rattle.ct_tree.specs.Tree.{Tree, File, Dir, none, nodes};
ghost use Rattle.ct_tree.specs.Ordered.{IsTree};
ghost use Rattle.ct_tree.specs.Stands.{Stands};
ghost use Rattle.ct_tree.specs.Lands.{HasHead, Lands, files};
ghost use Rattle.ct_state.specs.Alike.{Alike, IsWhole};
ghost use Rattle.ct_state.specs.Edits.{IsFresh, IsPlace, HasTail, Detaches, Attaches, detach, attach, discard, fresh};
ghost use Rattle.ct_state.specs.Forest.{Entered, Forest, OneTree};
ghost use Rattle.ct_state.specs.Leads.{LeadsTo};
ghost use Rattle.ct_state.specs.Live.{live_count};

use ct_base::{
    DIRECTORY_KIND, FILE_KIND, LEAST_INODES, LEAST_PAGES, MOST_INODES, MOST_PAGES, PAGE_WORDS,
    PARTITION_SLOT, TABLE_ENTRIES, TOP_LEVEL,
};

/// An image lands exactly where none of the mount rules fails, and on one tree alone.
pub fn an_image_lands_on_one_tree()
    ensures sound { (img : List ℕ) (t : Tree) → Lands img t → HasHead img × Sound (settled img) }
    ensures lands { (img : List ℕ) → HasHead img → Sound (settled img) → (t : Tree) × IsTree t × Lands img t }
    ensures once { (img : List ℕ) (t u : Tree) → IsTree t → IsTree u → Lands img t → Lands img u → t ≡ u }
    ensures root { (img : List ℕ) (t : Tree) → Lands img t → IsDir t }
{}

/// Recovery of a recovered image changes nothing.
pub fn settling_twice_is_settling_once()
    ensures { (img : List ℕ) → settled (settled img) ≡ settled img }
{}

/// Images with well formed tables, equal views and equal inode counts have the same first rule that fails.
pub fn alike_images_fail_alike()
    ensures { (f g : List ℕ) (r : Rule) → Alike f g → IsWhole f → IsWhole g → FailsFirst f r ↔ FailsFirst g r }
{}

/// The image that a format makes lands on the empty tree, on a device of lawful size and with a lawful number of inodes.
pub fn a_formatted_image_is_an_empty_tree()
    ensures { (img : List ℕ) → (pages inodes : ℕ) → IsFormatted img pages inodes → LEAST_PAGES ≤ pages → pages * PAGE_WORDS ≤ length img →
        length img ≤ MOST_PAGES * PAGE_WORDS → LEAST_INODES ≤ inodes → inodes ≤ MOST_INODES → Lands img (Dir none) }
{}

/// The tree of an image has a node for each live inode, so an inode is free exactly where it has fewer nodes than there are
/// inodes. Where no partition of a level is free, each of the 502 root slots for partitions is in use by a node of its own.
pub fn a_tree_has_a_node_for_each_live_inode()
    ensures live { (img : List ℕ) (t : Tree) → Sound img → IsTree t → Stands (files img) 1 t →
        nodes t ≡ live_count (view img) (inode_count img) }
    ensures most { (img : List ℕ) (t : Tree) → Sound img → IsTree t → Stands (files img) 1 t → nodes t ≤ inode_count img }
    ensures full { (img : List ℕ) (t : Tree) → Sound img → IsTree t → Stands (files img) 1 t →
        (first_free_number (view img) (inode_count img) ≡ None) ↔ (nodes t ≡ inode_count img) }
    ensures room { (img : List ℕ) (t : Tree) → Sound img → IsTree t → Stands (files img) 1 t →
        ((number : ℕ) × (first_free_number (view img) (inode_count img) ≡ Some number)) ↔ (nodes t < inode_count img) }
    ensures crowded { (img : List ℕ) (t : Tree) → Sound img → IsTree t → Stands (files img) 1 t → (level : ℕ) → level ≤ TOP_LEVEL →
        free_parts (live_parts (view img) (inode_count img)) level ≡ [] → TABLE_ENTRIES - PARTITION_SLOT ≤ nodes t }
{}

/// A call that no check refuses has one plan and no other, where a new node finds an inode.
pub fn a_lawful_call_has_one_plan()
    ensures there { (img : List ℕ) (t : Tree) (op : Op) → Sound img → IsTree t → Stands (files img) 1 t → refusal t op ≡ None →
        (MakesNode op → nodes t < inode_count img) → (plan : Plan) × HasPlan img op plan }
    ensures once { (img : List ℕ) (op : Op) (plan other : Plan) → Sound img → HasPlan img op plan → HasPlan img op other → plan ≡ other }
{}

/// Four changes of the objects of a tree: an entry goes, and what it named is an orphan with its tree; an entry names the
/// orphan, in an empty slot or in the place of another object, which is the orphan then; an orphan without entries goes; a
/// free inode is an empty orphan.
pub fn an_entry_goes_and_comes()
    ensures detach { (fs gs : ℕ → Object) (d o i : ℕ) (xs : List (List ℕ)) (x : List ℕ) (t : Tree) → OneTree fs t → Entered fs d o i xs x →
        Detaches fs gs d o → (u : Tree) × LeadsTo t (xs ++ (x ∷ [])) u × Forest gs i (cut t (xs ++ (x ∷ []))) u }
    ensures attach { (fs gs : ℕ → Object) (d o i : ℕ) (xs : List (List ℕ)) (x : List ℕ) (t u : Tree) → Forest fs i t u → i ≢ 1 →
        Leads fs 1 xs d → (IsSlot (fs d) o → ⊥) → IsFresh (fs d) x → Attaches fs gs d o i x → OneTree gs (put t (xs ++ (x ∷ [])) u) }
    ensures swap { (fs gs : ℕ → Object) (d o i j : ℕ) (xs : List (List ℕ)) (x : List ℕ) (t u : Tree) → Forest fs i t u → i ≢ 1 →
        Entered fs d o j xs x → Attaches fs gs d o i x →
        (w : Tree) × LeadsTo t (xs ++ (x ∷ [])) w × Forest gs j (put t (xs ++ (x ∷ [])) u) w }
    ensures discard { (fs : ℕ → Object) (i : ℕ) (t u : Tree) → Forest fs i t u → i ≢ 1 → ((k : ℕ) → IsSlot (fs i) k → ⊥) → OneTree (discard fs i) t }
    ensures fresh { (fs : ℕ → Object) (i : ℕ) (t : Tree) → OneTree fs t → (fs i).kind ≡ 0 →
        Forest (fresh fs i FILE_KIND) i t (File []) × Forest (fresh fs i DIRECTORY_KIND) i t (Dir none) }
{}

/// The calls on names, where none is refused, are compositions of the four, and the objects stand for the tree of the step.
pub fn calls_on_names_are_compositions()
    ensures create { (path : List ℕ) (fs : ℕ → Object) (d o i : ℕ) (t : Tree) → OneTree fs t → (fs i).kind ≡ 0 → i < 4294967296 →
        Leads fs 1 (parent (names path)) d → IsPlace (fs d) o → (IsSlot (fs d) o → ⊥) → IsFresh (fs d) (last_name (names path)) →
        refusal t (create path) ≡ None → OneTree (attach (fresh fs i FILE_KIND) d o i (last_name (names path))) (step t (create path)).1 }
    ensures mkdir { (path : List ℕ) (fs : ℕ → Object) (d o i : ℕ) (t : Tree) → OneTree fs t → (fs i).kind ≡ 0 → i < 4294967296 →
        Leads fs 1 (parent (names path)) d → IsPlace (fs d) o → (IsSlot (fs d) o → ⊥) → IsFresh (fs d) (last_name (names path)) →
        refusal t (mkdir path) ≡ None → OneTree (attach (fresh fs i DIRECTORY_KIND) d o i (last_name (names path))) (step t (mkdir path)).1 }
    ensures unlink { (path : List ℕ) (fs : ℕ → Object) (d o i : ℕ) (t : Tree) → OneTree fs t →
        Entered fs d o i (parent (names path)) (last_name (names path)) → HasTail (fs d) → refusal t (unlink path) ≡ None →
        OneTree (discard (detach fs d o) i) (step t (unlink path)).1 }
    ensures rmdir { (path : List ℕ) (fs : ℕ → Object) (d o i : ℕ) (t : Tree) → OneTree fs t →
        Entered fs d o i (parent (names path)) (last_name (names path)) → HasTail (fs d) → refusal t (rmdir path) ≡ None →
        OneTree (discard (detach fs d o) i) (step t (rmdir path)).1 }
    ensures rename_same { (path to : List ℕ) (fs : ℕ → Object) (t : Tree) → OneTree fs t → bytes_eq path to ≡ true →
        refusal t (rename path to) ≡ None → OneTree fs (step t (rename path to)).1 }
    ensures rename_new { (path to : List ℕ) (fs : ℕ → Object) (d o i k s : ℕ) (t : Tree) → OneTree fs t →
        Entered fs d o i (parent (names path)) (last_name (names path)) → i < 4294967296 → HasTail (fs d) →
        Leads fs 1 (parent (names to)) k → IsPlace (fs k) s → bytes_eq path to ≡ false → refusal t (rename path to) ≡ None →
        IsFresh (fs k) (last_name (names to)) → (IsSlot (fs k) s → (k ≡ d) × (s ≡ o)) →
        OneTree (attach (detach fs d o) k s i (last_name (names to))) (step t (rename path to)).1 }
    ensures rename_over { (path to : List ℕ) (fs : ℕ → Object) (d o i j k s : ℕ) (t : Tree) → OneTree fs t →
        Entered fs d o i (parent (names path)) (last_name (names path)) → i < 4294967296 → HasTail (fs d) → HasTail (fs k) →
        bytes_eq path to ≡ false → refusal t (rename path to) ≡ None → Entered fs k s j (parent (names to)) (last_name (names to)) →
        OneTree (discard (attach (detach fs d o) k s i (last_name (names to))) j) (step t (rename path to)).1 }
{}
