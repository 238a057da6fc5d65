// What holds of every tree, call and run, in the words that the calls promise.
ghost use Rattle.std.specs.Prelude.{◌≡◌, ◌≢◌, ◌≤◌, ◌++◌, ℕ, List, length, None, Ok};
ghost use Rattle.ct_tree.specs.Checks.{at, bad_path};
ghost use Rattle.ct_tree.specs.Firsts.{MakesInOrder, FilesInOrder, RemovesInOrder, RenamesInOrder, ExchangesInOrder};
ghost use Rattle.ct_tree.specs.Ordered.{IsTree};
ghost use Rattle.ct_tree.specs.Resolve.{IsDir};
ghost use Rattle.ct_tree.specs.Runs.{Item, Runs};
ghost use Rattle.ct_tree.specs.Step.{Op, write, read, exchange, read_limit, refusal, step};
ghost use Rattle.ct_tree.specs.Tree.{Tree, File as FileOf};
ghost use Rattle.ct_tree.specs.declared.call.Reply.{Reply};
ghost use Rattle.ct_tree.specs.declared.call.Reply.TheVariants.{Done, Data};

/// A call leaves a tree a tree, and its root a directory.
pub fn a_step_leaves_a_tree()
    ensures tree { (t : Tree) (op : Op) → IsTree t → IsDir t → IsTree (step t op).1 }
    ensures root { (t : Tree) (op : Op) → IsTree t → IsDir t → IsDir (step t op).1 }
{}

/// What was written is read back, and every other file has the bytes that it had.
pub fn a_write_is_read_back()
    ensures same { (t : Tree) (path : List ℕ) (off : ℕ) (bytes : List ℕ) → refusal t (write path off bytes) ≡ None → length bytes ≤ read_limit →
        step (step t (write path off bytes)).1 (read path off (length bytes)) ≡ (Data bytes, (step t (write path off bytes)).1) }
    ensures others { (t : Tree) (path other : List ℕ) (off : ℕ) (bytes had : List ℕ) → IsTree t → refusal t (write path off bytes) ≡ None →
        bad_path other ≡ None → path ≢ other → at t other ≡ Ok (FileOf had) → at (step t (write path off bytes)).1 other ≡ Ok (FileOf had) }
{}

/// An exchange that is made twice is done both times, and leaves the tree as it was.
pub fn an_exchange_twice_is_nothing()
    ensures { (t : Tree) (path other : List ℕ) (off other_off len : ℕ) → IsTree t → IsDir t → refusal t (exchange path off other other_off len) ≡ None →
        step (step t (exchange path off other other_off len)).1 (exchange path off other other_off len) ≡ (Done, t) }
{}

/// Runs of two lists of items, one after the other, are the runs of the joined list.
pub fn runs_are_joined()
    ensures joined { (c : ℕ) (items more : List Item) (replies others : List Reply) (t u v : Tree) → Runs c t items replies u → Runs c u more others v →
        Runs c t (items ++ more) (replies ++ others) v }
    ensures split { (c : ℕ) (items more : List Item) (all : List Reply) (t v : Tree) → Runs c t (items ++ more) all v →
        (replies : List Reply) × (others : List Reply) × (u : Tree) × (all ≡ replies ++ others) × Runs c t items replies u × Runs c u more others v }
{}

/// Where more than one check of a call fails, the first in the order of the checks is the answer: examples of each call.
pub fn the_first_check_that_fails_decides()
    ensures makes { MakesInOrder }
    ensures files { FilesInOrder }
    ensures removes { RemovesInOrder }
    ensures renames { RenamesInOrder }
    ensures exchanges { ExchangesInOrder }
{}
