// That what passed is a run of the tree.
ghost use Rattle.std.specs.Prelude.{ℕ, List};
ghost use Rattle.ct_shell.specs.Moments.{Moment, Passes};
ghost use Rattle.ct_tree.specs.Runs.{Item, Runs};
ghost use Rattle.ct_tree.specs.Tree.{Tree};
ghost use Rattle.ct_tree.specs.declared.call.Reply.{Reply};

/// Items that had replies one after another, with a moment for each, have them as a plain tree gives them.
pub fn what_passed_is_a_run()
    ensures { (c : ℕ) (t left : Tree) (items : List Item) (replies : List Reply) (from to : Moment) → Passes c t items replies left from to
        → Runs c t items replies left }
{}
