// What the script of a dump makes.
ghost use Rattle.std.specs.Prelude.{◌≡◌, ◌≤◌, ℕ, All};
ghost use Rattle.ct_dump.specs.Dumped.{dumped};
ghost use Rattle.ct_script.specs.Script.{items};
ghost use Rattle.ct_tree.specs.Runs.{Runs};
ghost use Rattle.ct_tree.specs.Tree.{Dir, Tree, nodes, none};
ghost use Rattle.ct_tree.specs.declared.call.Reply.{Reply};
ghost use Rattle.ct_tree.specs.declared.call.Reply.TheVariants.{Done};
ghost use Rattle.ct_dump_laws.specs.Dumpable.{IsDumpable};
ghost use Rattle.ct_dump_laws.specs.Plain.{made_from, replies_from};

/// The items of the dump of a tree, whose paths are short enough, made one after another on an empty tree, make the tree again.
/// Each is a call and is done, so no line is bad and no call is refused. No other such tree has the same dump. A file system
/// with as many inodes as the tree has nodes, or more, may run the items with these replies, and has the tree then.
pub fn a_dump_makes_its_tree()
    ensures made { (t : Tree) → IsDumpable t → made_from (Dir none) (items (dumped t)) ≡ t }
    ensures only { (t : Tree) → IsDumpable t → All (λ r. r ≡ Done) (replies_from (Dir none) (items (dumped t))) }
    ensures again { (t u : Tree) → IsDumpable t → IsDumpable u → dumped t ≡ dumped u → t ≡ u }
    ensures runs { (c : ℕ) (t : Tree) → IsDumpable t → nodes t ≤ c
        → Runs c (Dir none) (items (dumped t)) (replies_from (Dir none) (items (dumped t))) t }
{}
