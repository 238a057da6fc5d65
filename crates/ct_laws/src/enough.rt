// How large a device a script needs.
ghost use Rattle.std.specs.Prelude.{ℕ, ◌+◌, ◌≤◌, List};
ghost use Rattle.ct_base.specs.Format.{IsFormatted};
ghost use Rattle.ct_base.specs.Free.{HasFreePages};
ghost use Rattle.ct_shell.specs.Moments.{Moment, Passes, RestsOn};
ghost use Rattle.ct_shell.specs.Served.{Ran};
ghost use Rattle.ct_tree.specs.Runs.{Item};
ghost use Rattle.ct_tree.specs.Tree.{Dir, Tree, none};
ghost use Rattle.ct_tree.specs.declared.call.Reply.{Reply};
ghost use Rattle.ct_laws.specs.Enough.{LacksPartitionsCrowded, NeverLacksPages, NeverLacksSpace, StaysBelow, most_pages, plain_pages};

use ct_base::{LEAST_PAGES, PARTITION_SLOTS};

/// Where as many pages are free as the calls of a script take at most, no call of it is refused for want of pages; so on a device
/// that was just formatted, where it has `LEAST_PAGES` more.
pub fn a_large_device_has_pages()
    ensures free { (c free : ℕ) (t left : Tree) (items : List Item) (replies : List Reply) (from to : Moment) → RestsOn c t from
        → HasFreePages from.words free → most_pages t items replies ≤ free → Passes c t items replies left from to → NeverLacksPages replies }
    ensures formatted { (c pages : ℕ) (left : Tree) (items : List Item) (replies : List Reply) (from to : Moment) → RestsOn c (Dir none) from
        → IsFormatted from.words pages c → LEAST_PAGES + most_pages (Dir none) items replies ≤ pages → Passes c (Dir none) items replies left from to
        → NeverLacksPages replies }
{}

/// No call of a script is refused for want of a partition while fewer files and directories are there than root slots for
/// partitions, 502, the root among them.
pub fn few_nodes_have_partitions()
    ensures { (c : ℕ) (t left : Tree) (items : List Item) (replies : List Reply) (from to : Moment) → Passes c t items replies left from to
        → LacksPartitionsCrowded t items replies }
{}

/// Where a plain tree that answers a script has fewer than `PARTITION_SLOTS` nodes, and fewer than there are inodes, whenever a
/// call comes, and the device that was just formatted is as large as the calls on that tree take at most, with `LEAST_PAGES`
/// more, no call is refused for space, however far a run gets.
pub fn a_script_that_fits_has_space()
    ensures { (c pages : ℕ) (left : Tree) (script rest : List Item) (replies : List Reply) (from to : Moment) → RestsOn c (Dir none) from
        → IsFormatted from.words pages c → LEAST_PAGES + plain_pages (Dir none) script ≤ pages → StaysBelow PARTITION_SLOTS (Dir none) script
        → StaysBelow c (Dir none) script → Ran c (Dir none) left script rest replies from to → NeverLacksSpace replies }
{}
