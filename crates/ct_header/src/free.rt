ghost use Rattle.std.specs.Prelude.{◌≡◌, ℕ, ◌+◌, ◌≤◌, List, Bool};
ghost use Rattle.ct_base.specs.Headers.{StandFor};
ghost use Rattle.ct_base.specs.Inode.{Partition, free_parts, nth};
ghost use Rattle.ct_base.specs.Ranges.{Headers, IsDown, IsLiveSet, IsPartition};
ghost use Rattle.ct_base.specs.View.{view};
ghost use Rattle.ct_base.specs.Walk.{AreTables};
ghost use Rattle.ct_level.specs.Any.{partition};
ghost use Rattle.ct_header.specs.First.{IsFirstOf};
ghost use Rattle.ct_words.specs.Shown.{shown_word};

use crate::scan::{first_child, first_slot};
use ct_base::{TOP_LEVEL, Vaddr};
use ct_level::{AnyPart, TOP, length_of};
use ct_pm::Pm;

/// The partition of a level with a number.
fn part_of(level: u32, number: u64) -> AnyPart
    requires { IsPartition level number }
    ensures { partition result ≡ nth level number }
{
    match Vaddr::new(number * length_of(level)) {
        Some(base) => match AnyPart::at(level, base) {
            Some(part) => part,
            None => unreachable!(),
        },
        None => unreachable!(),
    }
}

/// The first range of a level in a range of the next level that has a free partition of the level that is sought in it.
fn down<D: Pm>(dev: &D, level: u32, number: u64, sought: u32) -> u64
    requires tables { AreTables (D.words dev.now) }
    requires sought { sought ≤ level }
    requires level { level ≤ 8 }
    requires stands { (live : ℕ → ℕ → Bool) × IsLiveSet live × Headers live (shown_word (D.words dev.now)) }
    requires from { IsDown (shown_word (D.words dev.now)) sought (level + 1) number }
    ensures { IsDown (shown_word (D.words dev.now)) sought level result }
{
    match first_child(dev, level, number, 0, sought) {
        Some(child) => child,
        None => unreachable!(),
    }
}

/// The lowest free partition of a level from 0 to 9, `None` where there is none.
///
/// It reads at most 72 header words.
pub fn pick<D: Pm>(dev: &D, level: u32) -> Option<AnyPart>
    requires tables { AreTables (D.words dev.now) }
    requires level { level ≤ TOP_LEVEL }
    requires stands { (ps : List Partition) × StandFor (view (D.words dev.now)) ps }
    ensures { (ps : List Partition) → StandFor (view (D.words dev.now)) ps → IsFirstOf (free_parts ps level) result }
{
    let mut number = first_slot(dev, level)?;
    let mut above = TOP;
    while above > level {
        above -= 1;
        number = down(dev, above, number, level);
    }
    Some(part_of(level, number))
}
