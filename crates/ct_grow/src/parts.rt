// Partitions by their level and base.
ghost use Rattle.std.specs.Prelude.{◌≡◌, ◌≢◌, ◌≤◌, ℕ, List, []};
ghost use Rattle.ct_base.specs.Headers.{StandFor};
ghost use Rattle.ct_base.specs.Inode.{IsPart, Partition, free_parts};
ghost use Rattle.ct_base.specs.Plan.{first_of};
ghost use Rattle.ct_base.specs.View.{view};
ghost use Rattle.ct_base.specs.Walk.{AreTables};
ghost use Rattle.ct_level.specs.Any.{partition};

use ct_base::{TOP_LEVEL, Vaddr};
use ct_header::pick;
use ct_level::AnyPart;
use ct_pm::Pm;

/// The partition of a level at an address.
pub fn part_at(level: u32, base: Vaddr) -> AnyPart
    requires { IsPart (record { base = base; level = level }) }
    ensures { partition result ≡ record { base = base; level = level } }
{
    match AnyPart::at(level, base) {
        Some(part) => part,
        None => unreachable!(),
    }
}

/// The base of the first free partition of a level, where one is free.
pub fn first_base<D: Pm>(dev: &D, level: u32) -> Vaddr
    requires tables { AreTables (D.words dev.now) }
    requires level { level ≤ TOP_LEVEL }
    requires some { (ps : List Partition) × StandFor (view (D.words dev.now)) ps × (free_parts ps level ≢ []) }
    ensures part { IsPart (record { base = result; level = level }) }
    ensures first { (ps : List Partition) → StandFor (view (D.words dev.now)) ps → first_of (free_parts ps level) ≡ record { base = result; level = level } }
{
    match pick(dev, level) {
        Some(part) => part.base(),
        None => unreachable!(),
    }
}
