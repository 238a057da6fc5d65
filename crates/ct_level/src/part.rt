ghost use Rattle.std.specs.Prelude.{◌≡◌, ◌≢◌, ◌+◌, ◌*◌, ◌/◌, ◌%◌, ◌<◌, ◌≤◌, ◌↔◌, ◌⊎◌, IsTrue, IfSome, IsNone};
ghost use Rattle.ct_base.specs.Inode.{IsIn, nth, part_bytes, part_end};
ghost use Rattle.ct_base.specs.Ranges.{IsPartition};

use ct_base::{ADDRESS_END, PAGE_BYTES, PARTITION_SLOT, SLOT_SPAN, TOP_LEVEL, Vaddr};
use std::marker::Model;

/// The first address of the root slots in which partitions lie.
const FIRST_ADDRESS: u64 = PARTITION_SLOT * SLOT_SPAN;

/// The highest level, as levels are counted here.
pub const TOP: u32 = TOP_LEVEL as u32;

/// A partition of level `L`: `4096 * 8^L` bytes whose base is a multiple of that, in root slots 10 to 511.
///
/// It is seen as its number: the base divided by the length.
#[derive(Clone, Copy, Debug, PartialEq, Eq, Drop)]
pub struct Part<const L: u32> {
    number: u64,
}

impl<const L: u32> Model for Part<L> {
    ghost use Rattle.std.specs.Prelude.{ℕ};
    ghost use Rattle.ct_base.specs.Ranges.{IsPartition};

    ghost Value = { ℕ };

    ghost view = { λ p. p.number };

    ghost invariant = { λ p. IsPartition L p.number };

    ghost inverse = { λ n. record { number = n } };
}

/// The length of a partition of a level, in bytes.
#[tactic(auto, using(ct_parts::proofs::Lengths::pow8_small))]
pub fn length_of(level: u32) -> u64
    requires { level ≤ TOP_LEVEL }
    ensures value { result ≡ part_bytes level }
    ensures positive { 0 < result }
{
    PAGE_BYTES * 8u64.pow(level)
}

impl<const L: u32> Part<L> {
    /// The partition at an address, `None` where the address is not aligned or lies below the root slots of
    /// partitions.
    #[tactic(auto, using(ct_parts::proofs::Lengths::pow8_small, ct_parts::proofs::Lengths::at_partition))]
    pub fn at(base: Vaddr) -> Option<Part<L>>
        requires { L ≤ TOP_LEVEL }
        ensures value { IfSome result (λ p. (nth L p).base ≡ base) }
        ensures none { IsNone result ↔ ((base % part_bytes L ≢ 0) ⊎ (base / SLOT_SPAN < PARTITION_SLOT)) }
    {
        let address = base.get();
        let length = length_of(L);
        if address % length != 0 {
            return None;
        }
        if address < FIRST_ADDRESS {
            return None;
        }
        Some(Part {
            number: address / length,
        })
    }

    /// The number among the ranges of the level, from 0 at address 0.
    pub fn number(self) -> u64
        ensures value { result ≡ self.entry }
        ensures partition { IsPartition L result }
    {
        self.number
    }

    /// The length in bytes.
    pub fn bytes(self) -> u64
        ensures { result ≡ part_bytes L }
    {
        length_of(L)
    }

    /// The first address.
    #[tactic(auto, using(ct_parts::proofs::Lengths::partition_bounds))]
    pub fn base(self) -> Vaddr
        ensures value { result ≡ (nth L self.entry).base }
        ensures low { PARTITION_SLOT * SLOT_SPAN ≤ result }
        ensures high { result + part_bytes L ≤ ADDRESS_END }
    {
        address(self.number * length_of(L))
    }

    /// Whether the address is in the partition.
    #[tactic(auto, using(ct_parts::proofs::Lengths::range_number, ct_parts::proofs::Lengths::number_range))]
    pub fn holds(self, v: Vaddr) -> bool
        ensures { IsTrue result ↔ IsIn (nth L self.entry) v }
    {
        v.get() / length_of(L) == self.number
    }
}

/// An address below the last one.
fn address(v: u64) -> Vaddr
    requires { v < ADDRESS_END }
    ensures { result ≡ v }
{
    match Vaddr::new(v) {
        Some(address) => address,
        None => unreachable!(),
    }
}

impl Part<0> {
    /// The partition of the next level that holds this one.
    pub fn parent(self) -> Part<1>
        ensures { result ≡ self / 8 }
    {
        Part {
            number: self.number / 8,
        }
    }
}

impl Part<1> {
    /// The eighth with number `i`, from 0 by rising address.
    pub fn child(self, i: u32) -> Part<0>
        requires { i < 8 }
        ensures { result ≡ 8 * self + i }
    {
        Part {
            number: self.number * 8 + i as u64,
        }
    }

    /// The partition of the next level that holds this one.
    pub fn parent(self) -> Part<2>
        ensures { result ≡ self / 8 }
    {
        Part {
            number: self.number / 8,
        }
    }
}

impl Part<2> {
    /// The eighth with number `i`, from 0 by rising address.
    pub fn child(self, i: u32) -> Part<1>
        requires { i < 8 }
        ensures { result ≡ 8 * self + i }
    {
        Part {
            number: self.number * 8 + i as u64,
        }
    }

    /// The partition of the next level that holds this one.
    pub fn parent(self) -> Part<3>
        ensures { result ≡ self / 8 }
    {
        Part {
            number: self.number / 8,
        }
    }
}

impl Part<3> {
    /// The eighth with number `i`, from 0 by rising address.
    pub fn child(self, i: u32) -> Part<2>
        requires { i < 8 }
        ensures { result ≡ 8 * self + i }
    {
        Part {
            number: self.number * 8 + i as u64,
        }
    }

    /// The partition of the next level that holds this one.
    pub fn parent(self) -> Part<4>
        ensures { result ≡ self / 8 }
    {
        Part {
            number: self.number / 8,
        }
    }
}

impl Part<4> {
    /// The eighth with number `i`, from 0 by rising address.
    pub fn child(self, i: u32) -> Part<3>
        requires { i < 8 }
        ensures { result ≡ 8 * self + i }
    {
        Part {
            number: self.number * 8 + i as u64,
        }
    }

    /// The partition of the next level that holds this one.
    pub fn parent(self) -> Part<5>
        ensures { result ≡ self / 8 }
    {
        Part {
            number: self.number / 8,
        }
    }
}

impl Part<5> {
    /// The eighth with number `i`, from 0 by rising address.
    pub fn child(self, i: u32) -> Part<4>
        requires { i < 8 }
        ensures { result ≡ 8 * self + i }
    {
        Part {
            number: self.number * 8 + i as u64,
        }
    }

    /// The partition of the next level that holds this one.
    pub fn parent(self) -> Part<6>
        ensures { result ≡ self / 8 }
    {
        Part {
            number: self.number / 8,
        }
    }
}

impl Part<6> {
    /// The eighth with number `i`, from 0 by rising address.
    pub fn child(self, i: u32) -> Part<5>
        requires { i < 8 }
        ensures { result ≡ 8 * self + i }
    {
        Part {
            number: self.number * 8 + i as u64,
        }
    }

    /// The partition of the next level that holds this one.
    pub fn parent(self) -> Part<7>
        ensures { result ≡ self / 8 }
    {
        Part {
            number: self.number / 8,
        }
    }
}

impl Part<7> {
    /// The eighth with number `i`, from 0 by rising address.
    pub fn child(self, i: u32) -> Part<6>
        requires { i < 8 }
        ensures { result ≡ 8 * self + i }
    {
        Part {
            number: self.number * 8 + i as u64,
        }
    }

    /// The partition of the next level that holds this one.
    pub fn parent(self) -> Part<8>
        ensures { result ≡ self / 8 }
    {
        Part {
            number: self.number / 8,
        }
    }
}

impl Part<8> {
    /// The eighth with number `i`, from 0 by rising address.
    pub fn child(self, i: u32) -> Part<7>
        requires { i < 8 }
        ensures { result ≡ 8 * self + i }
    {
        Part {
            number: self.number * 8 + i as u64,
        }
    }

    /// The partition of the next level that holds this one.
    pub fn parent(self) -> Part<9>
        ensures { result ≡ self / 8 }
    {
        Part {
            number: self.number / 8,
        }
    }
}

impl Part<9> {
    /// The eighth with number `i`, from 0 by rising address.
    pub fn child(self, i: u32) -> Part<8>
        requires { i < 8 }
        ensures { result ≡ 8 * self + i }
    {
        Part {
            number: self.number * 8 + i as u64,
        }
    }
}
