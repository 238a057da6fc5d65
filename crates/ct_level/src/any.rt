ghost use Rattle.std.specs.Prelude.{◌≡◌, ◌≢◌, ◌+◌, ◌*◌, ◌/◌, ◌%◌, ◌^◌, ◌<◌, ◌≤◌, ◌↔◌, ◌⊎◌, IfSome, IsNone};
ghost use Rattle.ct_base.specs.Inode.{IsPart, nth, part_bytes};
ghost use Rattle.ct_base.specs.Ranges.{IsPartition};
ghost use Rattle.ct_level.specs.Any.{partition};

use crate::part::Part;
use ct_base::{PARTITION_SLOT, SLOT_SPAN, TOP_LEVEL, Vaddr};

/// A partition of some level.
#[derive(Clone, Copy, Debug, PartialEq, Eq, Drop)]
pub enum AnyPart {
    P0(Part<0>),
    P1(Part<1>),
    P2(Part<2>),
    P3(Part<3>),
    P4(Part<4>),
    P5(Part<5>),
    P6(Part<6>),
    P7(Part<7>),
    P8(Part<8>),
    P9(Part<9>),
}

// Each variant's part under one name, with the level of the variant.
macro_rules! with_part {
    ($any:expr, ($level:ident, $part:ident) => $body:expr) => {
        match $any {
            AnyPart::P0($part) => {
                let $level = 0;
                $body
            }
            AnyPart::P1($part) => {
                let $level = 1;
                $body
            }
            AnyPart::P2($part) => {
                let $level = 2;
                $body
            }
            AnyPart::P3($part) => {
                let $level = 3;
                $body
            }
            AnyPart::P4($part) => {
                let $level = 4;
                $body
            }
            AnyPart::P5($part) => {
                let $level = 5;
                $body
            }
            AnyPart::P6($part) => {
                let $level = 6;
                $body
            }
            AnyPart::P7($part) => {
                let $level = 7;
                $body
            }
            AnyPart::P8($part) => {
                let $level = 8;
                $body
            }
            AnyPart::P9($part) => {
                let $level = 9;
                $body
            }
        }
    };
}

impl AnyPart {
    /// The partition of a level at an address, `None` above the top level, and where the address is not aligned or lies below
    /// the root slots of partitions.
    pub fn at(level: u32, base: Vaddr) -> Option<AnyPart>
        ensures value { IfSome result (λ p. partition p ≡ record { base = base; level = level }) }
        ensures none { IsNone result ↔ ((TOP_LEVEL < level) ⊎ ((base % part_bytes level ≢ 0) ⊎ (base / SLOT_SPAN < PARTITION_SLOT))) }
    {
        match level {
            0 => Some(AnyPart::P0(Part::<0>::at(base)?)),
            1 => Some(AnyPart::P1(Part::<1>::at(base)?)),
            2 => Some(AnyPart::P2(Part::<2>::at(base)?)),
            3 => Some(AnyPart::P3(Part::<3>::at(base)?)),
            4 => Some(AnyPart::P4(Part::<4>::at(base)?)),
            5 => Some(AnyPart::P5(Part::<5>::at(base)?)),
            6 => Some(AnyPart::P6(Part::<6>::at(base)?)),
            7 => Some(AnyPart::P7(Part::<7>::at(base)?)),
            8 => Some(AnyPart::P8(Part::<8>::at(base)?)),
            9 => Some(AnyPart::P9(Part::<9>::at(base)?)),
            _ => None,
        }
    }

    /// The level.
    pub fn level(self) -> u32
        ensures value { result ≡ (partition self).level }
        ensures bound { result ≤ TOP_LEVEL }
    {
        with_part!(self, (level, _part) => level)
    }

    /// The level, and the number among the ranges of the level.
    pub fn place(self) -> (u32, u64)
        ensures value { partition self ≡ nth result.0 result.1 }
        ensures partition { IsPartition result.0 result.1 }
    {
        with_part!(self, (level, part) => (level, part.number()))
    }

    /// The first address.
    pub fn base(self) -> Vaddr
        ensures value { result ≡ (partition self).base }
        ensures part { IsPart (partition self) }
    {
        with_part!(self, (_level, part) => part.base())
    }

    /// The length in pages.
    pub fn pages(self) -> u64
        ensures { result ≡ 8 ^ (partition self).level }
    {
        8u64.pow(self.level())
    }
}
