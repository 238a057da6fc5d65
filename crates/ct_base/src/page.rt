// The numbers of pages, and virtual addresses.
ghost use Rattle.std.specs.Prelude.{◌≡◌, ◌/◌, ◌<◌, ◌≤◌, ◌↔◌, IsNone, IfSome};

use crate::layout::{ADDRESS_END, SLOT_SPAN, TABLE_ENTRIES};
use std::marker::Model;

/// The number of a page of 4,096 bytes on a device, from 0.
#[derive(Clone, Copy, Debug, PartialEq, Eq)]
pub struct Page {
    number: u64,
}

impl Model for Page {
    ghost use Rattle.std.specs.Prelude.{ℕ};

    ghost Value = { ℕ };

    ghost view = { λ p. p.number };

    ghost inverse = { λ n. record { number = n } };
}

impl Page {
    pub fn new(n: u64) -> Page
        ensures { result ≡ n }
    {
        Page { number: n }
    }

    pub fn number(self) -> u64
        ensures { result ≡ self }
    {
        self.number
    }
}

/// A virtual address: a number below `ADDRESS_END`, 2^48.
#[derive(Clone, Copy, Debug, PartialEq, Eq)]
pub struct Vaddr {
    address: u64,
}

impl Model for Vaddr {
    ghost use Rattle.std.specs.Prelude.{ℕ, ◌<◌};
    ghost use Rattle.ct_base.specs.declared.layout.TheConstants.{ADDRESS_END};

    ghost Value = { ℕ };

    ghost view = { λ v. v.address };

    ghost invariant = { λ v. v.address < ADDRESS_END };

    ghost inverse = { λ n. record { address = n } };
}

impl Vaddr {
    /// `None` for a number that is no address.
    pub fn new(v: u64) -> Option<Vaddr>
        ensures none { IsNone result ↔ (ADDRESS_END ≤ v) }
        ensures value { IfSome result (λ a. a ≡ v) }
    {
        if v < ADDRESS_END {
            Some(Vaddr { address: v })
        } else {
            None
        }
    }

    pub fn get(self) -> u64
        ensures value { result ≡ self }
        ensures bound { result < ADDRESS_END }
    {
        self.address
    }

    /// The number of the root slot that covers the address: each slot covers `SLOT_SPAN` bytes.
    pub fn slot(self) -> u64
        ensures value { result ≡ self / SLOT_SPAN }
        ensures bound { result < TABLE_ENTRIES }
    {
        self.address / SLOT_SPAN
    }
}
