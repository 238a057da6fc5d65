// The tables and pages that growth asks for.
ghost use Rattle.std.specs.Prelude.{◌≡◌, ◌≢◌, ◌+◌, ◌*◌, ◌<◌, ◌≤◌, [], ◌∷◌, ◌++◌, length};
ghost use Rattle.ct_base.specs.Inode.{IsPart, part};
ghost use Rattle.ct_base.specs.Plan.{growth_wants as wants_of, header_wants};

use crate::parts::part_at;
use ct_base::{ADDRESS_END, Inode, NO_PARTITION, Vaddr};
use ct_header::words;
use ct_walk::Want;
use std::marker::Model;

/// At most sixteen wants, seen as their list: growth has twelve at most, and what comes after it four.
#[derive(Drop)]
pub struct Wants {
    wants: [Want; 16],
    count: usize,
}

impl Model for Wants {
    ghost use Rattle.std.specs.Prelude.{◌≤◌, List, take};
    ghost use Rattle.ct_base.specs.Wants.{Want as Wanted};

    ghost Value = { List Wanted };

    ghost view = { λ w. take w.count w.wants };

    ghost invariant = { λ w. w.count ≤ 16 };
}

impl Wants {
    /// No wants yet.
    pub fn new() -> Wants
        ensures { result ≡ [] }
    {
        Wants {
            wants: [want_at(4, 0); 16],
            count: 0,
        }
    }

    /// One want more.
    pub fn push(&mut self, want: Want)
        requires { length self.old < 16 }
        ensures { self.new ≡ self.old ++ want ∷ [] }
    {
        self.wants[self.count] = want;
        self.count += 1;
    }

    /// The wants.
    pub fn as_slice(&self) -> &[Want]
        ensures { result.now ≡ self.now }
    {
        &self.wants[..self.count]
    }
}

// A want at one address.
fn want_at(height: u32, at: u64) -> Want
    requires height { height ≤ 4 }
    requires high { at < ADDRESS_END }
    ensures { result ≡ record { height = height; at = at; len = 1 } }
{
    match Vaddr::new(at) {
        Some(at) => Want { height, at, len: 1 },
        None => unreachable!(),
    }
}

// A page at each header word on the path of a partition.
fn header_pages(level: u32, base: Vaddr) -> Wants
    requires { IsPart (record { base = base; level = level }) }
    ensures wants { result ≡ header_wants (record { base = base; level = level }) }
    ensures few { length result ≤ 10 }
{
    let mut wants = Wants::new();
    for address in words(part_at(level, base)).iter() {
        wants.push(want_at(0, *address));
    }
    wants
}

/// What growth of an inode's object to the partition of a level at an address asks for: the pages of the headers on its path,
/// and for an old partition a table at either base, between whose entries it moves.
pub fn growth_wants(old: Inode, level: u32, base: Vaddr) -> Wants
    requires new { IsPart (record { base = base; level = level }) }
    requires old { old.level ≢ NO_PARTITION → IsPart (part old) }
    ensures wants { result ≡ wants_of old (record { base = base; level = level }) }
    ensures few { length result ≤ 12 }
{
    let mut wants = header_pages(level, base);
    if old.level == NO_PARTITION {
        return wants;
    }
    let height = old.level as u32 / 3 + 1;
    wants.push(want_at(height, old.base));
    wants.push(want_at(height, base.get()));
    wants
}
