// What an exchange asks for.
ghost use Rattle.std.specs.Prelude.{◌≡◌, ◌+◌, ◌*◌, ◌/◌, ◌≤◌};
ghost use Rattle.ct_plan.specs.Few.{few_both_wants};
ghost use Rattle.ct_commit.specs.Rest.{IsAtRest};

use ct_base::{PAGE_BYTES, SLOT_PAGES, TABLE_ENTRIES};
use ct_call::{CallPlan, Growth};
use ct_grow::Wants;
use ct_inode::get;
use ct_plan::side_wants;
use ct_pm::Pm;

/// Two ranges of as many bytes: each begins at an offset of a file, which is known by its number.
#[derive(Clone, Copy, Debug, PartialEq, Eq)]
pub(crate) struct Ranges {
    pub(crate) first: u64,
    pub(crate) off: u64,
    pub(crate) second: u64,
    pub(crate) other_off: u64,
    pub(crate) len: u64,
}

impl Ranges {
    ghost use Rattle.ct_exchange.specs.Ranges.{AreApart, first_page, second_page, wants_of};

    /// The first page of each range, and how many pages they have.
    pub(crate) fn pages<D: Pm>(&self, dev: &D) -> (u64, u64, u64)
        requires rest { IsAtRest (D.words dev.now) }
        requires can { AreApart (D.words dev.now) self.now }
        ensures first { result.0 ≡ first_page (D.words dev.now) self.now }
        ensures second { result.1 ≡ second_page (D.words dev.now) self.now }
        ensures count { result.2 ≡ self.now.len / PAGE_BYTES }
    {
        let first = get(dev, self.first);
        let second = get(dev, self.second);
        (
            (first.base + self.off) / PAGE_BYTES,
            (second.base + self.other_off) / PAGE_BYTES,
            self.len / PAGE_BYTES,
        )
    }

    /// The plan of their exchange: nothing grows, and both sides need their tables.
    pub(crate) fn plan<D: Pm>(&self, dev: &D) -> CallPlan
        requires rest { IsAtRest (D.words dev.now) }
        requires can { 1 ≤ self.now.len → AreApart (D.words dev.now) self.now }
        ensures growth { result.growth ≡ Growth.Stays }
        ensures wants { result.wants ≡ wants_of (D.words dev.now) self.now }
    {
        let wants = if self.len == 0 {
            Wants::new()
        } else {
            let (a, b, n) = self.pages(dev);
            both_sides(a, b, n)
        };
        CallPlan {
            growth: Growth::Stays,
            wants,
            rest: Wants::new(),
        }
    }
}

// The tables on both sides of an exchange of `n` pages.
fn both_sides(a: u64, b: u64, n: u64) -> Wants
    requires some { 1 ≤ n }
    requires first { a + n ≤ TABLE_ENTRIES * SLOT_PAGES }
    requires second { b + n ≤ TABLE_ENTRIES * SLOT_PAGES }
    ensures { result ≡ few_both_wants a b n }
{
    let first = side_wants(a, b, n);
    let second = side_wants(b, a, n);
    let mut wants = Wants::new();
    wants.push(first[0]);
    wants.push(first[1]);
    wants.push(first[2]);
    wants.push(second[0]);
    wants.push(second[1]);
    wants.push(second[2]);
    wants
}
