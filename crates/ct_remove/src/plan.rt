// What a removal needs: the tables between whose entries a partition is given up.
ghost use Rattle.std.specs.Prelude.{◌≡◌, ◌<◌, ◌≤◌};
ghost use Rattle.ct_base.specs.Plan.{give_up_wants, table_want};
ghost use Rattle.ct_base.specs.Rules.{IsPlaced};

use ct_base::{ADDRESS_END, Inode, SLOT_SPAN, STAGING_SLOT, TOP_LEVEL, Vaddr};
use ct_call::{CallPlan, Growth};
use ct_grow::Wants;
use ct_walk::Want;

// The want of the table of a level on the path of an address.
fn table(height: u32, at: u64) -> Want
    requires level { height ≤ 3 }
    requires at { at < ADDRESS_END }
    ensures { result ≡ table_want height at }
{
    match Vaddr::new(at) {
        Some(at) => Want { height, at, len: 1 },
        None => unreachable!(),
    }
}

/// The plan of a removal: a table at either side, where the object has a partition that takes tables.
pub fn removal_plan(inode: Inode) -> CallPlan
    requires { IsPlaced inode }
    ensures growth { result.growth ≡ Growth.Stays }
    ensures wants { result.wants ≡ give_up_wants inode }
{
    let mut wants = Wants::new();
    // A partition of the highest level is given up in the root.
    if inode.level < TOP_LEVEL {
        let height = inode.level as u32 / 3 + 1;
        wants.push(table(height, inode.base));
        wants.push(table(height, STAGING_SLOT * SLOT_SPAN + inode.base % SLOT_SPAN));
    }
    CallPlan {
        growth: Growth::Stays,
        wants,
        rest: Wants::new(),
    }
}
