// An exchange as a record of its own.
ghost use Rattle.std.specs.Prelude.{◌≡◌, ◌≢◌, ℕ, ◌+◌, ◌*◌, ◌^◌, ◌<◌, ◌≤◌, length, All, IfOk, OnOk};
ghost use Rattle.ct_base.specs.Causes.{HasCause};
ghost use Rattle.ct_base.specs.Exchange.{Apart, Exchanged, HasTables};
ghost use Rattle.ct_base.specs.Pieces.{pieces};
ghost use Rattle.ct_base.specs.Settled.{HasFewPairs, HasPages, IsShut, with_pairs};
ghost use Rattle.ct_base.specs.Walk.{AreTables};
ghost use Rattle.ct_pm.specs.Device.{LeavesOnly, MakesOnly, NothingPending, SameOff};
ghost use Rattle.ct_record.specs.Record.{InRecord, OpensOnly, SettlesToEither, StaysOrGives};
ghost use Rattle.ct_record.specs.Seen.{device_behind};
ghost use Rattle.ct_swap.specs.Swap.{swap_pairs};

use crate::swap::pswap;
use ct_base::{MOST_LONG_PAIRS, TABLE_ENTRIES};
use ct_pm::Pm;
use ct_record::{Broken, Draft, Idle, conclude};

/// Exchanges the `n` virtual pages from `a` on with those from `b` on, as a record of its own: a crash at any moment leaves
/// what settles to the words at entry, or to those with all of the exchange.
///
/// # Errors
///
/// `Broken` where the device failed. The exchange is then to be found whole or not at all once the device settles.
pub fn pswap_now<D: Pm>(dev: D, a: u64, b: u64, n: u64) -> Result<D, Broken<D>>
    requires settled { NothingPending (D.told dev) }
    requires shut { IsShut (D.words dev) }
    requires pages { HasPages (D.words dev) }
    requires some { 1 ≤ n }
    requires first { a + n ≤ TABLE_ENTRIES ^ 4 }
    requires second { b + n ≤ TABLE_ENTRIES ^ 4 }
    requires apart { Apart a b n }
    requires tables { AreTables (D.words dev) }
    requires there { All (HasTables (D.words dev) a b) (pieces a b n) }
    requires room { 2 * length (pieces a b n) ≤ MOST_LONG_PAIRS }

    ensures exchanged { OnOk result (Exchanged (D.words dev) (D.words (device_behind result)) a b n) }
    ensures words { OnOk result (SameOff InRecord (D.words (device_behind result)) (with_pairs (swap_pairs (D.words dev) a b (pieces a b n)) (D.words dev))) }
    ensures shut { OnOk result (IsShut (D.words (device_behind result))) }
    ensures settled { OnOk result (NothingPending (D.told (device_behind result))) }

    // A crash at any moment leaves none of the exchange or all of it, and so do the words as they read.
    ensures any_moment { LeavesOnly (D.told dev) (D.told (device_behind result)) (SettlesToEither (swap_pairs (D.words dev) a b (pieces a b n)) (D.words dev)) }
    ensures reads { SettlesToEither (swap_pairs (D.words dev) a b (pieces a b n)) (D.words dev) (D.words (device_behind result)) }

    // The record is lawful in it, with no more pairs than two a piece, and so it is in the words as they read.
    ensures lawful { LeavesOnly (D.told dev) (D.told (device_behind result)) (HasFewPairs (2 * length (pieces a b n))) }
    ensures reads_lawful { HasFewPairs (2 * length (pieces a b n)) (D.words (device_behind result)) }

    // No other pairs are ever open.
    ensures opens { LeavesOnly (D.told dev) (D.told (device_behind result)) (OpensOnly (swap_pairs (D.words dev) a b (pieces a b n))) }
    ensures reads_opens { OpensOnly (swap_pairs (D.words dev) a b (pieces a b n)) (D.words (device_behind result)) }

    ensures made { MakesOnly (StaysOrGives (swap_pairs (D.words dev) a b (pieces a b n))) (D.told dev) (D.told (device_behind result)) }
    ensures cause { HasCause (D.faults dev) (D.faults (device_behind result)) result }
{
    let mut draft = Draft::begin(Idle::of(dev));
    let drafted = pswap(&mut draft, a, b, n);
    conclude(draft, drafted)
}
