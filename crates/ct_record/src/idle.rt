ghost use Rattle.std.specs.Prelude.{◌≡◌, length};
ghost use Rattle.std.proofs.Props.{props};
ghost use Rattle.ct_pm.specs.Device.{NothingPending};
ghost use Rattle.ct_base.specs.Settled.{HasPages, IsShut};

use ct_pm::Pm;

/// A device with no record: both gates are closed, and nothing is pending.
#[derive(Drop)]
pub struct Idle<D: Pm> {
    dev: D,
    ghost settled: { NothingPending (D.told dev) } by { Prim.hlevel props },
    ghost shut: { IsShut (D.words dev) },
    ghost pages: { HasPages (D.words dev) },
}

/// A device that failed in the middle of a record. Its words are settled by `replay`, once what a crash left is read
/// again.
#[derive(Drop)]
pub struct Broken<D: Pm> {
    pub dev: D,
}

impl<D: Pm> Idle<D> {
    ghost use Rattle.ct_record.specs.Seen.{idle_dev};

    /// A device whose page count, word 2, is from `FIRST_PAGE` to its pages.
    pub fn of(dev: D) -> Idle<D>
        requires settled { NothingPending (D.told dev) }
        requires shut { IsShut (D.words dev) }
        requires pages { HasPages (D.words dev) }
        ensures { idle_dev result ≡ dev }
    {
        Idle { dev }
    }

    /// The device.
    pub fn into_dev(self) -> D
        ensures dev { result ≡ idle_dev self }
        ensures settled { NothingPending (D.told result) }
        ensures shut { IsShut (D.words result) }
        ensures pages { HasPages (D.words result) }
    {
        let Idle { dev } = self;
        dev
    }
}
