// Why a call does not do its work.
ghost use Rattle.std.specs.Prelude.{◌≡◌};
ghost use Rattle.ct_tree.specs.declared.stop.Stop.TheVariants.{Refused as refused, NoMemory as no_memory};

use crate::call::Refusal;
use ct_base::NoMemory;

/// A check failed, or memory ran out.
#[derive(Clone, Copy, Debug, PartialEq, Eq)]
pub enum Stop {
    Refused(Refusal),
    NoMemory,
}

impl From<Refusal> for Stop {
    ghost from_gives = { λ r e. e ≡ refused r };

    fn from(refusal: Refusal) -> Stop {
        Stop::Refused(refusal)
    }
}

impl From<NoMemory> for Stop {
    ghost from_gives = { λ _ e. e ≡ no_memory };

    fn from(_: NoMemory) -> Stop {
        Stop::NoMemory
    }
}
