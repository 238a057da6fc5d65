// What a call needs: an object grows or stays, and tables and pages are made.
ghost use Rattle.std.specs.Prelude.{◌≡◌, ◌+◌, ◌<◌, ◌≤◌, ◌++◌, length, MatchOption};
ghost use Rattle.ct_base.specs.Plan.{page_want};
ghost use Rattle.ct_base.specs.Rules.{IsPlaced};
ghost use Rattle.ct_call.specs.Plans.{IsOpen, level_of};

use ct_grow::Wants;

/// Whether an object grows before the rest of a call.
#[derive(Clone, Copy, Debug, PartialEq, Eq)]
pub enum Growth {
    Stays,

    /// To a level of which a partition is free.
    To(u32),

    /// To a level of which none is.
    Barred(u32),
}

impl Growth {
    /// The level to which the object grows.
    pub fn level(self) -> Option<u32>
        ensures { result ≡ level_of self }
    {
        match self {
            Growth::Stays => None,
            Growth::To(level) => Some(level),
            Growth::Barred(level) => Some(level),
        }
    }

    /// The level to which it cannot grow.
    pub fn barred(self) -> Option<u32>
        ensures { MatchOption result (IsOpen self) (λ level. self ≡ Growth.Barred level) }
    {
        match self {
            Growth::Stays => None,
            Growth::To(_) => None,
            Growth::Barred(level) => Some(level),
        }
    }
}

/// The plan of a call: it is made once, and serves to count what the call needs, to refuse it, and, where `rest` is not
/// empty, to make what is missing. Other calls make theirs in their own rooms, and no more than was counted.
#[derive(Drop)]
pub struct CallPlan {
    pub growth: Growth,

    /// All that the call asks for, growth among it, as it counts on the device as it is.
    pub wants: Wants,

    /// What is to be made once the object has grown.
    pub rest: Wants,
}
