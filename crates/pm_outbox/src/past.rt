// What was done to a device, for proofs alone. It takes no bytes.
ghost use Rattle.std.specs.Prelude.{◌≡◌, [], ◌∷◌};
ghost use Rattle.std.specs.Borrow.{ftrue};
ghost use Rattle.ct_pm.specs.Images.{History};
ghost use Rattle.pm_outbox.specs.Past.{history_coded};

use ct_pm::Step;
use std::marker::Model;

/// The start words of a device and its steps.
#[derive(Drop)]
pub struct Past {
    pub ghost past: { History } by { history_coded },
}

impl Model for Past {
    ghost also_owns = { λ _. ftrue };
}

// It owns nothing.
unsafe impl Send for Past {}

impl Past {
    /// Nothing was done yet.
    pub fn start(_words: &[u64]) -> Past
        ensures { result.past ≡ record { start = _words.now; steps = [] } }
    {
        Past {}
    }

    /// One step more.
    pub fn stepped(_before: &Past, _step: &Step) -> Past
        ensures { result.past ≡ record { start = _before.now.past.start; steps = _step.now ∷ _before.now.past.steps } }
    {
        Past {}
    }
}
