// What is remembered after a call, by one function for each exit.
ghost use Rattle.std.specs.Prelude.{◌≡◌, Some, Err, IfSome, OnOk};
ghost use Rattle.ct_call.specs.Seen.{ready_in};
ghost use Rattle.ct_learn.specs.Learning.{IsSo, NamesAreSo};
ghost use Rattle.ct_tree.specs.declared.call.Refusal.{Refusal};

use ct_call::{FsError, State};
use ct_learn::{Learnt, Touched};
use ct_pm::Pm;

/// After a call that was refused all that was learnt is kept. After any other all is forgotten.
pub fn after_call<D: Pm>(learnt: &mut Learnt, state: &State<D>, answer: &Result<(), FsError>)
    requires refused { (refusal : Refusal) → answer.now ≡ Err (FsError.Refused refusal) → IfSome (ready_in (Some state.now)) (λ now. IsSo learnt.old (D.words now.dev)) }
    ensures { IfSome (ready_in (Some state.now)) (λ now. IsSo learnt.new (D.words now.dev)) }
{
    match answer {
        Err(FsError::Refused(_)) => {}
        _ => learnt.forget(),
    }
}

/// After a call on the bytes of files that was refused all that was learnt is kept. After one that was carried out the names are
/// kept and the pages forgotten; the names of its path and the pages that it has touched are learnt, where it has some.
pub fn after_edit<D: Pm>(
    learnt: &mut Learnt,
    state: &State<D>,
    answer: &Result<(), FsError>,
    path: &[u8],
    touched: Option<Touched>,
)
    requires refused { (refusal : Refusal) → answer.now ≡ Err (FsError.Refused refusal) → IfSome (ready_in (Some state.now)) (λ now. IsSo learnt.old (D.words now.dev)) }
    requires names { OnOk answer.now (IfSome (ready_in (Some state.now)) (λ now. NamesAreSo learnt.old (D.words now.dev))) }
    ensures { IfSome (ready_in (Some state.now)) (λ now. IsSo learnt.new (D.words now.dev)) }
{
    match answer {
        Err(FsError::Refused(_)) => return,
        Err(_) => {
            learnt.forget();
            return;
        }
        Ok(()) => learnt.forget_pages(),
    }
    match state {
        State::Ready(mounted) => match touched {
            Some(touched) => learnt.learn(&mounted.dev, path, touched),
            None => {}
        },
        State::Dead(_) => {}
    }
}
