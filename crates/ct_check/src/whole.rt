// The mount rules from 8 on.
ghost use Rattle.std.specs.Prelude.{◌↔◌, ℕ, Contains, IfErr, IfOk};
ghost use Rattle.ct_base.specs.Free.{IsFreePage};
ghost use Rattle.ct_base.specs.Head.{HasHead};
ghost use Rattle.ct_base.specs.Rules.{Sound};
ghost use Rattle.ct_base.specs.Walk.{AreTables};
ghost use Rattle.ct_check.specs.Rules.{HasNoStaging, Tells};
ghost use Rattle.ct_frames.specs.Agrees.{Agrees};

use crate::chain::{check_files, check_headers, check_placing};
use crate::fault::CheckFault;
use crate::tables::check_tables;
use ct_frames::Frames;
use ct_pm::Pm;
use std::alloc::Global;

/// Mount rules 8 to 20, where rules 0 to 7 hold and root slots 2 to 9 are 0, and the free pages where none of them fails.
///
/// # Errors
///
/// `Damage` with the first of them that fails, or `Memory`.
pub fn check<D: Pm>(alloc: Global, dev: &D) -> Result<Frames, CheckFault>
    requires head { HasHead (D.words dev.now) }
    requires staging { HasNoStaging (D.words dev.now) }
    ensures sound { IfOk result (λ frames. Sound (D.words dev.now)) }
    ensures tables { IfOk result (λ frames. AreTables (D.words dev.now)) }
    ensures frames { IfOk result (λ frames. Agrees (D.words dev.now) frames) }
    ensures free { IfOk result (λ frames. (q : ℕ) → Contains frames.free q ↔ IsFreePage (D.words dev.now) q) }
    ensures damage { IfErr result (Tells (D.words dev.now)) }
{
    let frames = check_tables(alloc, dev)?;
    check_placing(alloc, dev)?;
    check_headers(alloc, dev)?;
    check_files(alloc, dev)?;
    Ok(frames)
}
