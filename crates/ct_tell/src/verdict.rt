// Whether an image is sound.
ghost use Rattle.std.specs.Prelude.{◌≡◌, IfOk};
ghost use Rattle.ct_base.specs.Bytes.{PutAppends};
ghost use Rattle.ct_base.specs.Causes.{HasCause as PutHasCause};
ghost use Rattle.ct_tell.specs.Ends.{EndsAs, HasCause};
ghost use Rattle.ct_tell.specs.Looks.{check};
ghost use Rattle.ct_tell.specs.Texts.{verdict_line};
ghost use Rattle.ct_tell.specs.Told.{IsVerdict, verdict_status};

use crate::copy::mounted_copy;
use crate::rules::put_rule;
use crate::status::Status;
use ct_base::{NoMemory, Sink, WriteFault};
use ct_call::Mounted;
use ct_check::CheckFault;
use ct_pm::Pm;
use std::alloc::Global;

// The first mount rule that fails, or none.
fn verdict_of<D: Pm>(alloc: Global, image: &D) -> Result<Option<u32>, NoMemory>
    ensures { IfOk result (IsVerdict (D.words image.now)) }
{
    match mounted_copy(alloc, image) {
        Ok(mounted) => {
            let Mounted { dev: _, frames: _ } = mounted;
            Ok(None)
        }
        Err(CheckFault::Damage(rule)) => Ok(Some(rule)),
        Err(CheckFault::Memory) => Err(NoMemory),
    }
}

// How a check ends.
fn verdict_status(verdict: Option<u32>) -> Status
    ensures { result ≡ verdict_status verdict }
{
    match verdict {
        None => Status::Done,
        Some(rule) => Status::NotImage(rule),
    }
}

// Writes the line of a verdict.
fn put_verdict<O: Sink>(out: &mut O, verdict: Option<u32>) -> Result<(), WriteFault>
    ensures bytes { PutAppends (O.written out.old) (O.written out.new) result (verdict_line verdict) }
    ensures cause { PutHasCause (O.faults out.old) (O.faults out.new) result }
{
    match verdict {
        None => out.put(b"sound\n"),
        Some(rule) => put_rule(out, rule),
    }
}

/// Writes whether an image is sound, or the first mount rule that fails.
pub fn put_check<D: Pm, O: Sink>(alloc: Global, image: &D, out: &mut O) -> Status
    ensures ends { EndsAs check (D.words image.now) result (O.written out.old) (O.written out.new) }
    ensures cause { HasCause result (O.faults out.old) (O.faults out.new) }
{
    let Ok(verdict) = verdict_of(alloc, image) else {
        return Status::NoMemory;
    };
    match put_verdict(out, verdict) {
        Ok(()) => verdict_status(verdict),
        Err(_) => Status::WriteFault,
    }
}
