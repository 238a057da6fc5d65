// Looks at what lies at a path.
ghost use Rattle.std.specs.Prelude.{◌≡◌, IfOk, length};
ghost use Rattle.percent_encoding.specs.Percent.{percent_decode};
ghost use Rattle.ct_tell.specs.Ends.{EndsAs, HasCause};
ghost use Rattle.ct_tell.specs.Looks.{cat, list};
ghost use Rattle.ct_tell.specs.Told.{fault_status};
ghost use Rattle.ct_tree.specs.Step.{read_limit};

use crate::content::put_bytes;
use crate::copy::mounted_copy;
use crate::entries::put_list;
use crate::status::Status;
use ct_base::{NoMemory, Sink};
use ct_call::Mounted;
use ct_check::CheckFault;
use ct_pm::Pm;
use ct_script::Quote;
use ct_tree::checks::READ_BYTES;
use percent_encoding::percent_decode;
use std::alloc::Global;

// The path that a word is.
fn path_of(alloc: Global, word: &[u8]) -> Result<Vec<u8>, NoMemory>
    ensures { IfOk result (λ path. path.items ≡ percent_decode word.now) }
{
    let mut path = Vec::new(alloc);
    match percent_decode(word).append_to(&mut path) {
        Ok(()) => Ok(path),
        Err(_) => Err(NoMemory),
    }
}

// Memory for the longest read.
fn buffer_of(alloc: Global) -> Result<Vec<u8>, NoMemory>
    ensures { IfOk result (λ buffer. length buffer.items ≡ read_limit) }
{
    match vec![in alloc; 0u8; READ_BYTES as usize] {
        Ok(buffer) => Ok(buffer),
        Err(_) => Err(NoMemory),
    }
}

// How a look ends whose image was not mounted.
fn fault_status(fault: CheckFault) -> Status
    ensures { result ≡ fault_status fault }
{
    match fault {
        CheckFault::Damage(rule) => Status::NotImage(rule),
        CheckFault::Memory => Status::NoMemory,
    }
}

/// Writes the entries of a directory of an image.
pub fn list_at<D: Pm, O: Sink>(alloc: Global, word: &[u8], image: &D, out: &mut O) -> Status
    ensures ends { EndsAs (list (percent_decode word.now)) (D.words image.now) result (O.written out.old) (O.written out.new) }
    ensures cause { HasCause result (O.faults out.old) (O.faults out.new) }
{
    let Ok(path) = path_of(alloc, word) else {
        return Status::NoMemory;
    };
    let Ok(mut quote) = Quote::new(alloc) else {
        return Status::NoMemory;
    };
    match mounted_copy(alloc, image) {
        Ok(mounted) => {
            let Mounted { dev, frames: _ } = mounted;
            put_list(&dev, path.as_slice(), &mut quote, out)
        }
        Err(fault) => fault_status(fault),
    }
}

/// Writes at most so many bytes of a file of an image, from an offset on.
pub fn cat_at<D: Pm, O: Sink>(
    alloc: Global,
    word: &[u8],
    off: u64,
    len: u64,
    image: &D,
    out: &mut O,
) -> Status
    ensures ends { EndsAs (cat (percent_decode word.now) off len) (D.words image.now) result (O.written out.old) (O.written out.new) }
    ensures cause { HasCause result (O.faults out.old) (O.faults out.new) }
{
    let Ok(path) = path_of(alloc, word) else {
        return Status::NoMemory;
    };
    let Ok(mut buffer) = buffer_of(alloc) else {
        return Status::NoMemory;
    };
    match mounted_copy(alloc, image) {
        Ok(mounted) => {
            let Mounted { dev, frames: _ } = mounted;
            put_bytes(&dev, path.as_slice(), off, len, buffer.as_mut_slice(), out)
        }
        Err(fault) => fault_status(fault),
    }
}
