// The bytes of a file, and what the calls make of them.
ghost use Rattle.std.specs.Prelude.{◌≡◌, ◌+◌, ◌≤◌, ◌++◌, IfOk, OnOk, length, replicate};
ghost use Rattle.ct_tree.specs.Content.{range, resized, written};
ghost use Rattle.ct_tree.specs.Step.{file_limit};

use ct_base::NoMemory;
use std::alloc::Global;

/// A copy of bytes.
pub fn copy_bytes(alloc: Global, bytes: &[u8]) -> Result<Vec<u8>, NoMemory>
    ensures { IfOk result (λ v. v.items ≡ bytes.now) }
{
    match Vec::from_slice(alloc, bytes) {
        Ok(bytes) => Ok(bytes),
        Err(_) => Err(NoMemory),
    }
}

/// So many bytes of one value.
pub fn filled(alloc: Global, len: u64, byte: u8) -> Result<Vec<u8>, NoMemory>
    ensures { IfOk result (λ v. v.items ≡ replicate len byte) }
{
    match vec![in alloc; byte; len as usize] {
        Ok(bytes) => Ok(bytes),
        Err(_) => Err(NoMemory),
    }
}

/// At most `len` bytes from an offset on.
pub fn range(bytes: &[u8], off: u64, len: u64) -> &[u8]
    ensures { result.now ≡ range bytes.now off len }
{
    let start = bytes.len().min(off as usize);
    let rest = &bytes[start..];
    &rest[..rest.len().min(len as usize)]
}

/// The bytes of a file with these at an offset.
pub fn written(alloc: Global, old: &[u8], off: u64, bytes: &[u8]) -> Result<Vec<u8>, NoMemory>
    requires { off + length bytes.now ≤ file_limit }
    ensures { IfOk result (λ v. v.items ≡ written old.now off bytes.now) }
{
    if bytes.is_empty() {
        return copy_bytes(alloc, old);
    }
    let mut all = resized(alloc, old, off)?;
    append(&mut all, bytes)?;
    let end = old.len().min(off as usize + bytes.len());
    append(&mut all, &old[end..])?;
    Ok(all)
}

/// The bytes of a file with a range of another, or of itself, in the place of one of its own.
#[tactic(auto, using(crate::proofs::Exchanges::written_within, crate::proofs::Exchanges::range_length))]
pub fn with_range(
    alloc: Global,
    bytes: &[u8],
    off: u64,
    other: &[u8],
    other_off: u64,
    len: u64,
) -> Result<Vec<u8>, NoMemory>
    requires within { off + len ≤ length bytes.now }
    requires short { length bytes.now ≤ file_limit }
    ensures bytes { IfOk result (λ v. v.items ≡ written bytes.now off (range other.now other_off len)) }
    ensures length { IfOk result (λ v. length v.items ≡ length bytes.now) }
{
    written(alloc, bytes, off, range(other, other_off, len))
}

/// The bytes cut or lengthened with zeros.
pub fn resized(alloc: Global, old: &[u8], len: u64) -> Result<Vec<u8>, NoMemory>
    ensures { IfOk result (λ v. v.items ≡ resized len old.now) }
{
    let mut all = copy_bytes(alloc, old)?;
    match all.resize(len as usize, 0) {
        Ok(()) => Ok(all),
        Err(_) => Err(NoMemory),
    }
}

/// Adds bytes at the end.
fn append(all: &mut Vec<u8>, bytes: &[u8]) -> Result<(), NoMemory>
    ensures { OnOk result (all.new.items ≡ all.old.items ++ bytes.now) }
{
    match all.extend_from_slice(bytes) {
        Ok(()) => Ok(()),
        Err(_) => Err(NoMemory),
    }
}
