// The names of a directory, one after another, for C.
ghost use Rattle.std.specs.Prelude.{◌≡◌, ◌≤◌, ◌++◌, ℕ, drop, length};
ghost use Rattle.arrayvec.specs.ArrayVec.{ArrayVec};
ghost use Rattle.msa.specs.Looks.{Lists, ListsAt, TellsName};

use crate::codes::{CLOSED, MISUSE, code};
use crate::handle::Handle;
use crate::seat::Seat;
use crate::taking::{put, take};
use ct_base::NameBuf;
use ct_call::FsError;
use std::alloc::Global;

// The first name behind another, or of all where that is empty.
fn next_in(seat: &Seat, path: &[u8], after: &[u8]) -> Result<Option<NameBuf>, FsError>
    ensures { Lists (λ name. name.items) path.now after.now seat.now result }
{
    let Some(fs) = &seat.fs else {
        unreachable!();
    };
    if after.is_empty() {
        return fs.next_entry(path, None);
    }
    fs.next_entry(path, Some(after))
}

/// Puts bytes at the front of a buffer.
pub fn put_front(bytes: &[u8], buffer: &mut [u8])
    requires { length bytes.now ≤ length buffer.old }
    ensures { buffer.new ≡ bytes.now ++ drop (length bytes.now) buffer.old }
{
    buffer[..bytes.len()].copy_from_slice(bytes);
}

// Tells a name whole, or not.
fn tell_name(buffer: &mut [u8], len: &mut usize, answer: Result<Option<NameBuf>, FsError>) -> u32
    ensures { TellsName (λ name. name.items) buffer.old buffer.new len.old len.new result answer }
{
    match answer {
        Ok(Some(name)) => {
            if name.len() > buffer.len() {
                return MISUSE;
            }
            put_front(name.as_slice(), buffer);
            *len = name.len();
            0
        }
        Ok(None) => {
            *len = 0;
            0
        }
        Err(why) => code::<()>(Err(why)),
    }
}

/// Tells the first name of a directory behind another, or of all where that is empty, in byte order; its length is 0 where there
/// is no more. A buffer that has no room for the name stays.
#[unsafe(no_mangle)]
pub extern "C" fn msa_next(
    alloc: Global,
    handle: &mut Handle,
    path: &[u8],
    after: &[u8],
    name: &mut [u8],
    name_len: &mut usize,
) -> u32
    ensures { ListsAt (λ (name : ArrayVec ℕ). name.items) path.now after.now name.old name.new name_len.old name_len.new handle.old.seat handle.new.seat result }
{
    let Some(seat) = take(alloc, handle) else {
        return CLOSED;
    };
    let answer = next_in(&seat, path, after);
    put(handle, seat);
    tell_name(name, name_len, answer)
}
