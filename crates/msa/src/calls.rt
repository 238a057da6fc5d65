// The calls that change the tree, for C.
ghost use Rattle.std.specs.Prelude.{◌≡◌, ℕ, Some};
ghost use Rattle.ct_tree.specs.Step.{append as append_call, create as create_call, exchange as exchange_call, fill as fill_call, mkdir as mkdir_call, op_of, rename as rename_call, rmdir as rmdir_call, truncate as truncate_call, unlink as unlink_call, write as write_call};
ghost use Rattle.ct_call.specs.Calls.{IsChange};
ghost use Rattle.msa.specs.Calls.{Calls, Changes, ChangesFs, refused_space, told_space};
ghost use Rattle.msa.specs.Mounts.{HasPlace};

use crate::codes::{CLOSED, code};
use crate::handle::Handle;
use crate::seat::{Seat, Space, put_back};
use crate::taking::{put, take};
use ct_call::FsError;
use ct_fs::Fs;
use ct_tree::{Call, Refusal};
use pm_outbox::OutboxPm;
use std::alloc::Global;

// Makes a call on a mount.
fn change_fs(fs: &mut Fs<OutboxPm>, call: &Call<'_>) -> Result<(), FsError>
    requires { IsChange (op_of call.now) }
    ensures changes { ChangesFs (op_of call.now) fs.old fs.new result }
    ensures place { (taken : ℕ) → HasPlace (Some fs.old) taken → HasPlace (Some fs.new) taken }
{
    // Not the device is wanted, but what its contract says: the mount is at rest, so its words stand for a tree.
    let _ = fs.device();
    fs.change(call)
}

// The numbers of a refusal for space; after another one those that were there.
fn space_of(before: Space, refusal: Refusal) -> Space
    ensures { result ≡ refused_space before refusal }
{
    match refusal {
        Refusal::NoPartition { level } => Space {
            level,
            free: 0,
            need: 0,
        },
        Refusal::NoPages { free, need } => Space {
            level: 0,
            free,
            need,
        },
        _ => before,
    }
}

// The numbers after a call.
fn space_after(before: Space, made: &Result<(), FsError>) -> Space
    ensures { result ≡ told_space before made.now }
{
    match made {
        Ok(()) => before,
        Err(FsError::Dead) => before,
        Err(FsError::Fault) => before,
        Err(FsError::Refused(refusal)) => space_of(before, *refusal),
    }
}

// Makes a call on a seat.
fn change_in(seat: &mut Seat, call: &Call<'_>) -> Result<(), FsError>
    requires { IsChange (op_of call.now) }
    ensures { Changes (op_of call.now) seat.old seat.new result }
{
    match seat.fs.take() {
        Some(mut fs) => {
            let made = change_fs(&mut fs, call);
            put_back(&mut seat.fs, fs);
            seat.space = space_after(seat.space, &made);
            made
        }
        None => unreachable!(),
    }
}

// Makes a call on what is in a handle.
fn change(alloc: Global, handle: &mut Handle, call: &Call<'_>) -> u32
    requires { IsChange (op_of call.now) }
    ensures { Calls (op_of call.now) handle.old.seat handle.new.seat result }
{
    let Some(mut seat) = take(alloc, handle) else {
        return CLOSED;
    };
    let made = change_in(&mut seat, call);
    put(handle, seat);
    code(made)
}

/// Makes an empty file.
#[unsafe(no_mangle)]
pub extern "C" fn msa_create(alloc: Global, handle: &mut Handle, path: &[u8]) -> u32
    ensures { Calls (create_call path.now) handle.old.seat handle.new.seat result }
{
    change(alloc, handle, &Call::Create { path })
}

/// Makes an empty directory.
#[unsafe(no_mangle)]
pub extern "C" fn msa_mkdir(alloc: Global, handle: &mut Handle, path: &[u8]) -> u32
    ensures { Calls (mkdir_call path.now) handle.old.seat handle.new.seat result }
{
    change(alloc, handle, &Call::Mkdir { path })
}

/// Writes bytes to a file from an offset on.
#[unsafe(no_mangle)]
pub extern "C" fn msa_write(
    alloc: Global,
    handle: &mut Handle,
    path: &[u8],
    off: u64,
    bytes: &[u8],
) -> u32
    ensures { Calls (write_call path.now off bytes.now) handle.old.seat handle.new.seat result }
{
    change(alloc, handle, &Call::Write { path, off, bytes })
}

/// Writes so many of one byte to a file from an offset on.
#[unsafe(no_mangle)]
pub extern "C" fn msa_fill(
    alloc: Global,
    handle: &mut Handle,
    path: &[u8],
    off: u64,
    len: u64,
    byte: u8,
) -> u32
    ensures { Calls (fill_call path.now off len byte) handle.old.seat handle.new.seat result }
{
    change(
        alloc,
        handle,
        &Call::Fill {
            path,
            off,
            len,
            byte,
        },
    )
}

/// Writes bytes behind the last one of a file.
#[unsafe(no_mangle)]
pub extern "C" fn msa_append(alloc: Global, handle: &mut Handle, path: &[u8], bytes: &[u8]) -> u32
    ensures { Calls (append_call path.now bytes.now) handle.old.seat handle.new.seat result }
{
    change(alloc, handle, &Call::Append { path, bytes })
}

/// Gives a file a length.
#[unsafe(no_mangle)]
pub extern "C" fn msa_truncate(alloc: Global, handle: &mut Handle, path: &[u8], len: u64) -> u32
    ensures { Calls (truncate_call path.now len) handle.old.seat handle.new.seat result }
{
    change(alloc, handle, &Call::Truncate { path, len })
}

/// Exchanges whole pages of two files.
#[unsafe(no_mangle)]
pub extern "C" fn msa_exchange(
    alloc: Global,
    handle: &mut Handle,
    path: &[u8],
    off: u64,
    other: &[u8],
    other_off: u64,
    len: u64,
) -> u32
    ensures { Calls (exchange_call path.now off other.now other_off len) handle.old.seat handle.new.seat result }
{
    change(
        alloc,
        handle,
        &Call::Exchange {
            path,
            off,
            other,
            other_off,
            len,
        },
    )
}

/// Removes a file.
#[unsafe(no_mangle)]
pub extern "C" fn msa_unlink(alloc: Global, handle: &mut Handle, path: &[u8]) -> u32
    ensures { Calls (unlink_call path.now) handle.old.seat handle.new.seat result }
{
    change(alloc, handle, &Call::Unlink { path })
}

/// Removes an empty directory.
#[unsafe(no_mangle)]
pub extern "C" fn msa_rmdir(alloc: Global, handle: &mut Handle, path: &[u8]) -> u32
    ensures { Calls (rmdir_call path.now) handle.old.seat handle.new.seat result }
{
    change(alloc, handle, &Call::Rmdir { path })
}

/// Gives an object another name.
#[unsafe(no_mangle)]
pub extern "C" fn msa_rename(alloc: Global, handle: &mut Handle, path: &[u8], to: &[u8]) -> u32
    ensures { Calls (rename_call path.now to.now) handle.old.seat handle.new.seat result }
{
    change(alloc, handle, &Call::Rename { path, to })
}
