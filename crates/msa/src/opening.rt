// A file mounted into a handle, and let go.
ghost use Rattle.std.specs.Prelude.{◌≡◌, [], List, ℕ, ◌≤◌, ◌⊎◌, None, Some, Option, MatchResult, MatchOption, IfSome, length};
ghost use Rattle.ct_pm.specs.Device.{NothingPending};
ghost use Rattle.pm_outbox.specs.Outbox.{history, words_of};
ghost use Rattle.msa.specs.Opens.{Closes, Formats, IsImage, IsMissized, Makes, Mounts, Opens, no_space, zeros};

use crate::codes::{BUSY, CLOSED, MISUSE, NO_MEMORY, why_number};
use crate::handle::Handle;
use crate::seat::{Seat, Space};
use crate::taking::{put, take};
use byteorder::{ByteOrder, LittleEndian};
use ct_base::{LEAST_INODES, MOST_INODES, MOST_PAGES, PAGE_BYTES, PAGE_WORDS};
use ct_fs::{Fs, format, mount};
use pm_outbox::OutboxPm;
use std::alloc::Global;

// The device over the words of an image, or the number of why there is none.
fn device(alloc: Global, image: &[u8]) -> Result<OutboxPm, u32>
    ensures { MatchResult result (λ dev. IsImage image.now (words_of dev) × (history dev ≡ record { start = words_of dev; steps = [] }) × NothingPending (Some (history dev))) (λ code. ((code ≡ MISUSE) × IsMissized (length image.now)) ⊎ (code ≡ NO_MEMORY)) }
{
    let len = image.len() as u64;
    if len % PAGE_BYTES != 0 || len > PAGE_BYTES * MOST_PAGES {
        return Err(MISUSE);
    }
    let pages = len / PAGE_BYTES;
    let Ok(mut words) = vec![in alloc; 0u64; (PAGE_WORDS * pages) as usize] else {
        return Err(NO_MEMORY);
    };
    LittleEndian::read_u64_into(image, &mut words);
    match OutboxPm::over(alloc, words, pages) {
        Ok(dev) => Ok(dev),
        Err(_) => Err(NO_MEMORY),
    }
}

// The device of so many pages of zeros.
fn empty_device(alloc: Global, pages: u64) -> Option<OutboxPm>
    requires { pages ≤ MOST_PAGES }
    ensures { IfSome result (λ dev. (history dev ≡ record { start = zeros pages; steps = [] }) × (words_of dev ≡ zeros pages) × NothingPending (Some (history dev))) }
{
    match vec![in alloc; 0u64; (PAGE_WORDS * pages) as usize] {
        Ok(words) => OutboxPm::over(alloc, words, pages).ok(),
        Err(_) => None,
    }
}

// The seat of a file system of which C has taken nothing.
fn seat_of(fs: Fs<OutboxPm>) -> Seat
    ensures fs { result.fs ≡ Some fs }
    ensures taken { result.taken ≡ 0 }
    ensures space { result.space ≡ no_space }
{
    Seat {
        fs: Some(fs),
        taken: 0,
        space: Space {
            level: 0,
            free: 0,
            need: 0,
        },
    }
}

// Puts a file system into a handle.
fn fs_into(alloc: Global, handle: &mut Handle, fs: Fs<OutboxPm>) -> u32
    requires { handle.old.seat ≡ None }
    ensures { MatchOption handle.new.seat (result ≡ NO_MEMORY) (λ seat. (seat.fs ≡ Some fs) × (seat.taken ≡ 0) × (result ≡ 0) × (seat.space ≡ no_space)) }
{
    match Box::new(alloc, seat_of(fs)) {
        Ok(seat) => {
            put(handle, seat);
            0
        }
        Err(_) => NO_MEMORY,
    }
}

// Mounts a device and puts it into a handle.
fn mount_into(alloc: Global, handle: &mut Handle, dev: OutboxPm) -> u32
    requires none { handle.old.seat ≡ None }
    requires settled { NothingPending (Some (history dev)) }
    requires begins { history dev ≡ record { start = words_of dev; steps = [] } }
    ensures { Mounts (words_of dev) handle.new.seat result }
{
    match mount(alloc, dev) {
        Ok(fs) => fs_into(alloc, handle, fs),
        Err(no_mount) => why_number(no_mount.why),
    }
}

/// Mounts the file system of a file.
#[unsafe(no_mangle)]
pub extern "C" fn msa_open(alloc: Global, handle: &mut Handle, image: &[u8]) -> u32
    ensures { Opens image.now handle.old.seat handle.new.seat result }
{
    if let Some(seat) = take(alloc, handle) {
        put(handle, seat);
        return BUSY;
    }
    match device(alloc, image) {
        Ok(dev) => mount_into(alloc, handle, dev),
        Err(code) => code,
    }
}

// Makes a file system on a device and puts it into a handle.
fn format_into(alloc: Global, handle: &mut Handle, dev: OutboxPm, inodes: u64) -> u32
    requires none { handle.old.seat ≡ None }
    requires settled { NothingPending (Some (history dev)) }
    requires two { LEAST_INODES ≤ inodes }
    requires few { inodes ≤ MOST_INODES }
    ensures { (start : List ℕ) → history dev ≡ record { start = start; steps = [] } → words_of dev ≡ start → Makes start inodes handle.new.seat result }
{
    match format(alloc, dev, inodes) {
        Ok(fs) => fs_into(alloc, handle, fs),
        Err(no_mount) => why_number(no_mount.why),
    }
}

/// Makes a file system of all whole pages of a file, with so many inodes, and mounts it.
#[unsafe(no_mangle)]
pub extern "C" fn msa_format(alloc: Global, handle: &mut Handle, pages: u64, inodes: u64) -> u32
    ensures { Formats pages inodes handle.old.seat handle.new.seat result }
{
    if let Some(seat) = take(alloc, handle) {
        put(handle, seat);
        return BUSY;
    }
    if pages > MOST_PAGES || inodes < LEAST_INODES || inodes > MOST_INODES {
        return MISUSE;
    }
    match empty_device(alloc, pages) {
        Some(dev) => format_into(alloc, handle, dev, inodes),
        None => NO_MEMORY,
    }
}

/// Lets the file system go.
#[unsafe(no_mangle)]
pub extern "C" fn msa_close(alloc: Global, handle: &mut Handle) -> u32
    ensures { Closes handle.old.seat handle.new.seat result CLOSED }
{
    match take(alloc, handle) {
        Some(_) => 0,
        None => CLOSED,
    }
}
