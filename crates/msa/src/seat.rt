// A mounted file system whose medium C holds.
ghost use Rattle.std.specs.Prelude.{◌≡◌, ◌≤◌, None, Some, IsSome, length};
ghost use Rattle.msa.specs.Mounts.{HasPlace};

use ct_fs::Fs;
use pm_outbox::OutboxPm;

/// The numbers of the last refusal for space: of which level no partition was free, or how many pages were free and how many
/// the call needs.
#[derive(Clone, Copy)]
pub struct Space {
    pub level: u32,
    pub free: u64,
    pub need: u64,
}

/// A mounted file system whose medium C holds, how much C has taken of what was asked, and what it was refused for space.
pub struct Seat {
    // `None` only while a call has the file system.
    pub fs: Option<Fs<OutboxPm>>,
    pub taken: usize,
    pub space: Space,
    ghost here: { IsSome fs },
    ghost place: { HasPlace fs taken },
}

impl Drop for Seat {
    fn drop(self) {
        let Seat {
            fs,
            taken: _,
            space: _,
        } = self;
        match fs {
            Some(fs) => drop(fs.unmount()),
            None => {}
        }
    }
}

/// Puts a value where there is none.
pub fn put_back<T>(place: &mut Option<T>, value: T)
    requires { place.old ≡ None }
    ensures { place.new ≡ Some value }
{
    match place.replace(value) {
        None => {}
        Some(_) => unreachable!(),
    }
}
