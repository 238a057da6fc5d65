// What holds of every mount.
ghost use Rattle.std.specs.Prelude.{◌≡◌, Some};
ghost use Rattle.ct_call.specs.Mounted.{Volume};
ghost use Rattle.ct_fs.specs.Mounts.{mounts};
ghost use Rattle.ct_fs.specs.Remembering.{IsRemembered};

use crate::system::Fs;
use ct_pm::Pm;

/// What a mount remembers is so: each page and each name that it has learnt is what the walk and the search answer on the device as
/// it reads, and every inode below the number from which a create searches is live.
pub fn what_is_remembered_is_so<D: Pm>(fs: &Fs<D>)
    ensures { (was : Volume D) → mounts fs.now ≡ Some was → IsRemembered (D.words was.dev) fs.now.remembered }
{
    // Nothing is read: this tells what the mount remembers.
    let _ = &fs.remembered;
}
