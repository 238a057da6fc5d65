// A rename that replaces a file, on a device that stops after each of its calls.
ghost use Rattle.std.specs.Prelude.{◌≡◌, IfOk};
ghost use Rattle.ct_pm.specs.Images.{IsSettled};
ghost use Rattle.pm_trace.specs.Meaning.{history};

use crate::script::{ENDLESS, LINES, blank};
use ct_fs::{Fs, FsError, format, mount};
use ct_pm::Pm;
use pm_fuse::FusePm;
use pm_trace::TracePm;
use record_stops::{IMAGES, choices};
use std::alloc::Global;
use std::process::Abort;
use std::test::Fail;

// Two files of a page each, and then the rename.
fn play<D: Pm>(fs: &mut Fs<D>, renames: bool) -> Result<(), FsError> {
    fs.create(b"/a")?;
    fs.write(b"/a", 0, b"old")?;
    fs.create(b"/b")?;
    fs.write(b"/b", 0, b"new")?;
    if renames {
        fs.rename(b"/a", b"/b")?;
    }
    Ok(())
}

// A device after the calls, as far as so many of its own calls go.
fn ran(alloc: Global, renames: bool, passes: u64) -> Result<TracePm, Fail> {
    let mut fs = match format(alloc, FusePm::new(blank(alloc)?, passes), 16) {
        Ok(fs) => fs,
        Err(no_mount) => return Ok(no_mount.dev.into_inner()),
    };
    let _played = play(&mut fs, renames);
    Ok(fs.unmount().into_inner())
}

// The three bytes of a file, and nothing where there is none.
fn bytes_of<D: Pm>(fs: &Fs<D>, path: &[u8]) -> [u8; 3] {
    let mut bytes = [0u8; 3];
    let _count = fs.read(path, 0, 3, &mut bytes);
    bytes
}

// Whether both files are there, or the second is the first.
fn is_before_or_after<D: Pm>(fs: &Fs<D>) -> bool {
    let first = bytes_of(fs, b"/a");
    let second = bytes_of(fs, b"/b");
    (first == *b"old" && second == *b"new")
        || (first == [0u8; 3] && second == *b"old" && fs.stat(b"/a").is_err())
}

// Whether an image of what is left mounts, and holds the one or the other.
fn holds(alloc: Global, left: TracePm) -> bool
    requires { IsSettled (history left) }
{
    match mount(alloc, left) {
        Ok(fs) => {
            let held = is_before_or_after(&fs);
            let _dev = fs.unmount();
            held
        }
        Err(_) => false,
    }
}

// Mounts three images of what a rename leaves that stops after so many calls.
fn check_stop(rt: &impl Abort, alloc: Global, passes: u64) -> Result<(), Fail> {
    let dev = ran(alloc, true, passes)?;
    for image in IMAGES {
        let choice = choices(alloc, image, LINES)?;
        let left = dev.crash(alloc, &choice, Vec::new(alloc))?;
        assert!(rt; holds(alloc, left), "{image:?} after {passes} calls");
    }
    Ok(())
}

#[test]
fn each_call_of_a_rename_may_be_the_last(rt: HostRuntime) -> Result<(), Fail> {
    let alloc = rt.alloc();
    let begin = ran(alloc, false, ENDLESS)?.clock();
    let end = ran(alloc, true, ENDLESS)?.clock();
    assert!(rt; begin < end);
    for passes in begin..end.saturating_add(1) {
        check_stop(&rt, alloc, passes)?;
    }
    Ok(())
}
