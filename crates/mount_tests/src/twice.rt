// A crash after the gate of a record, and another at each step of the recovery.
ghost use Rattle.std.specs.Prelude.{◌≡◌, ◌≤◌, IfOk};
ghost use Rattle.ct_pm.specs.Images.{IsSettled};
ghost use Rattle.pm_fuse.specs.Fuse.{inner};
ghost use Rattle.pm_trace.specs.Meaning.{history};

use crate::script::{self, ENDLESS, LINES, found, run};
use create_stops::reader::{inode_word, word_at};
use ct_base::{LONG_GATE, SHORT_GATE};
use ct_fs::{Stop, format, mount, mount_through};
use ct_pm::{Pm, Step};
use ct_write::Data;
use growth_stops::{Growth, Start, Stopping, with_file};
use pm_fuse::FusePm;
use pm_trace::TracePm;
use record_stops::{IMAGES, Image, choices};
use std::alloc::Global;
use std::process::Abort;
use std::test::Fail;
use write_stops::{FILE, Holder, Wrote};

// The calls that pass when the gate is stored, flushed and fenced, of which the first is one from a moment on.
fn gate_since(dev: &TracePm, from: u64) -> u64 {
    for i in from..dev.clock() {
        match dev.step_at(i) {
            Step::Store {
                word: LONG_GATE,
                ..
            }
            | Step::Store {
                word: SHORT_GATE,
                ..
            } => {
                return i.saturating_add(3);
            }
            _ => {}
        }
    }
    dev.clock()
}

// What is looked for on a device.
trait Look {
    fn is_there<D: Pm>(&self, dev: &D) -> bool;
}

// The image of a device whose lines are all at their floors.
fn floors(alloc: Global, dev: &TracePm) -> Result<TracePm, Fail>
    ensures { IfOk result (λ left. IsSettled (history left)) }
{
    Ok(dev.crash(
        alloc,
        &choices(alloc, Image::Floors, LINES)?,
        Vec::new(alloc),
    )?)
}

// The steps of a recovery that is not stopped.
fn recovery_steps(alloc: Global, left: TracePm) -> u64
    requires { IsSettled (history left) }
{
    match mount(alloc, left) {
        Ok(fs) => fs.unmount().clock(),
        Err(no_mount) => no_mount.dev.clock(),
    }
}

// Mounts what a device leaves through two stops after so many calls each, with one of the images at each.
fn is_mounted_through<L: Look>(
    alloc: Global,
    dev: &TracePm,
    passes: u64,
    image: Image,
    look: &L,
) -> Result<bool, Fail> {
    let stops = [
        Stop {
            passes,
            choice: choices(alloc, image, LINES)?,
        },
        Stop {
            passes: passes / 2,
            choice: choices(alloc, image, LINES)?,
        },
    ];
    match mount_through(alloc, floors(alloc, dev)?, &stops) {
        Ok(fs) => Ok(look.is_there(&fs.unmount())),
        Err(_) => Ok(false),
    }
}

// Stops the recovery of what a device leaves after each of its calls. It has more steps than a number.
fn stop_each<L: Look>(
    rt: &impl Abort,
    alloc: Global,
    dev: &TracePm,
    least: u64,
    look: &L,
) -> Result<(), Fail> {
    // It has no steps of its own, so that it is soon copied.
    let left = floors(alloc, dev)?;
    let steps = recovery_steps(alloc, floors(alloc, &left)?);
    assert!(rt; least < steps, "{steps} steps");
    for passes in 0..steps {
        check_stop(rt, alloc, &left, passes, look)?;
    }
    Ok(())
}

// Stops the recovery after so many calls.
fn check_stop<L: Look>(
    rt: &impl Abort,
    alloc: Global,
    left: &TracePm,
    passes: u64,
    look: &L,
) -> Result<(), Fail> {
    for image in IMAGES {
        let found = is_mounted_through(alloc, left, passes, image, look)?;
        assert!(rt; found, "{image:?} after {passes} calls");
    }
    Ok(())
}

// The tree after so many calls of the script.
struct Tree(u64);

impl Look for Tree {
    fn is_there<D: Pm>(&self, dev: &D) -> bool {
        found(dev) == Some(self.0)
    }
}

// The last call of the script: its record comes after the one by which the directory grows.
#[test]
fn a_recovery_of_a_new_entry_stops(rt: HostRuntime) -> Result<(), Fail> {
    let alloc = rt.alloc();
    let before = run(alloc, 1, ENDLESS)?.dev.clock();
    let gate = gate_since(&run(alloc, 2, ENDLESS)?.dev, before);
    let ran = run(alloc, 2, gate)?;
    assert_eq!(rt; ran.done, 1);
    stop_each(&rt, alloc, &ran.dev, 41, &Tree(2))
}

// A device that starts with nothing pending.
fn blank(alloc: Global) -> Result<Stopping, Fail>
    ensures { IfOk result (λ device. IsSettled (history (inner device))) }
{
    let words = vec![in alloc; 0; 512 * 256]?;
    Ok(FusePm::new(
        TracePm::new(alloc, words, 60_000, Vec::new(alloc))?,
        u64::MAX,
    ))
}

// Where the file has a partition, and no byte.
fn start_of(alloc: Global) -> Result<Start, Fail> {
    let resting = with_file(alloc, blank(alloc)?).ok_or("a file")?;
    match resting.grow_file(0) {
        Growth::Done(grown) => Ok(Start::of(grown).ok_or("a start")?),
        Growth::Stopped(_) | Growth::Refused => Err(Fail::from("growth")),
    }
}

// The device after a write of two bytes, as far as so many calls go.
fn written(alloc: Global, start: &Start, passes: u64) -> Result<TracePm, Fail> {
    let holder = Holder::of(start.device(alloc, 10_000, passes).ok_or("a device")?);
    match holder.write(0, Data::Bytes(&[0x68, 0x69])) {
        Wrote::Done(holder) => Ok(holder.into_dev().into_inner()),
        Wrote::Stopped(dev) => Ok(dev.into_inner()),
        Wrote::Refused => Err(Fail::from("no room")),
    }
}

// The file has the two bytes.
struct Bytes;

impl Look for Bytes {
    fn is_there<D: Pm>(&self, dev: &D) -> bool {
        inode_word(dev, FILE, 1) == 2 && word_at(dev, inode_word(dev, FILE, 2)) == 0x6968
    }
}

#[test]
fn a_recovery_of_a_write_stops(rt: HostRuntime) -> Result<(), Fail> {
    let alloc = rt.alloc();
    let start = start_of(alloc)?;
    let whole = written(alloc, &start, u64::MAX)?;
    let dev = written(alloc, &start, gate_since(&whole, 0))?;
    assert!(rt; dev.clock() < whole.clock());
    assert!(rt; is_mounted_through(alloc, &whole, u64::MAX, Image::Reads, &Bytes)?);
    stop_each(&rt, alloc, &dev, 10, &Bytes)
}

// A file of two bytes that calls made, after a crash that leaves the image as it reads.
fn file_of_two(alloc: Global) -> Result<TracePm, Fail>
    ensures { IfOk result (λ left. IsSettled (history left)) }
{
    let mut fs = match format(alloc, script::blank(alloc)?, 16) {
        Ok(fs) => fs,
        Err(_) => return Err(Fail::from("format")),
    };
    let made = (fs.create(b"/a"), fs.write(b"/a", 0, b"hi"));
    let dev = fs.unmount();
    if made != (Ok(()), Ok(())) {
        return Err(Fail::from("a call"));
    }
    let choice = choices(alloc, Image::Reads, LINES)?;
    Ok(dev.crash(alloc, &choice, Vec::new(alloc))?)
}

// What a mount through no stop reads of it: how many bytes, and these.
fn read_through_no_stop(alloc: Global, left: TracePm) -> Option<(u64, [u8; 10])>
    requires { IsSettled (history left) }
{
    let stops: [Stop; 0] = [];
    match mount_through(alloc, left, &stops) {
        Ok(fs) => {
            let mut bytes = [0u8; 10];
            let count = fs.read(b"/a", 0, 10, &mut bytes);
            let _dev = fs.unmount();
            Some((count.ok()?, bytes))
        }
        Err(_) => None,
    }
}

#[test]
fn a_mount_through_no_stop_reads_what_was_written(rt: HostRuntime) -> Result<(), Fail> {
    let alloc = rt.alloc();
    let found = read_through_no_stop(alloc, file_of_two(alloc)?);
    assert_eq!(rt; found, Some((2, *b"hi\0\0\0\0\0\0\0\0")));
    Ok(())
}
