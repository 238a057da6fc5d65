// The four calls that take memory: where an allocation of theirs is refused, they say so, and the device has the tree that it had.
// Here no allocation is refused. `bench/memory` runs these tests again and again, and refuses one after another of those that are
// made between the lines `begin` and `end`.
ghost use Rattle.std.specs.Prelude.{◌≡◌, IfOk};
ghost use Rattle.ct_pm.specs.Device.{NothingPending};
ghost use Rattle.ct_pm.specs.Images.{IsSettled};
ghost use Rattle.pm_trace.specs.Meaning.{history};

use ct_base::{MemSink, MemSource};
use ct_fs::{Fs, NoMount, Stat, Stop, Why, format, mount, mount_through};
use ct_pm::{Pm, RamPm};
use ct_run::{Status, run};
use pm_trace::TracePm;
use record_stops::{Image, choices};
use std::alloc::Global;
use std::test::Fail;

const PAGES: usize = 256;

// The lines of so many pages.
const LINES: u64 = 64 * PAGES as u64;

// Room for the steps of the longest of these calls.
const ROOM: u64 = 100_000;

// Says where a call begins and ends.
fn say(rt: &HostRuntime, word: &str) {
    let _ = println!(rt; "{word}");
}

// What a device has.
#[derive(Clone, Copy, Debug, PartialEq, Eq)]
enum Held {
    Nothing,

    // The tree of the tests: a directory, and in it a file of two bytes.
    Tree,

    // Another tree, or none.
    Other,
}

fn held_by<D: Pm>(fs: &Fs<D>) -> Held {
    let mut bytes = [0u8; 4];
    let count = fs.read(b"/d/x", 0, 4, &mut bytes);
    let is_read = (count, bytes) == (Ok(2), *b"hi\0\0");
    match fs.stat(b"/") {
        Ok(Stat::Dir { count: 0 }) => Held::Nothing,
        Ok(Stat::Dir { count: 1 }) if is_read => Held::Tree,
        _ => Held::Other,
    }
}

// What a device has once it is mounted anew.
fn held_on<D: Pm + Drop>(alloc: Global, dev: D) -> Held
    requires { NothingPending (D.told dev) }
{
    match mount(alloc, dev) {
        Ok(fs) => {
            let held = held_by(&fs);
            let _dev = fs.unmount();
            held
        }
        Err(_) => Held::Other,
    }
}

// A device on which calls made the tree.
fn planted<D: Pm + Drop>(alloc: Global, dev: D) -> Result<D, Fail>
    requires { NothingPending (D.told dev) }
{
    let mut fs = match format(alloc, dev, 16) {
        Ok(fs) => fs,
        Err(_) => return Err(Fail::from("format")),
    };
    let made = (
        fs.mkdir(b"/d"),
        fs.create(b"/d/x"),
        fs.write(b"/d/x", 0, b"hi"),
    );
    let dev = fs.unmount();
    if made == (Ok(()), Ok(()), Ok(())) {
        Ok(dev)
    } else {
        Err(Fail::from("a call"))
    }
}

fn image(alloc: Global) -> Result<RamPm, Fail> {
    planted(alloc, RamPm::new(alloc, PAGES as u64)?)
}

// The device behind either answer, and why it was not mounted.
fn parts_of<D: Pm>(answer: Result<Fs<D>, NoMount<D>>) -> (D, Option<Why>) {
    match answer {
        Ok(fs) => (fs.unmount(), None),
        Err(no_mount) => {
            let NoMount { dev, why } = no_mount;
            (dev, Some(why))
        }
    }
}

#[test]
fn a_mount_may_lack_memory(rt: HostRuntime) -> Result<(), Fail> {
    let alloc = rt.alloc();
    let dev = image(alloc)?;
    say(&rt, "begin");
    let (dev, why) = parts_of(mount(alloc, dev));
    say(&rt, "end");
    let found = (why, held_on(alloc, dev));
    assert!(rt;
        matches!(found, (None | Some(Why::Memory), Held::Tree)),
        "{found:?}"
    );
    Ok(())
}

#[test]
fn a_format_may_lack_memory(rt: HostRuntime) -> Result<(), Fail> {
    let alloc = rt.alloc();
    let dev = image(alloc)?;
    say(&rt, "begin");
    let (dev, why) = parts_of(format(alloc, dev, 16));
    say(&rt, "end");
    let found = (why, held_on(alloc, dev));
    assert!(rt;
        matches!(
            found,
            (None, Held::Nothing) | (Some(Why::Memory), Held::Tree)
        ),
        "{found:?}"
    );
    Ok(())
}

// The words of a command.
fn words(alloc: Global) -> Result<Vec<String>, Fail> {
    let mut words = Vec::new(alloc);
    words.push(String::from_str(alloc, "run")?)?;
    words.push(String::from_str(alloc, "x")?)?;
    Ok(words)
}

#[test]
fn a_run_may_lack_memory(rt: HostRuntime) -> Result<(), Fail> {
    let alloc = rt.alloc();
    let dev = image(alloc)?;
    let words = words(alloc)?;
    let script = b"unlink /d/x\nrmdir /d\n".to_vec(alloc)?;
    let mut input = MemSource::new(script, 8, Vec::new(alloc));
    let mut out = MemSink::new(alloc, 100, Vec::new(alloc))?;
    say(&rt, "begin");
    let left = run(alloc, &words, dev, &mut input, &mut out);
    say(&rt, "end");
    let found = (left.status, out.bytes().len(), held_on(alloc, left.dev));
    assert!(rt;
        matches!(
            found,
            (Status::Done, 6, Held::Nothing) | (Status::NoMemory, 0, Held::Tree)
        ),
        "{found:?}"
    );
    Ok(())
}

// What a crash leaves of a device whose image is as it reads.
fn crashed(alloc: Global, dev: &TracePm) -> Result<TracePm, Fail>
    ensures { IfOk result (λ left. IsSettled (history left)) }
{
    let choice = choices(alloc, Image::Reads, LINES)?;
    Ok(dev.crash(alloc, &choice, Vec::new(alloc))?)
}

// The same image on a device that remembers its steps.
fn told_image(alloc: Global) -> Result<TracePm, Fail>
    ensures { IfOk result (λ left. IsSettled (history left)) }
{
    let words = vec![in alloc; 0; 512 * PAGES]?;
    let dev = TracePm::new(alloc, words, ROOM, Vec::new(alloc))?;
    crashed(alloc, &planted(alloc, dev)?)
}

#[test]
fn a_mount_through_a_stop_may_lack_memory(rt: HostRuntime) -> Result<(), Fail> {
    let alloc = rt.alloc();
    let dev = told_image(alloc)?;
    let stops = [Stop {
        passes: 10,
        choice: choices(alloc, Image::Reads, LINES)?,
    }];
    say(&rt, "begin");
    let (dev, why) = parts_of(mount_through(alloc, dev, &stops));
    say(&rt, "end");
    let found = (why, held_on(alloc, crashed(alloc, &dev)?));
    assert!(rt;
        matches!(found, (None | Some(Why::Memory), Held::Tree)),
        "{found:?}"
    );
    Ok(())
}
