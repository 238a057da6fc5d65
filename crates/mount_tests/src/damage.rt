// Images written as words, or made by calls and then changed, and what a mount answers to them.
use check_tests::{EMPTY, ROWS, TWO_FILES, answer as checked, image};
use create_stops::reader::{inode_word, place, word_at};
use ct_base::{ENTRY_BYTES, ENTRY_WORDS, INODE_BYTES, NoMemory, PAGE_WORDS};
use ct_check::CheckFault;
use ct_fs::{Fs, Why, mount};
use ct_pm::{Pm, RamPm};
use script_runs::{formatted, ran};
use std::alloc::Global;
use std::test::Fail;

// How many pages are free on a device that was mounted.
fn free_pages(fs: Fs<RamPm>) -> u64 {
    match fs.into_parts() {
        Ok((_dev, frames)) => frames.free(),
        Err(_dev) => 0,
    }
}

// The number of free pages where an image is mounted.
fn mounted(alloc: Global, dev: RamPm) -> Result<u64, Why> {
    match mount(alloc, dev) {
        Ok(fs) => Ok(free_pages(fs)),
        Err(no_mount) => Err(no_mount.why),
    }
}

// The number of free pages where the image with these words set anew is mounted.
fn answer(alloc: Global, first: &[(u64, u64)], then: &[(u64, u64)]) -> Result<u64, Why> {
    match image(alloc, first, then) {
        Some(dev) => mounted(alloc, dev),
        None => Err(Why::Memory),
    }
}

// The rules are checked by themselves, and by a mount.
#[test]
fn the_first_rule_that_fails_is_told(rt: HostRuntime) {
    let alloc = rt.alloc();
    for (row, (first, then, rule)) in ROWS.iter().enumerate() {
        let found = (checked(alloc, first, then), answer(alloc, first, then));
        let want = (Err(CheckFault::Damage(*rule)), Err(Why::Damage(*rule)));
        assert_eq!(rt; found, want, "row {row}");
    }
}

#[test]
fn the_pages_of_an_image_are_counted(rt: HostRuntime) {
    let alloc = rt.alloc();
    for (first, pages) in [(EMPTY, 214), (TWO_FILES, 210)] {
        let found = (checked(alloc, first, EMPTY), answer(alloc, first, EMPTY));
        assert_eq!(rt; found, (Ok(pages), Ok(pages)));
    }
}

// A record of one pair, behind the short gate or the long one.
const SHORT: &[(u64, u64)] = &[(527, 1), (520, 18952), (521, 2)];

const LONG: &[(u64, u64)] = &[(512, 1), (528, 16897), (529, 155649)];

#[test]
fn a_record_is_applied_before_rule_8(rt: HostRuntime) {
    for (first, then, want) in [
        (&[(18952, 1)][..], SHORT, Ok(214)),
        (&[(16897, 155650)][..], LONG, Ok(214)),
        (SHORT, &[(521, 1)][..], Err(Why::Damage(10))),
        // what is staged counts for nothing
        (&[(16898, 7)][..], &[(16905, 139265)][..], Ok(214)),
    ] {
        assert_eq!(rt; answer(rt.alloc(), first, then), want);
    }
}

// Sets the word at an address, where a page is there.
fn set_at(dev: &mut RamPm, address: u64, value: u64) {
    match place(dev, address) {
        Some(word) if word / PAGE_WORDS < dev.pages() => {
            let _ = dev.store(word, value);
        }
        _ => {}
    }
}

// Sets so many words from an address on to 0.
fn clear(dev: &mut RamPm, address: u64, words: u64) {
    for k in 0..words {
        set_at(dev, address.saturating_add(k.saturating_mul(8)), 0);
    }
}

// The address of the first slot of a directory.
fn first_slot(dev: &RamPm, dir: u64) -> u64 {
    inode_word(dev, dir, 2)
}

// What is changed in an image.
#[derive(Clone, Copy, Debug)]
enum Change {
    // The only slot of the root keeps its inode, and its name gets no byte.
    Nameless,

    // The second slot of the root gets the name of the first.
    NamedAlike,

    // The file in the directory with inode 3 goes, which has inode 4. Its slot names the directory with inode 2, in which inode 3
    // is, and the root has that no more.
    Round,
}

fn apply(dev: &mut RamPm, change: Change) {
    let root = first_slot(dev, 1);
    match change {
        Change::Nameless => {
            let head = word_at(dev, root);
            set_at(dev, root, head % (1 << 32));
        }
        Change::NamedAlike => {
            let name = word_at(dev, root.saturating_add(8));
            set_at(dev, root.saturating_add(ENTRY_BYTES + 8), name);
        }
        Change::Round => {
            let slot = first_slot(dev, 3);
            set_at(dev, slot, 2 + (1 << 32));
            clear(dev, 4 * INODE_BYTES, 8);
            clear(dev, root, ENTRY_WORDS);
        }
    }
}

// What a mount answers to the image that a script leaves, once it is changed.
fn changed(alloc: Global, script: &str, what: Change) -> Result<Result<u64, Why>, NoMemory> {
    let mut dev = ran(alloc, "run x", formatted(alloc, 256)?, script.as_bytes())?.dev;
    apply(&mut dev, what);
    Ok(mounted(alloc, dev))
}

#[test]
fn images_that_calls_made_fail_once_their_names_are_changed(rt: HostRuntime) -> Result<(), Fail> {
    for (script, what, rule) in [
        ("create /a\n", Change::Nameless, 17),
        ("create /a\ncreate /b\n", Change::NamedAlike, 18),
        ("mkdir /d\nmkdir /d/e\ncreate /d/e/x\n", Change::Round, 20),
    ] {
        let found = changed(rt.alloc(), script, what)?;
        assert_eq!(rt; found, Err(Why::Damage(rule)), "{what:?}");
    }
    Ok(())
}
