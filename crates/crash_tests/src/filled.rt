// Entries are made until the image is full, and then one more.
ghost use Rattle.std.specs.Prelude.{◌≤◌, IfSome, IsSomeAnd};
ghost use Rattle.ct_call.specs.Calls.{StandsFor};
ghost use Rattle.ct_fs.specs.Mounts.{mounts};
ghost use Rattle.ct_pm.specs.Ram.{words_of};
ghost use Rattle.ct_tree.specs.Lands.{Lands};
ghost use Rattle.ct_tree.specs.Tree.{Dir, Tree, none};

use create_stops::reader::{inode_word, read_alike};
use create_stops::rest::{PAGES, lowest_free};
use ct_base::{ENTRY_BYTES, INODE_BYTES, LEAST_INODES, MOST_INODES, MOST_PAGES, SLOT_SPAN, Vaddr};
use ct_fs::{Fs, FsError, Stat, format};
use ct_pm::RamPm;
use ct_tree::Refusal;
use pm_fuse::FusePm;
use std::alloc::Global;
use std::ops::Range;
use std::test::Fail;

// A new file system, where there is memory.
fn new_fs(alloc: Global, pages: u64, inodes: u64) -> Option<Fs<RamPm>>
    requires pages { pages ≤ MOST_PAGES }
    requires two { LEAST_INODES ≤ inodes }
    requires few { inodes ≤ MOST_INODES }
    ensures { IfSome result (λ fs. IsSomeAnd (mounts fs) (λ now. StandsFor (words_of now.dev) (Dir none))) }
{
    let dev = RamPm::new(alloc, pages).ok()?;
    match format(alloc, dev, inodes) {
        Ok(fs) => Some(fs),
        Err(_) => None,
    }
}

// Makes a file in the root for each letter.
fn create_letters(fs: &mut Fs<RamPm>, letters: Range<u8>) -> Result<(), FsError> {
    for letter in letters {
        fs.create(&[b'/', letter])?;
    }
    Ok(())
}

// A page has 16 slots, so the 17th entry lets the root grow to level 1. The lowest range of that level holds the root's old
// partition, so it moves to the second, 32,768 bytes after the base of root slot 10.
#[test]
fn the_root_grows_for_its_17th_entry(rt: HostRuntime) {
    let mut fs = new_fs(rt.alloc(), 256, 64).expect(&rt, "a new file system");
    let made = create_letters(&mut fs, b'a'..b'r');
    let told = fs.stat(b"/");
    let dev = fs.unmount();
    assert_eq!(rt; (made, told), (Ok(()), Ok(Stat::Dir { count: 17 })));
    let words = [1, 2, 3].map(|at| inode_word(&dev, 1, at));
    assert_eq!(rt; words, [17 * ENTRY_BYTES, 5_497_558_171_648, 1]);
}

// The root has the first of 16 inodes. A partition is free as long as there are fewer than 502 objects, so that a refusal
// for want of one is out of reach here: the proofs alone speak of it.
#[test]
fn inodes_run_out(rt: HostRuntime) {
    let alloc = rt.alloc();
    let mut fs = new_fs(alloc, 256, 16).expect(&rt, "a new file system");
    let mut twin = new_fs(alloc, 256, 16).expect(&rt, "another");
    let made = (
        create_letters(&mut fs, b'a'..b'p'),
        create_letters(&mut twin, b'a'..b'p'),
    );
    let refused = (fs.create(b"/p"), fs.mkdir(b"/p"));
    let (dev, other) = (fs.unmount(), twin.unmount());
    let no_inode = Err(FsError::Refused(Refusal::NoInode));
    assert_eq!(rt; (made, refused), ((Ok(()), Ok(())), (no_inode, no_inode)));
    assert!(rt; read_alike(&dev, &other));
}

// The path of an entry `a` in a directory that has a letter and a number in its name.
fn path_of(letter: u8, number: u8) -> [u8; 7] {
    let digits = [number / 100, number / 10 % 10, number % 10];
    [
        b'/',
        letter,
        b'0' + digits[0],
        b'0' + digits[1],
        b'0' + digits[2],
        b'/',
        b'a',
    ]
}

// Makes 53 files and 165 directories in the root, and a file in each directory but the last.
fn fill(fs: &mut Fs<RamPm>) -> Result<(), FsError> {
    for number in 0..53 {
        fs.create(&path_of(b'f', number)[..5])?;
    }
    for number in 0..164 {
        let path = path_of(b'd', number);
        fs.mkdir(&path[..5])?;
        fs.create(&path)?;
    }
    fs.mkdir(b"/d164")
}

// Of 256 pages the format leaves 214. The root's first entry takes 31 of them: nine pages of headers with nine tables of
// level 1 and nine of level 2, and the root's page with three tables. Its 218 entries need 13 pages more, at 16 to the page.
// Each of the 164 directories with a file has a page, and all partitions lie below the same table of level 1. The inodes
// up to 383 lie in five pages beside the first, at 64 to the page. So 214 - 31 - 13 - 164 - 5 = 1 page is free. One more
// file takes two: the page of its directory, and that of inode 384.
#[test]
fn pages_run_out(rt: HostRuntime) {
    let alloc = rt.alloc();
    let mut fs = new_fs(alloc, 256, 1024).expect(&rt, "a new file system");
    let mut twin = new_fs(alloc, 256, 1024).expect(&rt, "another");
    let made = (fill(&mut fs), fill(&mut twin));
    let refused = fs.create(b"/d164/a");
    let (dev, other) = (fs.unmount(), twin.unmount());
    let no_pages = Err(FsError::Refused(Refusal::NoPages { free: 1, need: 2 }));
    assert_eq!(rt; (made, refused), ((Ok(()), Ok(())), no_pages));
    assert!(rt; read_alike(&dev, &other));
}

// Eight bytes at an address as a word, the lowest first.
fn peek_word(fs: &Fs<RamPm>, address: u64) -> Option<u64> {
    let mut word = 0;
    for i in 0..8 {
        let at = Vaddr::new(address.saturating_add(7 - i))?;
        word = word % (1 << 56) * 256 + fs.peek(at) as u64;
    }
    Some(word)
}

// The address of the level-9 bytes, one for each root slot.
const LEVEL_9: u64 = 687_194_767_360;

// A device of `PAGES` pages with one file, where there is memory.
fn with_file(alloc: Global) -> Option<RamPm>
    ensures { IfSome result (λ dev. (t : Tree) × Lands (words_of dev) t) }
{
    let mut fs = new_fs(alloc, PAGES, 64)?;
    let _ = fs.create(b"/a");
    Some(fs.unmount())
}

// The root's partition is the lowest of level 0. So slot 10 strictly holds a partition, and the largest free one inside it
// is of level 8: its byte is 32 + 9. Slots 0 to 9 are no partitions, and slot 11 is the lowest free one of level 9.
#[test]
fn slot_11_is_the_lowest_free_one(rt: HostRuntime) {
    let alloc = rt.alloc();
    let mut fs = new_fs(alloc, 4096, 64).expect(&rt, "a new file system");
    let made = fs.create(b"/a");
    let words = (peek_word(&fs, LEVEL_9), peek_word(&fs, LEVEL_9 + 8));
    let _dev = fs.unmount();
    let slots = (Some(0x3030_3030_3030_3030), Some(0x29_3030));
    assert_eq!(rt; (made, words), (Ok(()), slots));
    let dev = with_file(alloc).expect(&rt, "a device");
    assert_eq!(rt; lowest_free(dev, 9), Some(11 * SLOT_SPAN));
}

// The steps of a format.
const FORMAT_STEPS: u64 = 5770;

// The kind of inode 1 reads after the fault.
#[test]
fn a_mount_is_dead_after_a_fault(rt: HostRuntime) -> Result<(), Fail> {
    let alloc = rt.alloc();
    let dev = FusePm::new(RamPm::new(alloc, 256)?, FORMAT_STEPS + 10);
    let kind = Vaddr::new(INODE_BYTES).ok_or("an address")?;
    let mut fs = format(alloc, dev, 16).ok().expect(&rt, "a new file system");
    let answers = (fs.create(b"/a"), fs.stat(b"/a"), fs.peek(kind));
    let _dev = fs.unmount();
    assert_eq!(rt; answers, (Err(FsError::Fault), Err(FsError::Dead), 2));
    Ok(())
}
