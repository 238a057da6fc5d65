// What the root holds.
ghost use Rattle.std.specs.Prelude.{◌≡◌, ◌≤◌, ◌∷◌, ℕ, Some, length, true};
ghost use Rattle.std.specs.Option.{option_map};
ghost use Rattle.ct_base.specs.Path.{is_name};
ghost use Rattle.ct_call.specs.Calls.{Keeps};
ghost use Rattle.ct_dir.specs.Directory.{name_in};
ghost use Rattle.ct_look.specs.Looks.{next_name};
ghost use Rattle.ct_tree.specs.Entries.{lookup};
ghost use Rattle.ct_tree.specs.Resolve.{entries_in};
ghost use Rattle.ct_tree.specs.Step.{count as entry_count, names_in};
ghost use Rattle.ct_tree.specs.Tree.{Tree};
ghost use Rattle.ct_tally.specs.Tallies.{bytes_below, size_of};

use arrayvec::ArrayVec;
use ct_base::{NAME_BYTES, NameBuf};
use ct_fs::{Fs, Stat};
use ct_pm::Pm;

/// The longest path of an entry of the root, in bytes.
const ENTRY_PATH_BYTES: usize = NAME_BYTES + 1;

/// The path of an entry of the root.
type PathBuf = ArrayVec<u8, ENTRY_PATH_BYTES>;

/// What the root holds.
#[derive(Clone, Copy, Debug, PartialEq, Eq)]
pub struct Held {
    /// How many entries it has.
    pub files: u64,

    /// The bytes of the files among them.
    pub bytes: u64,
}

/// Counts the entries of the root, and the bytes of its files.
pub fn held_in_root<D: Pm>(fs: &Fs<D>) -> Held
    ensures files { (inodes : ℕ) (t : Tree) → Keeps inodes fs.now.state t → result.files ≡ entry_count (entries_in t) }
    ensures bytes { (inodes : ℕ) (t : Tree) → Keeps inodes fs.now.state t → result.bytes ≡ bytes_below (entries_in t) }
{
    match fs.stat(b"/") {
        Ok(Stat::Dir { count }) => Held {
            files: count,
            bytes: bytes_in_root(fs, count),
        },
        Ok(Stat::File { size: _ }) => Held { files: 0, bytes: 0 },
        Err(_) => Held { files: 0, bytes: 0 },
    }
}

// The bytes of the files among so many entries of the root.
fn bytes_in_root<D: Pm>(fs: &Fs<D>, count: u64) -> u64
    ensures { (inodes : ℕ) (t : Tree) → Keeps inodes fs.now.state t → count ≡ entry_count (entries_in t)
        → result ≡ bytes_below (entries_in t) }
{
    let mut bytes: u64 = 0;
    let mut next = next_in_root(fs, None);
    for _ in 0..count {
        let name = match next {
            Some(name) => name,
            None => return bytes,
        };
        bytes = bytes.saturating_add(size_in_root(fs, name.as_slice()));
        next = next_in_root(fs, Some(name.as_slice()));
    }
    bytes
}

// The first name in the root that is later than another, or of all.
fn next_in_root<D: Pm>(fs: &Fs<D>, after: Option<&[u8]>) -> Option<NameBuf>
    ensures { (inodes : ℕ) (t : Tree) → Keeps inodes fs.now.state t
        → option_map (λ name. name.items) result ≡ next_name (name_in after.entry) (names_in (entries_in t)) }
{
    match fs.next_entry(b"/", after) {
        Ok(next) => next,
        Err(_) => None,
    }
}

// The size of a file in the root, 0 of a directory.
fn size_in_root<D: Pm>(fs: &Fs<D>, name: &[u8]) -> u64
    requires { length name.now ≤ NAME_BYTES }
    ensures { (inodes : ℕ) (t node : Tree) → Keeps inodes fs.now.state t → is_name name.now ≡ true
        → lookup name.now (entries_in t) ≡ Some node → result ≡ size_of node }
{
    let path = path_of(name);
    match fs.stat(path.as_slice()) {
        Ok(Stat::File { size }) => size,
        Ok(Stat::Dir { count: _ }) => 0,
        Err(_) => 0,
    }
}

// The path of an entry of the root.
fn path_of(name: &[u8]) -> PathBuf
    requires { length name.now ≤ NAME_BYTES }
    ensures { result.items ≡ 47 ∷ name.now }
{
    let mut path = PathBuf::new();
    path.push(b'/');
    match path.try_extend_from_slice(name) {
        Ok(()) => {}
        Err(_) => unreachable!(),
    }
    path
}
