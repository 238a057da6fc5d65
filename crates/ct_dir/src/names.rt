// Names as words, as a slot holds them.
ghost use Rattle.std.specs.Prelude.{◌≡◌, ◌+◌, ◌*◌, ◌^◌, ◌<◌, ◌≤◌, length, slice_index};
ghost use Rattle.ct_base.specs.Inode.{little};
ghost use Rattle.ct_dir.specs.Packed.{name_words, slot_words};
ghost use Rattle.ct_dir.specs.Keys.{IsKey};

use ct_base::NAME_BYTES;

/// The words of a slot that hold its name.
pub const NAME_WORDS: usize = NAME_BYTES / 8;

/// The words of a slot: one for the inode and the length of the name, and those of the name.
pub const SLOT_WORDS: usize = 1 + NAME_WORDS;

/// A name with which slots are compared.
#[derive(Clone, Copy, Debug)]
pub struct Key {
    /// The first 248 bytes, with zeros past the end of the name.
    pub words: [u64; NAME_WORDS],

    /// The length of the name in bytes.
    pub length: u64,
}

impl Key {
    pub fn of(name: &[u8]) -> Key
        ensures { IsKey name.now result }
    {
        Key {
            words: name_words(name),
            length: name.len() as u64,
        }
    }
}

/// The byte of a name at a place, 0 past its end.
fn byte_of(name: &[u8], at: usize) -> u8
    ensures { result ≡ slice_index name.now at }
{
    if at < name.len() { name[at] } else { 0 }
}

/// Eight bytes of a name from a place on, the lowest first.
fn word_of(name: &[u8], from: usize) -> u64
    requires { from ≤ 240 }
    ensures { result ≡ little (slice_index name.now) from 8 }
{
    u64::from_le_bytes([
        byte_of(name, from),
        byte_of(name, from + 1),
        byte_of(name, from + 2),
        byte_of(name, from + 3),
        byte_of(name, from + 4),
        byte_of(name, from + 5),
        byte_of(name, from + 6),
        byte_of(name, from + 7),
    ])
}

/// The first 248 bytes of a name as words, with zeros past its end.
pub fn name_words(name: &[u8]) -> [u64; NAME_WORDS]
    ensures { result ≡ name_words name.now }
{
    let mut words = [0; NAME_WORDS];
    for k in 0..NAME_WORDS {
        words[k] = word_of(name, 8 * k);
    }
    words
}

/// The 32 words of the slot of a name and the inode that it names.
pub fn slot_words(inode: u64, name: &[u8]) -> [u64; SLOT_WORDS]
    requires inode { inode < 2 ^ 32 }
    requires short { length name.now ≤ NAME_BYTES }
    ensures { result ≡ slot_words inode name.now }
{
    let mut words = [0; SLOT_WORDS];
    words[0] = inode + name.len() as u64 * (1 << 32);
    for k in 0..NAME_WORDS {
        words[k + 1] = word_of(name, 8 * k);
    }
    words
}
