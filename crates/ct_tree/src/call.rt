// The calls of the tree, and what they answer.
ghost use Rattle.std.specs.Prelude.{◌≡◌, ◌≤◌, ◌↔◌, map, length, IsNone, IfSome, Some, slice_get};
ghost use Rattle.ct_tree.specs.Refusals.{refusal_number};

use std::marker::Model;

/// A call, with the bytes and numbers that it is given. Offsets and lengths are in bytes.
#[derive(Clone, Copy)]
pub enum Call<'a> {
    Create {
        path: &'a [u8],
    },
    Mkdir {
        path: &'a [u8],
    },
    Write {
        path: &'a [u8],
        off: u64,
        bytes: &'a [u8],
    },
    Fill {
        path: &'a [u8],
        off: u64,
        len: u64,
        byte: u8,
    },
    Append {
        path: &'a [u8],
        bytes: &'a [u8],
    },
    Read {
        path: &'a [u8],
        off: u64,
        len: u64,
    },
    Truncate {
        path: &'a [u8],
        len: u64,
    },
    Unlink {
        path: &'a [u8],
    },
    Rmdir {
        path: &'a [u8],
    },
    Rename {
        path: &'a [u8],
        to: &'a [u8],
    },
    Exchange {
        path: &'a [u8],
        off: u64,
        other: &'a [u8],
        other_off: u64,
        len: u64,
    },
    Stat {
        path: &'a [u8],
    },
    List {
        path: &'a [u8],
    },
    Where {
        path: &'a [u8],
    },
}

/// Why a call is refused.
#[derive(Clone, Copy, Debug, PartialEq, Eq)]
pub enum Refusal {
    /// The bytes are no path.
    BadPath,

    /// A name of the path is not in its directory.
    NotFound,

    /// A directory was wanted, and a file is there.
    NotDir,

    /// A file was wanted, and a directory is there.
    IsDir,

    /// The name is there already.
    Exists,

    /// The directory has entries.
    NotEmpty,

    /// A directory would come below itself.
    IntoSelf,

    /// The root cannot be moved or removed.
    IsRoot,

    /// A file would be longer than `FILE_BYTES`.
    TooBig,

    /// A range is not of whole pages, or ends past its file.
    BadRange,

    /// Two ranges of one file share a byte.
    Overlap,

    /// More bytes than one call may read or exchange.
    TooLong,

    /// All inodes are in use.
    NoInode,

    /// No partition of the level is free.
    NoPartition { level: u32 },

    /// Fewer pages are free than the call needs.
    NoPages { free: u64, need: u64 },
}

impl Refusal {
    /// The number of the refusal, from 1 to 15.
    pub fn number(&self) -> u32
        ensures { result ≡ refusal_number self.now }
    {
        match self {
            Refusal::BadPath => 1,
            Refusal::NotFound => 2,
            Refusal::NotDir => 3,
            Refusal::IsDir => 4,
            Refusal::Exists => 5,
            Refusal::NotEmpty => 6,
            Refusal::IntoSelf => 7,
            Refusal::IsRoot => 8,
            Refusal::TooBig => 9,
            Refusal::BadRange => 10,
            Refusal::Overlap => 11,
            Refusal::TooLong => 12,
            Refusal::NoInode => 13,
            Refusal::NoPartition { level: _ } => 14,
            Refusal::NoPages { free: _, need: _ } => 15,
        }
    }
}

/// Bytes that were read.
#[derive(Drop)]
pub struct Bytes {
    bytes: Vec<u8>,
}

impl Model for Bytes {
    ghost use Rattle.std.specs.Prelude.{List, ℕ};

    ghost Value = { List ℕ };

    ghost view = { λ b. b.bytes.items };
}

impl Bytes {
    pub fn new(bytes: Vec<u8>) -> Bytes
        ensures { result ≡ bytes.items }
    {
        Bytes { bytes }
    }

    pub fn as_slice(&self) -> &[u8]
        ensures { result.now ≡ self.now }
    {
        self.bytes.as_slice()
    }
}

/// The names in a directory, in byte order.
#[derive(Drop)]
pub struct NameList {
    names: Vec<Vec<u8>>,
}

impl Model for NameList {
    ghost use Rattle.std.specs.Prelude.{List, ℕ, map};

    ghost Value = { List (List ℕ) };

    ghost view = { λ l. map (λ n. n.items) l.names.items };
}

impl NameList {
    pub fn new(names: Vec<Vec<u8>>) -> NameList
        ensures { result ≡ map (λ n. n.items) names.items }
    {
        NameList { names }
    }

    /// The name with a number from 0 on.
    pub fn get(&self, i: u64) -> Option<&[u8]>
        ensures none { IsNone result ↔ (length self.now ≤ i) }
        ensures name { IfSome result (λ name. slice_get self.now i ≡ Some name.now) }
    {
        match self.names.get(i as usize) {
            Some(name) => Some(name.as_slice()),
            None => None,
        }
    }
}

/// What a call answers.
#[derive(Drop)]
pub enum Reply {
    Done,

    /// The bytes that were read.
    Data(Bytes),

    /// The size of a file in bytes.
    File(u64),

    /// How many entries a directory has.
    Dir(u64),

    /// The names in a directory.
    Names(NameList),

    /// Where a file lies: the base and the level of its partition, 0 and `NO_PARTITION` where it has none.
    At { base: u64, level: u32 },

    Refused(Refusal),

    /// The answer to a line that is no call.
    BadLine,
}
