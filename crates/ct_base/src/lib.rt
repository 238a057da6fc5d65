//! What every crate names: where bytes come from, where they go, how that fails, and the numbers of pages and addresses.
#![tactic(auto)]

mod inode;
mod layout;
mod limits;
mod mem;
mod page;
mod split;
mod std_ends;

ghost use Rattle.std.specs.Prelude.{◌<◌, ℕ, List, length};
ghost use Rattle.std.specs.declared.option.Option.{Option};
ghost use Rattle.std.specs.Io.{ReadsAtMost};
ghost use Rattle.std.specs.Io.KnownBytes.{ReadConsumes};
ghost use Rattle.ct_base.specs.Causes.{HasCause};
ghost use Rattle.ct_base.specs.Bytes.{PutAppends};

use arrayvec::ArrayVec;
pub use inode::Inode;
pub use layout::{
    ADDRESS_END, DIRECTORY_KIND, ENTRY_BYTES, ENTRY_WORDS, FILE_KIND, FIRST_PAGE, INODE_BYTES,
    LEAST_INODES, LEAST_PAGES, LONG_GATE, LONG_PAIRS, MAGIC, MOST_INODES, MOST_LONG_PAIRS,
    MOST_PAGES, MOST_SHORT_PAIRS, NO_PARTITION, PAGE_BYTES, PAGE_WORDS, PARTITION_SLOT,
    PARTITION_SLOTS, PATH_BYTES, ROOT_PAGE, ROOT_WORD, SHORT_GATE, SHORT_PAIRS, SLOT_PAGES,
    SLOT_SPAN, STAGING_SLOT, STAGING_SLOTS, TABLE_ENTRIES, TOP_LEVEL, VERSION,
};
pub use limits::{MOST_CALL_PAIRS, MOST_EXCHANGE_PAIRS, MOST_GROWTH_PAIRS};
pub use mem::{MemSink, MemSource};
pub use page::{Page, Vaddr};
pub use split::first_part;
pub use std_ends::{StdSink, StdSource};
use thiserror::Error;

/// Memory ran out.
#[derive(Clone, Copy, Debug, PartialEq, Eq, Error)]
#[error("no memory")]
pub struct NoMemory;

/// A read failed.
#[derive(Clone, Copy, Debug, PartialEq, Eq, Error)]
#[error("read fault")]
pub struct ReadFault;

/// A write failed.
#[derive(Clone, Copy, Debug, PartialEq, Eq, Error)]
#[error("write fault")]
pub struct WriteFault;

/// The longest name of a file or directory, in bytes.
pub const NAME_BYTES: usize = 248;

/// A buffer for one name.
pub type NameBuf = ArrayVec<u8, NAME_BYTES>;

/// Where input comes from, in pieces.
pub trait Source {
    // The bytes still to come, where they are told.
    ghost rest: { Self → Option (List ℕ) };

    // How many faults there were.
    ghost faults: { Self → ℕ };

    /// Puts bytes at the front of `buf`, and answers how many; 0 is the end of the input. A fault takes nothing off the rest.
    fn next(&mut self, buf: &mut [u8]) -> Result<usize, ReadFault>
        requires { 0 < length buf.old }
        ensures bound { ReadsAtMost result buf.new }
        ensures bytes { ReadConsumes (rest self.old) (rest self.new) result buf.new }
        ensures cause { HasCause (faults self.old) (faults self.new) result };
}

/// Where output goes.
pub trait Sink {
    // The bytes that were written, where they are told.
    ghost written: { Self → Option (List ℕ) };

    // How many faults there were.
    ghost faults: { Self → ℕ };

    /// Appends the bytes. After a fault a prefix of them was appended.
    fn put(&mut self, bytes: &[u8]) -> Result<(), WriteFault>
        ensures bytes { PutAppends (written self.old) (written self.new) result bytes.now }
        ensures cause { HasCause (faults self.old) (faults self.new) result };
}
