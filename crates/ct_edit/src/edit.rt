// What a call does to the bytes of a file.
ghost use Rattle.std.specs.Prelude.{◌≡◌};
ghost use Rattle.ct_edit.specs.Edits.{task_of};

use ct_write::Data;

/// What a call does to a file.
#[derive(Clone, Copy, Debug, Drop)]
pub enum Edit<'a> {
    /// It writes these bytes from an offset on.
    Write { off: u64, bytes: &'a [u8] },

    /// It writes so many of one byte from an offset on.
    Fill { off: u64, len: u64, byte: u8 },

    /// It writes these bytes behind the last.
    Append { bytes: &'a [u8] },

    /// It gives the file a length.
    Truncate { len: u64 },
}

// The same, once the size of the file is known.
#[derive(Clone, Copy, Debug, Drop)]
pub enum Task<'a> {
    Write { off: u64, what: Data<'a> },
    Resize { len: u64 },
}

// What is done to a file of a size.
pub fn task_of<'a>(edit: Edit<'a>, size: u64) -> Task<'a>
    ensures { result ≡ task_of edit.entry size }
{
    match edit {
        Edit::Write { off, bytes } => Task::Write {
            off,
            what: Data::Bytes(bytes),
        },
        Edit::Fill { off, len, byte } => Task::Write {
            off,
            what: Data::Fill { len, byte },
        },
        Edit::Append { bytes } => Task::Write {
            off: size,
            what: Data::Bytes(bytes),
        },
        Edit::Truncate { len } => Task::Resize { len },
    }
}
