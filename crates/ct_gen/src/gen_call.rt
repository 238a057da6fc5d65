// One call of the workload.
ghost use Rattle.std.specs.Prelude.{◌≡◌, ◌++◌, ◌∷◌, [], codes, decimal};
ghost use Rattle.ct_tree.specs.Step.{exchange, op_of, read};
ghost use Rattle.ct_gen.specs.Made.{file_path, gen_op};

use ct_base::{NameBuf, PAGE_BYTES};
use ct_tree::Call;
use itoa::Buffer;

/// A call, held by its numbers alone. Files are named by a number, offsets and lengths are in bytes.
#[derive(Clone, Copy, Debug, PartialEq, Eq, Drop)]
pub enum GenCall {
    Create {
        file: u64,
    },
    Fill {
        file: u64,
        off: u64,
        len: u64,
        byte: u8,
    },
    Append {
        file: u64,
        byte: u8,
    },
    Truncate {
        file: u64,
        len: u64,
    },

    /// 4,096 bytes are read.
    Read {
        file: u64,
        off: u64,
    },

    /// 4,096 bytes at one offset of two files change places.
    Exchange {
        file: u64,
        other: u64,
        off: u64,
    },
    Rename {
        file: u64,
        to: u64,
    },
}

// Writes the path of a file, and answers its bytes.
fn path_of<'a>(file: u64, path: &'a mut NameBuf) -> &'a [u8]
    ensures { result.now ≡ file_path file }
{
    path.clear();
    let mut digits = Buffer::new();
    path.push(b'/');
    path.push(b'f');
    match path.try_extend_from_slice(digits.format(file).as_bytes()) {
        Ok(()) => {}
        Err(_) => unreachable!(),
    }
    path.as_slice()
}

// Writes one byte, and answers it as bytes.
fn byte_of<'a>(byte: u8, bytes: &'a mut NameBuf) -> &'a [u8]
    ensures { result.now ≡ byte ∷ [] }
{
    bytes.clear();
    bytes.push(byte);
    bytes.as_slice()
}

// A read of one page.
fn page_read<'a>(path: &'a [u8], off: u64) -> Call<'a>
    ensures { op_of result ≡ read path.now off PAGE_BYTES }
{
    Call::Read {
        path,
        off,
        len: PAGE_BYTES,
    }
}

// An exchange of one page of two files, at the same offset of both.
fn page_exchange<'a>(path: &'a [u8], other: &'a [u8], off: u64) -> Call<'a>
    ensures { op_of result ≡ exchange path.now off other.now off PAGE_BYTES }
{
    Call::Exchange {
        path,
        off,
        other,
        other_off: off,
        len: PAGE_BYTES,
    }
}

impl GenCall {
    /// The call. Its paths are written into the two buffers; of an append the path into the first, and the byte into the
    /// second.
    pub fn call<'a>(&self, first: &'a mut NameBuf, second: &'a mut NameBuf) -> Call<'a>
        ensures { op_of result ≡ gen_op self.now }
    {
        match *self {
            GenCall::Create { file } => Call::Create {
                path: path_of(file, first),
            },
            GenCall::Fill {
                file,
                off,
                len,
                byte,
            } => Call::Fill {
                path: path_of(file, first),
                off,
                len,
                byte,
            },
            GenCall::Append { file, byte } => Call::Append {
                path: path_of(file, first),
                bytes: byte_of(byte, second),
            },
            GenCall::Truncate { file, len } => Call::Truncate {
                path: path_of(file, first),
                len,
            },
            GenCall::Read { file, off } => page_read(path_of(file, first), off),
            GenCall::Exchange { file, other, off } => {
                page_exchange(path_of(file, first), path_of(other, second), off)
            }
            GenCall::Rename { file, to } => Call::Rename {
                path: path_of(file, first),
                to: path_of(to, second),
            },
        }
    }
}
