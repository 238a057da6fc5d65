// The memory of replies.
ghost use Rattle.std.specs.Prelude.{◌≡◌, length};
ghost use Rattle.ct_tree.specs.Step.{read_limit};

use ct_base::NoMemory;
use ct_script::Quote;
use ct_tree::checks::READ_BYTES;
use std::alloc::Global;

/// How many entries of a directory are put in order at once.
const LISTED_ENTRIES: usize = 65_536;

/// The memory of replies: for one name as it is written, for the bytes of one read, and for the entries of a directory in order.
#[derive(Drop)]
pub struct ReplyBuffers {
    pub(crate) quote: Quote,
    pub(crate) bytes: Vec<u8>,
    pub(crate) offsets: Vec<u64>,
    ghost long: { length bytes.items ≡ read_limit },
}

impl ReplyBuffers {
    /// Takes memory for the longest name, the longest read and 65,536 entries of a directory.
    pub fn new(alloc: Global) -> Result<ReplyBuffers, NoMemory> {
        let quote = Quote::new(alloc)?;
        let offsets = match vec![in alloc; 0u64; LISTED_ENTRIES] {
            Ok(offsets) => offsets,
            Err(_) => return Err(NoMemory),
        };
        match vec![in alloc; 0u8; READ_BYTES as usize] {
            Ok(bytes) => Ok(ReplyBuffers {
                quote,
                bytes,
                offsets,
            }),
            Err(_) => Err(NoMemory),
        }
    }
}
