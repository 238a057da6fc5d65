// The memory of a run.
ghost use Rattle.std.specs.Prelude.{◌≡◌, IfOk, length};
ghost use Rattle.ct_script.specs.Feed.{unasked};

use ct_base::{NoMemory, PAGE_BYTES};
use ct_script::{Feed, Scratch};
use ct_shell::ReplyBuffers;
use std::alloc::Global;

/// The memory of a script: for one line, for its call, and for the reply.
#[derive(Drop)]
pub struct Buffers {
    pub(crate) feed: Feed,
    pub(crate) scratch: Scratch,
    pub(crate) replies: ReplyBuffers,
}

impl Buffers {
    pub fn new(alloc: Global) -> Result<Buffers, NoMemory>
        ensures { IfOk result (λ buffers. buffers.feed ≡ unasked) }
    {
        let feed = Feed::new(alloc)?;
        let scratch = Scratch::new(alloc)?;
        let replies = ReplyBuffers::new(alloc)?;
        Ok(Buffers {
            feed,
            scratch,
            replies,
        })
    }
}

/// Memory for a page that is read.
#[derive(Drop)]
pub struct Page {
    pub(crate) bytes: Vec<u8>,
}

impl Page {
    pub fn new(alloc: Global) -> Result<Page, NoMemory>
        ensures { IfOk result (λ page. length page.bytes.items ≡ PAGE_BYTES) }
    {
        match vec![in alloc; 0u8; PAGE_BYTES as usize] {
            Ok(bytes) => Ok(Page { bytes }),
            Err(_) => Err(NoMemory),
        }
    }
}
