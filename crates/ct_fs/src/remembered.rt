// What a mount remembers of its device from one call to the next.
use ct_learn::Learnt;

/// What a mount remembers: names and pages that were learnt, and where the search for a free inode begins.
#[derive(Drop)]
pub struct Remembered {
    pub learnt: Learnt,

    // Every inode below is live: a free one is searched for from here on.
    pub free_from: u64,
}
