/// What the holder of the medium is asked to do.
#[derive(Clone, Copy, Debug, PartialEq, Eq)]
pub enum Ask {
    /// To write a line of 64 bytes, by its number and its words.
    Write { line: u64, words: [u64; 8] },

    /// To wait until all that was written is there.
    Sync,
}
