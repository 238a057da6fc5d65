use thiserror::Error;

/// Why an image was not found sound.
#[derive(Clone, Copy, Debug, PartialEq, Eq, Error)]
pub enum CheckFault {
    /// The number of the first mount rule that fails.
    #[error("not an image (rule {0})")]
    Damage(u32),
    #[error("no memory")]
    Memory,
}

/// Why the tables of one level were not read to their end.
#[derive(Clone, Copy, Debug, PartialEq, Eq)]
pub enum Stop {
    // An entry is neither 0 nor names a page.
    Entry,
    Memory,
}
