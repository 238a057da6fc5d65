// What a call has touched of a file.

/// The bytes of a file that a call wrote.
#[derive(Clone, Copy, Debug)]
pub enum Touched {
    /// So many from an offset on.
    From { off: u64, len: u64 },

    /// So many at its end.
    Last { len: u64 },

    /// None.
    Nothing,
}

impl Touched {
    /// The offset of the first of them in a file of a size, and how many they are.
    pub fn range(self, size: u64) -> (u64, u64) {
        match self {
            Touched::From { off, len } => (off, len),
            Touched::Last { len } => (size.saturating_sub(len), len),
            Touched::Nothing => (0, 0),
        }
    }
}
