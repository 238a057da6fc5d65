use thiserror::Error;

/// Why a dump stopped.
#[derive(Clone, Copy, Debug, PartialEq, Eq, Error)]
pub enum DumpFault {
    /// The sink failed.
    #[error("write fault")]
    Write,

    /// A node's path is longer than a call takes.
    #[error("path too long")]
    TooLong,
}
