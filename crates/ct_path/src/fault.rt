// Why a path leads to nothing.
ghost use Rattle.std.specs.Prelude.{◌≡◌};
ghost use Rattle.ct_path.specs.Resolves.{refusal_of};

use ct_tree::Refusal;
use thiserror::Error;

/// Why a path leads to nothing.
#[derive(Clone, Copy, Debug, PartialEq, Eq, Error)]
pub enum PathFault {
    /// The bytes are no path.
    #[error("no path")]
    BadPath,

    /// A name is not in its directory.
    #[error("not found")]
    NotFound,

    /// What has a further name after it is a file.
    #[error("not a directory")]
    NotDir,
}

/// The refusal of a call that a fault of its path stops.
pub fn refusal_of(fault: PathFault) -> Refusal
    ensures { result ≡ refusal_of fault }
{
    match fault {
        PathFault::BadPath => Refusal::BadPath,
        PathFault::NotFound => Refusal::NotFound,
        PathFault::NotDir => Refusal::NotDir,
    }
}
