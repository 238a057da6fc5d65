// How a look ends.
ghost use Rattle.std.specs.Prelude.{◌≡◌};
ghost use Rattle.ct_tell.specs.Ends.{code_of};

use ct_tree::Refusal;
use std::fmt;

/// How a look ended.
#[derive(Clone, Copy, Debug, PartialEq, Eq)]
pub enum Status {
    Done,

    /// The words are no command.
    Usage,

    /// The number of the mount rule that fails first.
    NotImage(u32),

    /// The file is not there, or cannot be read.
    DeviceFault,
    WriteFault,
    NoMemory,

    /// Why there is nothing to tell of a path.
    Refused(Refusal),
}

impl Status {
    /// The exit status of a program that ends so.
    pub fn code(&self) -> u8
        ensures { result ≡ code_of self.now }
    {
        match self {
            Status::Done => 0,
            Status::Usage => 2,
            Status::NotImage(_) => 3,
            Status::DeviceFault => 4,
            Status::WriteFault => 6,
            Status::NoMemory => 7,
            Status::Refused(_) => 9,
        }
    }

    // What a program says that ends so, without the number of a rule.
    fn text(&self) -> &'static str {
        match self {
            Status::Done => "done",
            Status::Usage => "usage",
            Status::NotImage(_) => "not an image",
            Status::DeviceFault => "device fault",
            Status::WriteFault => "write fault",
            Status::NoMemory => "no memory",
            Status::Refused(refusal) => refusal_text(refusal),
        }
    }
}

// A refusal in the words of a script's reply.
fn refusal_text(refusal: &Refusal) -> &'static str {
    match refusal {
        Refusal::BadPath => "error bad path",
        Refusal::NotFound => "error not found",
        Refusal::NotDir => "error not a directory",
        Refusal::IsDir => "error is a directory",
        Refusal::Exists => "error exists",
        Refusal::NotEmpty => "error not empty",
        Refusal::IntoSelf => "error into itself",
        Refusal::IsRoot => "error is the root",
        Refusal::TooBig => "error too big",
        Refusal::BadRange => "error bad range",
        Refusal::Overlap => "error overlap",
        Refusal::TooLong => "error too long",
        Refusal::NoInode => "error no inode",
        Refusal::NoPartition { level: _ } => "error no partition",
        Refusal::NoPages { free: _, need: _ } => "error no pages",
    }
}

impl fmt::Display for Status {
    fn fmt<W: fmt::Write>(&self, f: &mut fmt::Formatter<W>) -> fmt::Result {
        match self {
            Status::NotImage(rule) => write!(f, "{} (rule {rule})", self.text()),
            _ => f.write_str(self.text()),
        }
    }
}
