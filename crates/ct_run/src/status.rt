// How a run ends.
ghost use Rattle.std.specs.Prelude.{◌≡◌};
ghost use Rattle.ct_run.specs.Ends.{code_of, status_of};

use ct_fs::{NoMount, Why};
use std::fmt;

/// How a run ended.
#[derive(Clone, Copy, Debug, PartialEq, Eq)]
pub enum Status {
    Done,

    /// The words are no command.
    Usage,

    /// The number of the mount rule that fails first.
    NotImage(u32),
    DeviceFault,
    ReadFault,
    WriteFault,
    NoMemory,

    /// The script has more than 16,777,216 bytes, or a path of a dump more than 4,096.
    TooLong,
}

impl Status {
    /// The exit status of a program that ends so.
    pub fn code(&self) -> u8
        ensures { result ≡ code_of self.now }
    {
        match self {
            Status::Done => 0,
            Status::Usage => 2,
            Status::NotImage(_) => 3,
            Status::DeviceFault => 4,
            Status::ReadFault => 5,
            Status::WriteFault => 6,
            Status::NoMemory => 7,
            Status::TooLong => 8,
        }
    }

    // What a program says that ends so, without the number of a rule.
    fn text(&self) -> &'static str {
        match self {
            Status::Done => "done",
            Status::Usage => "usage",
            Status::NotImage(_) => "not an image",
            Status::DeviceFault => "device fault",
            Status::ReadFault => "read fault",
            Status::WriteFault => "write fault",
            Status::NoMemory => "no memory",
            Status::TooLong => "too long",
        }
    }
}

impl fmt::Display for Status {
    fn fmt<W: fmt::Write>(&self, f: &mut fmt::Formatter<W>) -> fmt::Result {
        match self {
            Status::NotImage(rule) => write!(f, "{} (rule {rule})", self.text()),
            _ => f.write_str(self.text()),
        }
    }
}

/// What a run leaves.
#[derive(Drop)]
pub struct Outcome<D> {
    pub status: Status,
    pub dev: D,
}

/// How a run ends whose device was not made a file system, or not mounted.
pub fn refused<D>(no_mount: NoMount<D>) -> Outcome<D>
    ensures status { result.status ≡ status_of no_mount.why }
    ensures dev { result.dev ≡ no_mount.dev }
{
    let NoMount { dev, why } = no_mount;
    Outcome {
        status: status_of(why),
        dev,
    }
}

fn status_of(why: Why) -> Status
    ensures { result ≡ status_of why }
{
    match why {
        Why::Damage(rule) => Status::NotImage(rule),
        Why::Fault => Status::DeviceFault,
        Why::Memory => Status::NoMemory,
    }
}
