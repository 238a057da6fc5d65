// The two kinds of objects.
ghost use Rattle.std.specs.Prelude.{◌≡◌};
ghost use Rattle.ct_find.specs.Kinds.{kind_of};

use ct_base::{DIRECTORY_KIND, FILE_KIND};

/// What a call makes or removes.
#[derive(Clone, Copy, Debug, PartialEq, Eq)]
pub enum Kind {
    File,
    Directory,
}

impl Kind {
    /// The kind as an inode has it.
    pub fn number(self) -> u64
        ensures { result ≡ kind_of self }
    {
        match self {
            Kind::File => FILE_KIND,
            Kind::Directory => DIRECTORY_KIND,
        }
    }
}
