//! A device of persistent memory over a file that is there already.
//!
//! The one model is plain memory: the words as they read, and beside them two sets of lines. A line is stored to where
//! memory may differ from the file, and marked where it was flushed since. A fence writes the marked lines and syncs the
//! file, and only then do their marks go. The device tells no images: what a crash of the machine leaves in the file is
//! trusted to be what the line model allows, and so is what the file gives when it is read.
#![tactic(auto)]

mod attach;
mod device;
mod image;
mod kept;
mod lines;
mod lock;
mod marks;
mod writer;

pub use attach::AttachFault;
pub use device::FilePm;
pub use image::read_image;
pub use lock::FileLock;
