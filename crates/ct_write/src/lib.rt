//! A write: new bytes of a file are staged, and one record exchanges the touched pages with the staged ones.
//!
//! The one model is an image by its addresses: afterwards the bytes of the file's range are the new ones, and of all others
//! that are looked at only those of its size change. Root slot 2 has to be empty, and is again; what lies in root slots 3 to
//! 9 stays.
#![tactic(auto)]

mod data;
mod longer;
mod prepare;
mod record;
mod spot;
mod whole;

pub use data::{Data, len_of};
pub use longer::lengthen;
pub use record::write_now;
pub use spot::{page_of, staged_page, touched};
pub use whole::commit_write;
