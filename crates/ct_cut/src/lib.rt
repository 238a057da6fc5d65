//! What is given up: the rest of a file that is cut, and the whole partition of an object that goes. Its pages change places
//! with an empty staging slot, which is then emptied.
//!
//! The one model is an image by its addresses: the bytes of the range are 0 afterwards, and no other byte that is looked at is
//! another, but those of the inode and, where a whole partition goes, of the headers on its path. Root slot 2 has to be
//! empty, and is again; what lies in root slots 3 to 9 stays.
#![tactic(auto)]

mod draft;
mod prepare;
mod record;
mod side;
mod whole;

pub use draft::give_up;
pub use prepare::prepare_whole;
pub use whole::cut;
