//! Where inodes, partitions and headers stand, and what is 0: mount rules 10 to 16.
//!
//! The one model is the image. Each function is exact: a rule is answered for where it fails, and only there.
#![tactic(auto)]

mod extent;
mod extents;
mod header;
mod headers;
mod inodes;
mod tails;
mod zeros;

pub use extent::Extent;
pub use extents::{are_in_order, are_mapped_in_parts, sorted_extents};
pub use headers::are_headers;
pub use inodes::{are_inodes, are_placed};
pub use tails::are_tails_zero;
pub use zeros::is_rest_zero;
