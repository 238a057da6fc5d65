//! The walk: index steps over the tables of a device, what is missing on the way to addresses, and the work that makes it.
//!
//! The one model is the cell: cell (d, x) is the page that d index steps from the root reach on the way to the range with
//! number x among the 512^d equal ranges of addresses, and 0 where an entry on the way is 0.
#![tactic(auto)]

mod absent;
mod depths;
mod growing;
mod staging;
mod steps;
mod wants;

pub use absent::{absent_from, has, missing};
pub use depths::ensure_all;
pub use growing::ensure;
pub use staging::unstage;
pub use steps::{Table, byte_at, load_at, root, table_at, walk};
pub use wants::Want;
