//! What every call stands on: a mounted device, what a call answers, and space and room for its plan.
//!
//! The one model: between calls the words of the device are at rest and stand for one tree. A call is planned as one value,
//! is refused by it, and makes room by it; while it goes on a crash lands on the objects before it or after it.
#![tactic(auto)]

mod ending;
mod growing;
mod making;
mod mount;
mod pages;
mod plan;
mod space;

pub use ending::{ended, refused};
pub use growing::grow;
pub use making::room;
pub use mount::{Failed, FsError, Mounted, NoMount, State, Why};
pub use pages::make_pages;
pub use plan::{CallPlan, Growth};
pub use space::check_space;
