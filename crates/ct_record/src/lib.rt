//! The redo record: after a crash all of its pairs are applied, or none.
//!
//! A pair is a device word and the value that it gets. Pairs are stored behind a closed gate, the gate is opened by one
//! store, the pairs are applied, and the gate is closed again. The states of a record own the device, so that nothing else
//! can be done to it in between, and each but `Idle` and `Broken` has to be spent.
//!
//! The one model is what an image settles to: the image with its open record applied, its gates closed and its staging
//! slots empty. No call takes memory, since the pairs stand on the device.
#![tactic(auto)]

pub mod applied;
pub mod armed;
pub mod completing;
pub mod draft;
pub mod ending;
mod gate;
pub mod idle;
mod pair;
mod replaying;

pub use applied::Applied;
pub use armed::Armed;
pub use completing::complete;
pub use draft::Draft;
pub use ending::conclude;
pub use idle::{Broken, Idle};
pub use replaying::replay;
