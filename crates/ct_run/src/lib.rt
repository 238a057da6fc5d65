//! The top call: words, a device, input and output in, a status out.
//!
//! The one model: a command is a way in which a file system comes to stand on the device, and a work over it. From some moment on
//! it stands and holds a tree; then a script is served over it, the calls of a number are made, or its tree is written.
#![tactic(auto)]

mod command;
mod dumping;
mod job;
mod memory;
mod opening;
mod serving;
mod status;
mod top;
mod working;

pub use command::{Command, command_of};
pub use status::{Outcome, Status};
pub use top::run;
