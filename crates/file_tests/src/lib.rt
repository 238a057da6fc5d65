//! Devices over files, and runs over them: what reaches a file, what comes back, and which files are no devices.
//!
//! There is no model of its own. All of it is tests, so that the device is proved once.
#![tactic(auto)]

#[cfg(test)]
mod devices;
#[cfg(test)]
mod fences;
#[cfg(test)]
mod files;
#[cfg(test)]
mod fixture;
#[cfg(test)]
mod passed_over;
#[cfg(test)]
mod recording;
#[cfg(test)]
mod runs;
