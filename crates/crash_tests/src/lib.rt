//! Devices that stop after each of their calls: records, growth, new entries, new names and writes, and what recovery makes of
//! the images that are left. And images that fill.
//!
//! There is no model of its own. All of it is tests, so that no crate below is proved twice.
#![tactic(auto)]

#[cfg(test)]
mod creates;
#[cfg(test)]
mod filled;
#[cfg(test)]
mod growths;
#[cfg(test)]
mod images;
#[cfg(test)]
mod records;
#[cfg(test)]
mod renames;
#[cfg(test)]
mod stopped_writes;
