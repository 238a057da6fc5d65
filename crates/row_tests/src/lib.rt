//! Worked rows: scripts with their replies, and values that are known from outside.
//!
//! There is no model, and nothing to prove but that the tables are read safely: a row says what a person expects.
#![tactic(auto)]

#[cfg(test)]
mod ends;
#[cfg(test)]
mod runs;
#[cfg(test)]
mod scripts;
#[cfg(test)]
mod streams;
#[cfg(test)]
mod texts;
#[cfg(test)]
mod values;
