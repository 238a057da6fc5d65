//! The call that gives an object another name: `rename`.
//!
//! The one model: an entry leaves its slot for another, which is empty, or whose object goes, and one record does all of
//! it. Room for a new slot is made before, as for a new object, and a partition is given up as in a removal.
#![tactic(auto)]

mod below;
mod call;
mod carry;
mod draft;
mod find;
mod record;

pub use call::rename_in;
pub use find::{Form, find_form};
