// Paths as text: their names, read one after the other in the caller's bytes.
ghost use Rattle.std.specs.Prelude.{◌≡◌, None, Some, MatchOption};
ghost use Rattle.std.specs.List.{list_all};
ghost use Rattle.std.specs.Iterator.{YieldsFirstBy, item_count};
ghost use Rattle.ct_base.specs.Path.{is_name, names_of, parts};

use ct_base::{PATH_BYTES, first_part};
use ct_tree::is_name;
use std::marker::Model;

/// The names of a path, one after the other. Contracts see the list of those that are left.
#[derive(Drop)]
pub struct Names<'p> {
    // The names that are left, with a slash between each two; none where none is left.
    left: Option<&'p [u8]>,
}

impl<'p> Model for Names<'p> {
    ghost use Rattle.std.specs.Prelude.{ℕ, List};
    ghost use Rattle.ct_path.specs.Left.{names_left};

    ghost Value = { List (List ℕ) };

    ghost view = { λ n. names_left n.left };
}

impl<'p> Iterator for Names<'p> {
    type Item = &'p [u8];

    ghost next_gives = { YieldsFirstBy (λ name. name.now) (λ s. s) };

    ghost remaining = { item_count (λ s. s) };

    fn next(&mut self) -> Option<&'p [u8]> {
        let text = self.left?;
        let (name, more) = first_part(text, b'/');
        self.left = more;
        Some(name)
    }
}

// Whether the parts of a text between its slashes are names.
fn are_names(text: &[u8]) -> bool
    ensures { result ≡ list_all is_name (parts text.now) }
{
    for name in (Names { left: Some(text) }) {
        if !is_name(name) {
            return false;
        }
    }
    true
}

/// The names of a path; `None` exactly where the bytes are no path.
///
/// A path has at most 4,096 bytes. It is `/`, or names with a slash before each.
pub fn parse(path: &[u8]) -> Option<Names<'_>>
    ensures { MatchOption result (names_of path.now ≡ None) (λ names. names_of path.now ≡ Some names) }
{
    if path.len() > PATH_BYTES {
        return None;
    }
    match path {
        [b'/'] => Some(Names { left: None }),
        [b'/', rest @ ..] if are_names(rest) => Some(Names { left: Some(rest) }),
        _ => None,
    }
}
