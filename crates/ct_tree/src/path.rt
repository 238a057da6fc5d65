// Paths, read into their names.
ghost use Rattle.std.specs.Prelude.{◌≡◌, ◌==◌, ◌&&◌, not, ◌≤◌, true, IfOk, IfSome, length};
ghost use Rattle.std.specs.List.{list_all};
ghost use Rattle.std.specs.Option.{option_map};
ghost use Rattle.ct_base.specs.Path.{is_name, if_names, names_of, parts, texts};
ghost use Rattle.ct_tree.specs.Named.{ReadsNames};
ghost use Rattle.ct_tree.specs.Resolve.{parent, last_name};

use crate::call::Refusal;
use crate::stop::Stop;
use ct_base::{NAME_BYTES, NoMemory, PATH_BYTES, first_part};
use std::alloc::Global;

const DOT: &[u8] = b".";

const DOTS: &[u8] = b"..";

/// Whether the bytes are a name: 1 to 248 of them, none of which is 0 or a slash, and neither `.` nor `..`.
pub fn is_name(name: &[u8]) -> bool
    ensures { result ≡ is_name name.now }
{
    if name.is_empty() {
        return false;
    }
    if name.len() > NAME_BYTES {
        return false;
    }
    if name == DOT {
        return false;
    }
    if name == DOTS {
        return false;
    }
    has_name_bytes(name)
}

/// No byte is 0 or a slash.
fn has_name_bytes(name: &[u8]) -> bool
    ensures { result ≡ list_all (λ b. not (b == 0) && not (b == 47)) name.now }
{
    name.iter().all(|b| *b != 0 && *b != b'/')
}

/// The names of a path; a text that is no path is refused.
pub fn names_of<'a>(alloc: Global, path: &'a [u8]) -> Result<Vec<&'a [u8]>, Stop>
    ensures { ReadsNames path.now result }
{
    match read_names(alloc, path) {
        Ok(Some(names)) => Ok(names),
        Ok(None) => Err(Stop::Refused(Refusal::BadPath)),
        Err(_) => Err(Stop::NoMemory),
    }
}

/// The names of a path, or none where the text is no path.
fn read_names<'a>(alloc: Global, path: &'a [u8]) -> Result<Option<Vec<&'a [u8]>>, NoMemory>
    ensures { IfOk result (λ found. option_map (λ names. texts names.items) found ≡ names_of path.now) }
{
    if path.len() > PATH_BYTES {
        return Ok(None);
    }
    match path {
        [b'/'] => Ok(Some(Vec::new(alloc))),
        [b'/', rest @ ..] => names_in(alloc, rest),
        _ => Ok(None),
    }
}

/// The parts of a text between its slashes, where each is a name.
fn names_in<'a>(alloc: Global, text: &'a [u8]) -> Result<Option<Vec<&'a [u8]>>, NoMemory>
    ensures { IfOk result (λ found. option_map (λ names. texts names.items) found ≡ if_names (parts text.now)) }
{
    let mut names = Vec::new(alloc);
    let mut rest = text;
    'parts: loop {
        let (name, more) = first_part(rest, b'/');
        if !is_name(name) {
            return Ok(None);
        }
        match names.push(name) {
            Ok(()) => {}
            Err(_) => return Err(NoMemory),
        }
        match more {
            None => return Ok(Some(names)),
            Some(more) => rest = more,
        }
    }
}

/// All names but the last.
pub fn parent<'a, 'b>(names: &'b [&'a [u8]]) -> &'b [&'a [u8]]
    ensures { texts result.now ≡ parent (texts names.now) }
{
    let (_, parent) = match names.split_last() {
        None => return names,
        Some((name, parent)) => (*name, parent),
    };
    parent
}

/// The last of the names, and no bytes where there is none.
pub fn last_name<'a>(names: &[&'a [u8]]) -> &'a [u8]
    ensures { result.now ≡ last_name (texts names.now) }
{
    let (name, _) = match names.split_last() {
        None => return b"",
        Some((name, parent)) => (*name, parent),
    };
    name
}
