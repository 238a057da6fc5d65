// A file system and a plain tree, object by object.
use crate::beside::is_alike;
use ct_base::{NoMemory, PAGE_BYTES};
use ct_fs::Fs;
use ct_plain::PlainTree;
use ct_pm::Pm;
use ct_tree::{Call, NameList, Reply};
use std::alloc::{AllocError, Global};

// More objects than any tree has here, and more pages than any file has.
const OBJECTS: u64 = 1024;

const PAGES: u64 = 1024;

// The path of an entry of a directory.
fn path_below(alloc: Global, path: &[u8], name: &[u8]) -> Result<Vec<u8>, AllocError> {
    let mut below = path.to_vec(alloc)?;
    if path != b"/".as_slice() {
        below.push(b'/')?;
    }
    below.extend_from_slice(name)?;
    Ok(below)
}

// Adds the paths of all entries of a directory.
fn add_below(
    alloc: Global,
    path: &[u8],
    names: &NameList,
    paths: &mut Vec<Vec<u8>>,
) -> Result<(), AllocError> {
    for i in 0..OBJECTS {
        match names.get(i) {
            Some(name) => paths.push(path_below(alloc, path, name)?)?,
            None => break,
        }
    }
    Ok(())
}

// Whether both have the same bytes in a file of a size.
fn has_bytes<D: Pm>(
    fs: &mut Fs<D>,
    tree: &mut PlainTree,
    path: &[u8],
    size: u64,
) -> Result<bool, NoMemory> {
    for page in 0..PAGES.min(size.div_ceil(PAGE_BYTES)) {
        let read = Call::Read {
            path,
            off: PAGE_BYTES * page,
            len: PAGE_BYTES,
        };
        if !is_alike(fs, tree, &read)? {
            return Ok(false);
        }
    }
    Ok(size <= PAGES * PAGE_BYTES && is_alike(fs, tree, &Call::Stat { path })?)
}

// Whether both have the same at a path; the paths of what is below it are added.
fn is_same_at<D: Pm>(
    alloc: Global,
    fs: &mut Fs<D>,
    tree: &mut PlainTree,
    path: &[u8],
    paths: &mut Vec<Vec<u8>>,
) -> Result<bool, NoMemory> {
    if let Reply::File(size) = tree.call(&Call::Stat { path })? {
        return has_bytes(fs, tree, path, size);
    }
    let list = Call::List { path };
    let Reply::Names(names) = tree.call(&list)? else {
        return Ok(false);
    };
    match add_below(alloc, path, &names, paths) {
        Ok(()) => is_alike(fs, tree, &list),
        Err(_) => Err(NoMemory),
    }
}

// The paths of what is still to be looked at: of the root at first.
fn roots(alloc: Global) -> Result<Vec<Vec<u8>>, AllocError> {
    let mut paths = Vec::new(alloc);
    paths.push(b"/".to_vec(alloc)?)?;
    Ok(paths)
}

/// Whether a file system holds a plain tree: the same names in each directory, and the same bytes in each file. Trees have 1,024
/// objects at most, and files 4 MiB.
///
/// # Errors
///
/// `NoMemory` where there is none for the plain tree and the paths in it.
pub fn is_same_tree<D: Pm>(
    alloc: Global,
    fs: &mut Fs<D>,
    tree: &mut PlainTree,
) -> Result<bool, NoMemory> {
    let Ok(mut paths) = roots(alloc) else {
        return Err(NoMemory);
    };
    for _ in 0..OBJECTS {
        let Some(path) = paths.pop() else {
            return Ok(true);
        };
        if !is_same_at(alloc, fs, tree, &path, &mut paths)? {
            return Ok(false);
        }
    }
    Ok(paths.is_empty())
}
