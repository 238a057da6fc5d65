// Calls over a file system and beside it over a plain tree: the same answers, and the same bytes.
use ct_base::{NameBuf, NoMemory};
use ct_fs::{Fs, FsError, Stat};
use ct_plain::PlainTree;
use ct_pm::Pm;
use ct_tree::{Call, NameList, Reply};

// The most bytes that a call reads here.
const READ: u64 = 4096;

// More entries than any directory has here.
const ENTRIES: u64 = 1024;

/// Makes a call that changes the tree; `None` for each other.
pub fn change<D: Pm>(fs: &mut Fs<D>, call: &Call<'_>) -> Option<Result<(), FsError>> {
    match *call {
        Call::Create { path } => Some(fs.create(path)),
        Call::Mkdir { path } => Some(fs.mkdir(path)),
        Call::Write { path, off, bytes } => Some(fs.write(path, off, bytes)),
        Call::Fill {
            path,
            off,
            len,
            byte,
        } => Some(fs.fill(path, off, len, byte)),
        Call::Append { path, bytes } => Some(fs.append(path, bytes)),
        Call::Truncate { path, len } => Some(fs.truncate(path, len)),
        Call::Exchange {
            path,
            off,
            other,
            other_off,
            len,
        } => Some(fs.exchange(path, off, other, other_off, len)),
        Call::Unlink { path } => Some(fs.unlink(path)),
        Call::Rmdir { path } => Some(fs.rmdir(path)),
        Call::Rename { path, to } => Some(fs.rename(path, to)),
        _ => None,
    }
}

// Whether what a file system answered to a change is the reply.
fn is_reply(done: Result<(), FsError>, reply: &Reply) -> bool {
    match (done, reply) {
        (Ok(()), Reply::Done) => true,
        (Err(FsError::Refused(refusal)), Reply::Refused(other)) => refusal == *other,
        _ => false,
    }
}

// Whether a file system tells of a path what the reply does.
fn is_told<D: Pm>(fs: &Fs<D>, path: &[u8], reply: &Reply) -> bool {
    match (fs.stat(path), reply) {
        (Ok(Stat::File { size }), Reply::File(other)) => size == *other,
        (Ok(Stat::Dir { count }), Reply::Dir(other)) => count == *other,
        (Err(FsError::Refused(refusal)), Reply::Refused(other)) => refusal == *other,
        _ => false,
    }
}

// Whether a file system reads what the reply has.
fn is_read<D: Pm>(fs: &Fs<D>, path: &[u8], off: u64, len: u64, reply: &Reply) -> bool {
    let mut bytes = [0u8; READ as usize];
    if len > READ {
        return false;
    }
    match (fs.read(path, off, len, &mut bytes), reply) {
        (Ok(count), Reply::Data(data)) => {
            count <= READ && data.as_slice() == &bytes[..count as usize]
        }
        (Err(FsError::Refused(refusal)), Reply::Refused(other)) => refusal == *other,
        _ => false,
    }
}

// Whether a file system has these names in a directory, one after another, and no more.
fn has_names<D: Pm>(fs: &Fs<D>, path: &[u8], names: &NameList) -> bool {
    let mut last: Option<NameBuf> = None;
    for i in 0..ENTRIES {
        let Ok(next) = fs.next_entry(path, text_of(&last)) else {
            return false;
        };
        if text_of(&next) != names.get(i) {
            return false;
        }
        if next.is_none() {
            return true;
        }
        last = next;
    }
    false
}

fn text_of(name: &Option<NameBuf>) -> Option<&[u8]> {
    match name {
        Some(name) => Some(name.as_slice()),
        None => None,
    }
}

// Whether a file system lists what the reply does.
fn is_listed<D: Pm>(fs: &Fs<D>, path: &[u8], reply: &Reply) -> bool {
    match (fs.next_entry(path, None), reply) {
        (Ok(_), Reply::Names(names)) => has_names(fs, path, names),
        (Err(FsError::Refused(refusal)), Reply::Refused(other)) => refusal == *other,
        _ => false,
    }
}

// Whether both have a file at a path, or are refused alike: a plain tree has no places.
fn is_located<D: Pm>(fs: &Fs<D>, path: &[u8], reply: &Reply) -> bool {
    match (fs.locate(path), reply) {
        (Ok(_), Reply::At { base: _, level: _ }) => true,
        (Err(FsError::Refused(refusal)), Reply::Refused(other)) => refusal == *other,
        _ => false,
    }
}

/// Whether a call over both is answered alike. Both make it where it changes the tree. A read is of 4,096 bytes at most, and of
/// a place no more is asked than whether there is one.
///
/// # Errors
///
/// `NoMemory` where there is none for the plain tree.
pub fn is_alike<D: Pm>(
    fs: &mut Fs<D>,
    tree: &mut PlainTree,
    call: &Call<'_>,
) -> Result<bool, NoMemory> {
    let reply = tree.call(call)?;
    Ok(match *call {
        Call::Stat { path } => is_told(fs, path, &reply),
        Call::Read { path, off, len } => is_read(fs, path, off, len, &reply),
        Call::List { path } => is_listed(fs, path, &reply),
        Call::Where { path } => is_located(fs, path, &reply),
        _ => change(fs, call).is_some_and(|done| is_reply(done, &reply)),
    })
}
