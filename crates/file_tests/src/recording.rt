// A file in memory that tells what it was asked.
ghost use Rattle.std.specs.Io.{WritesAtMost};

use ct_base::NoMemory;
use std::alloc::Global;
use std::cell::RefCell;
use std::fs::{Metadata, OpenFile};
use std::io;
use std::os::unix::fs::FileExt;
use std::rc::Rc;

/// What a file was asked: to write bytes from an offset on, of which it took so many, or to sync.
#[derive(Clone, Copy, Debug, PartialEq, Eq)]
pub enum Request {
    Write { off: u64, taken: usize },
    Sync,
}

/// How a file answers: it takes at most so many bytes at once, and the requests fail whose numbers from 0 are listed.
#[derive(Drop)]
pub struct Manner {
    pub most: usize,
    pub fail_at: Vec<usize>,
}

// The bytes of a file, and what it was asked.
#[derive(Drop)]
struct Recorded {
    bytes: Vec<u8>,
    requests: Vec<Request>,
    manner: Manner,
}

// A request that the file refuses.
fn refused() -> io::Error {
    io::Error::from(io::ErrorKind::Other)
}

impl Recorded {
    // Notes a request, which may be one that fails.
    fn note(&mut self, request: Request) -> io::Result<()> {
        let number = self.requests.len();
        if self.requests.push(request).is_err() || self.manner.fail_at.contains(&number) {
            return Err(refused());
        }
        Ok(())
    }

    fn write(&mut self, bytes: &[u8], off: u64) -> io::Result<usize>
        ensures { WritesAtMost result bytes.now }
    {
        let taken = bytes.len().min(self.manner.most);
        self.note(Request::Write { off, taken })?;
        let len = self.bytes.len();
        if off > len as u64 || taken > len - off as usize {
            return Err(refused());
        }
        let first = off as usize;
        self.bytes[first..first + taken].copy_from_slice(&bytes[..taken]);
        Ok(taken)
    }
}

/// A file in memory that tells what it was asked. The device that stands over it and the test share it.
#[derive(Drop)]
pub struct RecordingFile {
    shared: Rc<RefCell<Recorded>>,
}

impl RecordingFile {
    /// A file of so many bytes 0.
    ///
    /// # Errors
    ///
    /// `NoMemory` where there is none for it.
    pub fn new(alloc: Global, len: usize, manner: Manner) -> Result<RecordingFile, NoMemory> {
        let Ok(bytes) = vec![in alloc; 0u8; len] else {
            return Err(NoMemory);
        };
        let requests = Vec::new(alloc);
        let recorded = RefCell::new(Recorded {
            bytes,
            requests,
            manner,
        });
        match Rc::new(alloc, recorded) {
            Ok(shared) => Ok(RecordingFile { shared }),
            Err(_) => Err(NoMemory),
        }
    }

    /// The same file once more.
    ///
    /// # Errors
    ///
    /// `NoMemory` where it has too many owners.
    pub fn share(&self) -> Result<RecordingFile, NoMemory> {
        match self.shared.clone() {
            Ok(shared) => Ok(RecordingFile { shared }),
            Err(_) => Err(NoMemory),
        }
    }

    /// What the file was asked since this was asked last, or since it was made. The requests are numbered anew, and fail as
    /// the manner says.
    pub fn take_requests(&self, alloc: Global, manner: Manner) -> Vec<Request> {
        match self.shared.try_borrow_mut() {
            Ok(mut recorded) => {
                let recorded = &mut *recorded;
                recorded.manner = manner;
                std::mem::replace(&mut recorded.requests, Vec::new(alloc))
            }
            Err(_) => Vec::new(alloc),
        }
    }

    /// A word of the file, `None` past its end.
    pub fn word(&self, at: u64) -> Option<u64> {
        let mut bytes = [0u8; 8];
        match self.read_at(&mut bytes, at.checked_mul(8)?) {
            Ok(8) => Some(u64::from_le_bytes(bytes)),
            _ => None,
        }
    }
}

impl FileExt for RecordingFile {
    fn read_at(&self, buf: &mut [u8], off: u64) -> io::Result<usize> {
        let Ok(recorded) = self.shared.try_borrow() else {
            return Err(refused());
        };
        let len = recorded.bytes.len();
        if off >= len as u64 {
            return Ok(0);
        }
        let first = off as usize;
        let count = buf.len().min(len - first);
        buf[..count].copy_from_slice(&recorded.bytes[first..first + count]);
        Ok(count)
    }

    fn write_at(&self, buf: &[u8], off: u64) -> io::Result<usize> {
        match self.shared.try_borrow_mut() {
            Ok(mut recorded) => recorded.write(buf, off),
            Err(_) => Err(refused()),
        }
    }
}

impl OpenFile for RecordingFile {
    fn metadata(&self) -> io::Result<Metadata> {
        match self.shared.try_borrow() {
            Ok(recorded) => Ok(Metadata::of_file(recorded.bytes.len() as u64)),
            Err(_) => Err(refused()),
        }
    }

    fn set_len(&self, _size: u64) -> io::Result<()> {
        Err(refused())
    }

    fn sync_all(&self) -> io::Result<()> {
        self.sync_data()
    }

    fn sync_data(&self) -> io::Result<()> {
        match self.shared.try_borrow_mut() {
            Ok(mut recorded) => recorded.note(Request::Sync),
            Err(_) => Err(refused()),
        }
    }
}
