use std::fs::{File, Files, OpenOptions, TryLockError};

/// A lock on a file against other programs that lock it so, and not against those that do not. Each program has its own copy
/// of an image's words, so two that work over one image at a time would write over what the other wrote.
///
/// It goes with the value, or with the process. A file that cannot be opened, or whose system has no such locks, is locked
/// against none.
#[derive(Drop)]
pub struct FileLock {
    file: Option<File>,
}

impl FileLock {
    /// Opens a file that is there, and does not lock it yet.
    pub fn open<R: Files<File = File>>(rt: &R, name: &str) -> FileLock {
        FileLock {
            file: OpenOptions::new()
                .read(true)
                .write(true)
                .open(rt, name)
                .ok(),
        }
    }

    /// Locks the file and answers true, or answers false where another program has the lock.
    pub fn try_lock(&self) -> bool {
        match &self.file {
            Some(file) => !matches!(file.try_lock(), Err(TryLockError::WouldBlock)),
            None => true,
        }
    }

    /// Waits while another program has the lock, and then locks the file.
    pub fn lock(&self) {
        if let Some(file) = &self.file {
            let _ = file.lock();
        }
    }
}
