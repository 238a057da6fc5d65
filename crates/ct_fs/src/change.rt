// The calls that change the tree.
ghost use Rattle.std.specs.Prelude.{◌≡◌, ◌≢◌, ◌↔◌, Some, Err, IfSome, IsNone, IsSomeAnd, OnOk};
ghost use Rattle.ct_tree.specs.Step.{append as append_call, create as create_call, exchange as exchange_call, fill as fill_call, mkdir as mkdir_call, op_of, rename as rename_call, rmdir as rmdir_call, truncate as truncate_call, unlink as unlink_call, write as write_call};
ghost use Rattle.ct_tree.specs.Tree.{Tree};
ghost use Rattle.ct_call.specs.Calls.{Does, IsChange, StandsFor};
ghost use Rattle.ct_call.specs.Mounted.{Volume};
ghost use Rattle.ct_call.specs.Placed.{Places};
ghost use Rattle.ct_exchange.specs.Swapped.{SwapsWalks};
ghost use Rattle.ct_fs.specs.Mounts.{mounts};
ghost use Rattle.ct_call.specs.Seen.{ready_in};
ghost use Rattle.ct_fs.specs.Remembering.{IsRemembered};

use crate::calls::{edit_by, exchange_by, make_by, remove_by, rename_by};
use crate::remembered::Remembered;
use crate::system::{Fs, put_back};
use ct_call::{FsError, Mounted, State};
use ct_edit::Edit;
use ct_find::Kind;
use ct_pm::Pm;
use ct_tree::Call;

// Makes a call on a mount.
fn change_in<D: Pm>(
    mounted: Mounted<D>,
    remembered: &mut Remembered,
    call: &Call<'_>,
) -> (State<D>, Result<(), FsError>)
    requires change { IsChange (op_of call.now) }
    requires so { IsRemembered (D.words mounted.dev) remembered.old }
    ensures does { (t : Tree) → StandsFor (D.words mounted.dev) t → Does mounted t (op_of call.now) (Some result.0) result.1 }
    ensures places { OnOk result.1 (IsSomeAnd (ready_in (Some result.0)) (λ now. Places (D.words mounted.dev) (D.words now.dev) (op_of call.now))) }
    ensures alive { result.1 ≢ Err FsError.Dead }
    ensures so { IfSome (ready_in (Some result.0)) (λ now. IsRemembered (D.words now.dev) remembered.new) }
{
    match *call {
        Call::Create { path } => make_by(mounted, remembered, path, Kind::File),
        Call::Mkdir { path } => make_by(mounted, remembered, path, Kind::Directory),
        Call::Write { path, off, bytes } => {
            edit_by(mounted, remembered, path, Edit::Write { off, bytes })
        }
        Call::Fill {
            path,
            off,
            len,
            byte,
        } => edit_by(mounted, remembered, path, Edit::Fill { off, len, byte }),
        Call::Append { path, bytes } => {
            edit_by(mounted, remembered, path, Edit::Append { bytes })
        }
        Call::Truncate { path, len } => {
            edit_by(mounted, remembered, path, Edit::Truncate { len })
        }
        Call::Exchange {
            path,
            off,
            other,
            other_off,
            len,
        } => exchange_by(mounted, remembered, path, off, other, other_off, len),
        Call::Unlink { path } => remove_by(mounted, remembered, path, Kind::File),
        Call::Rmdir { path } => remove_by(mounted, remembered, path, Kind::Directory),
        Call::Rename { path, to } => rename_by(mounted, remembered, path, to),
        _ => unreachable!(),
    }
}

impl<D: Pm> Fs<D> {
    /// Makes a call that changes the tree.
    ///
    /// # Errors
    ///
    /// `Dead` after a fault; `Refused` where a check of the tree fails, or where inodes, partitions or pages do not suffice:
    /// then nothing has changed; `Fault` where the device failed: then the call is done whole or not at all once the device is
    /// mounted again.
    pub fn change(&mut self, call: &Call<'_>) -> Result<(), FsError>
        requires { IsChange (op_of call.now) }
        ensures dead { IsNone (mounts self.old) ↔ (result ≡ Err FsError.Dead) }
        ensures still { IsNone (mounts self.old) → self.new.state ≡ self.old.state }
        ensures does { (was : Volume D) → mounts self.old ≡ Some was → (t : Tree) → StandsFor (D.words was.dev) t
            → Does was t (op_of call.now) self.new.state result }
        // After Ok a new object has the lowest free inode and the first empty slot, a renamed entry the slot of the entry that it
        // replaced, its own within its directory, or else the first empty one, an object that grew has moved to the first free
        // partition of its level with its pages, and no page more than needed was taken.
        ensures places { (was : Volume D) → mounts self.old ≡ Some was
            → OnOk result (IsSomeAnd (ready_in self.new.state) (λ now. Places (D.words was.dev) (D.words now.dev) (op_of call.now))) }
    {
        match self.state.take() {
            Some(State::Ready(mounted)) => {
                let (state, result) = change_in(mounted, &mut self.remembered, call);
                put_back(&mut self.state, state);
                result
            }
            Some(State::Dead(failed)) => {
                put_back(&mut self.state, State::Dead(failed));
                Err(FsError::Dead)
            }
            None => unreachable!(),
        }
    }

    /// Makes an empty file.
    ///
    /// # Errors
    ///
    /// As [`Fs::change`].
    pub fn create(&mut self, path: &[u8]) -> Result<(), FsError>
        ensures dead { IsNone (mounts self.old) ↔ (result ≡ Err FsError.Dead) }
        ensures still { IsNone (mounts self.old) → self.new.state ≡ self.old.state }
        ensures does { (was : Volume D) → mounts self.old ≡ Some was → (t : Tree) → StandsFor (D.words was.dev) t
            → Does was t (create_call path.now) self.new.state result }
        ensures places { (was : Volume D) → mounts self.old ≡ Some was
            → OnOk result (IsSomeAnd (ready_in self.new.state) (λ now. Places (D.words was.dev) (D.words now.dev) (create_call path.now))) }
    {
        self.change(&Call::Create { path })
    }

    /// Makes an empty directory.
    ///
    /// # Errors
    ///
    /// As [`Fs::change`].
    pub fn mkdir(&mut self, path: &[u8]) -> Result<(), FsError>
        ensures dead { IsNone (mounts self.old) ↔ (result ≡ Err FsError.Dead) }
        ensures still { IsNone (mounts self.old) → self.new.state ≡ self.old.state }
        ensures does { (was : Volume D) → mounts self.old ≡ Some was → (t : Tree) → StandsFor (D.words was.dev) t
            → Does was t (mkdir_call path.now) self.new.state result }
        ensures places { (was : Volume D) → mounts self.old ≡ Some was
            → OnOk result (IsSomeAnd (ready_in self.new.state) (λ now. Places (D.words was.dev) (D.words now.dev) (mkdir_call path.now))) }
    {
        self.change(&Call::Mkdir { path })
    }
    /// Writes bytes to a file from an offset on, and zeros before them where it is shorter. No bytes change nothing.
    ///
    /// # Errors
    ///
    /// As [`Fs::change`].
    pub fn write(&mut self, path: &[u8], off: u64, bytes: &[u8]) -> Result<(), FsError>
        ensures dead { IsNone (mounts self.old) ↔ (result ≡ Err FsError.Dead) }
        ensures still { IsNone (mounts self.old) → self.new.state ≡ self.old.state }
        ensures does { (was : Volume D) → mounts self.old ≡ Some was → (t : Tree) → StandsFor (D.words was.dev) t
            → Does was t (write_call path.now off bytes.now) self.new.state result }
        ensures places { (was : Volume D) → mounts self.old ≡ Some was
            → OnOk result (IsSomeAnd (ready_in self.new.state) (λ now. Places (D.words was.dev) (D.words now.dev) (write_call path.now off bytes.now))) }
    {
        self.change(&Call::Write { path, off, bytes })
    }

    /// Writes so many of one byte to a file from an offset on.
    ///
    /// # Errors
    ///
    /// As [`Fs::change`].
    pub fn fill(&mut self, path: &[u8], off: u64, len: u64, byte: u8) -> Result<(), FsError>
        ensures dead { IsNone (mounts self.old) ↔ (result ≡ Err FsError.Dead) }
        ensures still { IsNone (mounts self.old) → self.new.state ≡ self.old.state }
        ensures does { (was : Volume D) → mounts self.old ≡ Some was → (t : Tree) → StandsFor (D.words was.dev) t
            → Does was t (fill_call path.now off len byte) self.new.state result }
        ensures places { (was : Volume D) → mounts self.old ≡ Some was
            → OnOk result (IsSomeAnd (ready_in self.new.state) (λ now. Places (D.words was.dev) (D.words now.dev) (fill_call path.now off len byte))) }
    {
        self.change(&Call::Fill {
            path,
            off,
            len,
            byte,
        })
    }

    /// Writes bytes behind the last one of a file.
    ///
    /// # Errors
    ///
    /// As [`Fs::change`].
    pub fn append(&mut self, path: &[u8], bytes: &[u8]) -> Result<(), FsError>
        ensures dead { IsNone (mounts self.old) ↔ (result ≡ Err FsError.Dead) }
        ensures still { IsNone (mounts self.old) → self.new.state ≡ self.old.state }
        ensures does { (was : Volume D) → mounts self.old ≡ Some was → (t : Tree) → StandsFor (D.words was.dev) t
            → Does was t (append_call path.now bytes.now) self.new.state result }
        ensures places { (was : Volume D) → mounts self.old ≡ Some was
            → OnOk result (IsSomeAnd (ready_in self.new.state) (λ now. Places (D.words was.dev) (D.words now.dev) (append_call path.now bytes.now))) }
    {
        self.change(&Call::Append { path, bytes })
    }

    /// Gives a file a length: what it has past it is gone, and where it was shorter zeros follow.
    ///
    /// # Errors
    ///
    /// As [`Fs::change`].
    pub fn truncate(&mut self, path: &[u8], len: u64) -> Result<(), FsError>
        ensures dead { IsNone (mounts self.old) ↔ (result ≡ Err FsError.Dead) }
        ensures still { IsNone (mounts self.old) → self.new.state ≡ self.old.state }
        ensures does { (was : Volume D) → mounts self.old ≡ Some was → (t : Tree) → StandsFor (D.words was.dev) t
            → Does was t (truncate_call path.now len) self.new.state result }
        ensures places { (was : Volume D) → mounts self.old ≡ Some was
            → OnOk result (IsSomeAnd (ready_in self.new.state) (λ now. Places (D.words was.dev) (D.words now.dev) (truncate_call path.now len))) }
    {
        self.change(&Call::Truncate { path, len })
    }

    /// Exchanges `len` bytes of two files, or of one, from an offset of each on: whole pages within both files, which do not
    /// meet. No byte is copied.
    ///
    /// # Errors
    ///
    /// As [`Fs::change`].
    pub fn exchange(
        &mut self,
        path: &[u8],
        off: u64,
        other: &[u8],
        other_off: u64,
        len: u64,
    ) -> Result<(), FsError>
        ensures dead { IsNone (mounts self.old) ↔ (result ≡ Err FsError.Dead) }
        ensures still { IsNone (mounts self.old) → self.new.state ≡ self.old.state }
        ensures does { (was : Volume D) → mounts self.old ≡ Some was → (t : Tree) → StandsFor (D.words was.dev) t
            → Does was t (exchange_call path.now off other.now other_off len) self.new.state result }
        ensures places { (was : Volume D) → mounts self.old ≡ Some was
            → OnOk result (IsSomeAnd (ready_in self.new.state) (λ now. Places (D.words was.dev) (D.words now.dev) (exchange_call path.now off other.now other_off len))) }
        // After Ok the walks of the two ranges have changed places, and all others in root slots 10 to 511 stay.
        ensures walks { (was : Volume D) → mounts self.old ≡ Some was
            → OnOk result (IsSomeAnd (ready_in self.new.state) (λ now. SwapsWalks (D.words was.dev) (D.words now.dev) path.now off other.now other_off len)) }
    {
        match self.state.take() {
            Some(State::Ready(mounted)) => {
                let (state, result) = exchange_by(
                    mounted,
                    &mut self.remembered,
                    path,
                    off,
                    other,
                    other_off,
                    len,
                );
                put_back(&mut self.state, state);
                result
            }
            Some(State::Dead(failed)) => {
                put_back(&mut self.state, State::Dead(failed));
                Err(FsError::Dead)
            }
            None => unreachable!(),
        }
    }

    /// Removes a file, and gives its partition up.
    ///
    /// # Errors
    ///
    /// As [`Fs::change`].
    pub fn unlink(&mut self, path: &[u8]) -> Result<(), FsError>
        ensures dead { IsNone (mounts self.old) ↔ (result ≡ Err FsError.Dead) }
        ensures still { IsNone (mounts self.old) → self.new.state ≡ self.old.state }
        ensures does { (was : Volume D) → mounts self.old ≡ Some was → (t : Tree) → StandsFor (D.words was.dev) t
            → Does was t (unlink_call path.now) self.new.state result }
        ensures places { (was : Volume D) → mounts self.old ≡ Some was
            → OnOk result (IsSomeAnd (ready_in self.new.state) (λ now. Places (D.words was.dev) (D.words now.dev) (unlink_call path.now))) }
    {
        self.change(&Call::Unlink { path })
    }

    /// Removes an empty directory, and gives its partition up.
    ///
    /// # Errors
    ///
    /// As [`Fs::change`].
    pub fn rmdir(&mut self, path: &[u8]) -> Result<(), FsError>
        ensures dead { IsNone (mounts self.old) ↔ (result ≡ Err FsError.Dead) }
        ensures still { IsNone (mounts self.old) → self.new.state ≡ self.old.state }
        ensures does { (was : Volume D) → mounts self.old ≡ Some was → (t : Tree) → StandsFor (D.words was.dev) t
            → Does was t (rmdir_call path.now) self.new.state result }
        ensures places { (was : Volume D) → mounts self.old ≡ Some was
            → OnOk result (IsSomeAnd (ready_in self.new.state) (λ now. Places (D.words was.dev) (D.words now.dev) (rmdir_call path.now))) }
    {
        self.change(&Call::Rmdir { path })
    }

    /// Gives an object another name. A file or an empty directory that has it goes, where both are files or both directories.
    ///
    /// # Errors
    ///
    /// As [`Fs::change`].
    pub fn rename(&mut self, path: &[u8], to: &[u8]) -> Result<(), FsError>
        ensures dead { IsNone (mounts self.old) ↔ (result ≡ Err FsError.Dead) }
        ensures still { IsNone (mounts self.old) → self.new.state ≡ self.old.state }
        ensures does { (was : Volume D) → mounts self.old ≡ Some was → (t : Tree) → StandsFor (D.words was.dev) t
            → Does was t (rename_call path.now to.now) self.new.state result }
        ensures places { (was : Volume D) → mounts self.old ≡ Some was
            → OnOk result (IsSomeAnd (ready_in self.new.state) (λ now. Places (D.words was.dev) (D.words now.dev) (rename_call path.now to.now))) }
    {
        self.change(&Call::Rename { path, to })
    }
}
