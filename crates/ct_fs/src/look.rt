// The calls that only look at what is there.
ghost use Rattle.std.specs.Prelude.{◌≡◌, ◌≢◌, ◌≤◌, ◌↔◌, Option, Some, Err, IsNone, IsSomeAnd, IfSome, MatchOption, IfOk, OnErr, length};
ghost use Rattle.std.specs.Option.{option_map};
ghost use Rattle.ct_dir.specs.Directory.{name_in};
ghost use Rattle.ct_tree.specs.Checks.{at};
ghost use Rattle.ct_tree.specs.Content.{bytes_in, range};
ghost use Rattle.ct_tree.specs.Runs.{MayLieAt};
ghost use Rattle.ct_tree.specs.Step.{list as list_call, listed_in, locate as locate_call, read as read_call, read_limit, refusal, size_at, stat as stat_call, step};
ghost use Rattle.ct_tree.specs.Tree.{Tree};
ghost use Rattle.ct_call.specs.Calls.{StandsFor};
ghost use Rattle.ct_commit.specs.Rest.{IsMounted};
ghost use Rattle.ct_look.specs.Content.{IsRead};
ghost use Rattle.ct_look.specs.Holes.{IsMappedAt, IsNextData};
ghost use Rattle.ct_look.specs.Looks.{IsLook, IsPlaceAt, next_name, stat_answer};
ghost use Rattle.ct_call.specs.Mounted.{Volume};
ghost use Rattle.ct_learn.specs.Learning.{IsSo};
ghost use Rattle.ct_base.specs.Walk.{byte};
ghost use Rattle.ct_fs.specs.Mounts.{device_of, mounts};

use crate::system::Fs;
use ct_base::{NameBuf, Vaddr};
use ct_call::{FsError, Mounted, State};
use ct_look::{Stat, answer_of, byte_at, byte_by, data_at, locate_at, next_at, read_at, stat_at};
use ct_pm::Pm;

impl<D: Pm> Fs<D> {
    /// What is told of the file or the directory at a path.
    ///
    /// # Errors
    ///
    /// `Dead` after a fault, and else `Refused` where the path leads to nothing.
    pub fn stat(&self, path: &[u8]) -> Result<Stat, FsError>
        ensures dead { IsNone (mounts self.now) ↔ (result ≡ Err FsError.Dead) }
        ensures faultless { result ≢ Err FsError.Fault }
        ensures answer { (was : Volume D) → mounts self.now ≡ Some was → (t : Tree) → StandsFor (D.words was.dev) t
            → result ≡ stat_answer (step t (stat_call path.now)).0 }
    {
        match self.ready() {
            Some(mounted) => answer_of(stat_at(&mounted.dev, &self.remembered.learnt, path)),
            None => Err(FsError::Dead),
        }
    }

    /// The first name in a directory, in byte order, that is later than another, or of all; `None` where there is none.
    ///
    /// # Errors
    ///
    /// `Dead` after a fault, and else `Refused` where the path leads to no directory.
    pub fn next_entry(&self, path: &[u8], after: Option<&[u8]>) -> Result<Option<NameBuf>, FsError>
        ensures dead { IsNone (mounts self.now) ↔ (result ≡ Err FsError.Dead) }
        ensures faultless { result ≢ Err FsError.Fault }
        ensures answer { (was : Volume D) → mounts self.now ≡ Some was → (t : Tree) → StandsFor (D.words was.dev) t
            → IsLook (refusal t (list_call path.now))
            (λ found. option_map (λ name. name.items) found ≡ next_name (name_in after.entry) (listed_in (at t path.now)))
            result }
    {
        match self.ready() {
            Some(mounted) => answer_of(next_at(&mounted.dev, &self.remembered.learnt, path, after)),
            None => Err(FsError::Dead),
        }
    }

    /// Where a file lies: the address and the level of its partition, 0 and 15 where it has none.
    ///
    /// # Errors
    ///
    /// `Dead` after a fault, and else `Refused` where the path leads to no file.
    pub fn locate(&self, path: &[u8]) -> Result<(u64, u32), FsError>
        ensures dead { IsNone (mounts self.now) ↔ (result ≡ Err FsError.Dead) }
        ensures faultless { result ≢ Err FsError.Fault }
        ensures answer { (was : Volume D) → mounts self.now ≡ Some was → (t : Tree) → StandsFor (D.words was.dev) t
            → IsLook (refusal t (locate_call path.now))
            (λ place. IsPlaceAt (D.words was.dev) path.now place × MayLieAt (size_at t path.now) place.0 place.1) result }
    {
        match self.ready() {
            Some(mounted) => answer_of(locate_at(&mounted.dev, &self.remembered.learnt, path)),
            None => Err(FsError::Dead),
        }
    }

    /// Puts the bytes of a file, from an offset on and at most so many, at the front of a buffer; answers their number. The rest
    /// of the buffer stays. The buffer has room for so many bytes, unless they are more than 1,048,576, which is refused.
    ///
    /// # Errors
    ///
    /// `Dead` after a fault, and else `Refused` where the path leads to no file or so many bytes are too many. Then the buffer is
    /// as it was.
    pub fn read(&self, path: &[u8], off: u64, len: u64, buf: &mut [u8]) -> Result<u64, FsError>
        requires { len ≤ read_limit → len ≤ length buf.old }
        ensures dead { IsNone (mounts self.now) ↔ (result ≡ Err FsError.Dead) }
        ensures faultless { result ≢ Err FsError.Fault }
        ensures answer { (was : Volume D) → mounts self.now ≡ Some was → (t : Tree) → StandsFor (D.words was.dev) t
            → IsLook (refusal t (read_call path.now off len)) (IsRead (range (bytes_in (at t path.now)) off len) buf.old buf.new) result }
        ensures bound { IfOk result (λ count. count ≤ length buf.old) }
        ensures kept { OnErr result (buf.new ≡ buf.old) }
    {
        match self.ready() {
            Some(mounted) => answer_of(read_at(
                &mounted.dev,
                &self.remembered.learnt,
                path,
                off,
                len,
                buf,
            )),
            None => Err(FsError::Dead),
        }
    }

    /// Where the data of a file come next, from an offset on, both in bytes: at the offset itself where its page is there, and
    /// else where the next page that is there begins, a multiple of 4,096. All bytes between are 0. The answer is less than the
    /// file's size; `None` where none come before its end, so that all bytes from the offset on are 0.
    ///
    /// A hole costs at most 512 looks for each table that is there, however long it is.
    ///
    /// # Errors
    ///
    /// `Dead` after a fault, and else `Refused` where the path leads to no file.
    pub fn seek_data(&self, path: &[u8], off: u64) -> Result<Option<u64>, FsError>
        ensures dead { IsNone (mounts self.now) ↔ (result ≡ Err FsError.Dead) }
        ensures faultless { result ≢ Err FsError.Fault }
        ensures answer { (was : Volume D) → mounts self.now ≡ Some was → (t : Tree) → StandsFor (D.words was.dev) t
            → IsLook (refusal t (locate_call path.now)) (λ found. IsNextData (bytes_in (at t path.now)) off found) result }
        ensures mapped { (was : Volume D) → mounts self.now ≡ Some was
            → IfOk result (λ found. IfSome found (λ next. IsMappedAt (D.words was.dev) path.now next)) }
    {
        match self.ready() {
            Some(mounted) => answer_of(data_at(&mounted.dev, &self.remembered.learnt, path, off)),
            None => Err(FsError::Dead),
        }
    }

    /// The device, at rest, unless a call has met a fault of it.
    pub fn device(&self) -> Option<&D>
        ensures device { MatchOption result (IsNone (mounts self.now)) (λ dev. IsSomeAnd (mounts self.now) (λ was. was.dev ≡ dev.now)) }
        ensures rest { (was : Volume D) → mounts self.now ≡ Some was → IsMounted (D.words was.dev) (D.told was.dev) was.frames }
    {
        match self.ready() {
            Some(mounted) => Some(&mounted.dev),
            None => None,
        }
    }

    // The mount, unless a call has met a fault.
    pub(crate) fn ready(&self) -> Option<&Mounted<D>>
        ensures mount { MatchOption result (IsNone (mounts self.now)) (λ mounted. mounts self.now ≡ Some mounted.now) }
        ensures so { IfSome result (λ mounted. IsSo self.now.remembered.learnt (D.words mounted.now.dev)) }
    {
        match &self.state {
            Some(State::Ready(mounted)) => Some(mounted),
            Some(State::Dead(_)) => None,
            None => None,
        }
    }

    /// The byte at an address, 0 where no page is there; after a fault too.
    pub fn peek(&self, v: Vaddr) -> u8
        ensures { IfSome (device_of self.now) (λ dev. result ≡ byte (D.words dev) v) }
    {
        match &self.state {
            Some(State::Ready(mounted)) => byte_by(&mounted.dev, &self.remembered.learnt, v),
            Some(State::Dead(failed)) => byte_at(&failed.dev, v),
            None => unreachable!(),
        }
    }
}
