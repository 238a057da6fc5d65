// The calls of a number over a file system that stands.
ghost use Rattle.std.specs.Prelude.{◌≡◌, ◌≤◌, ℕ, length};
ghost use Rattle.ct_base.specs.Causes.{Rose};
ghost use Rattle.ct_call.specs.Calls.{Keeps};
ghost use Rattle.ct_call.specs.Seen.{faults_in};
ghost use Rattle.ct_shell.specs.Moments.{moment_in};
ghost use Rattle.ct_tally.specs.Tried.{workload};
ghost use Rattle.ct_tree.specs.Tree.{Tree};
ghost use Rattle.ct_run.specs.Ends.{IsServed};
ghost use Rattle.ct_run.specs.Workloads.{LeavesWork};

use crate::memory::Page;
use crate::status::Status;
use ct_base::{PAGE_BYTES, Sink};
use ct_fs::Fs;
use ct_gen::MOST_DRAWS;
use ct_pm::Pm;
use ct_tally::{put_tally, work};

/// Makes the calls of a number over a file system, and writes what they come to.
pub fn work_and_tell<D: Pm, O: Sink>(
    fs: &mut Fs<D>,
    number: u64,
    count: u64,
    page: &mut Page,
    out: &mut O,
) -> Status
    requires few { count ≤ MOST_DRAWS }
    requires page { length page.old.bytes.items ≡ PAGE_BYTES }
    ensures leaves { (inodes : ℕ) (t : Tree) → Keeps inodes fs.old.state t
        → LeavesWork inodes t result (workload number count) out.old out.new (O.written out.old) (O.written out.new)
        (moment_in fs.old.state) (moment_in fs.new.state) }
    ensures later { (inodes : ℕ) (t : Tree) → Keeps inodes fs.old.state t → faults_in fs.old.state ≤ faults_in fs.new.state }
    ensures device_fault { (inodes : ℕ) (t : Tree) → Keeps inodes fs.old.state t
        → result ≡ Status.DeviceFault → Rose (faults_in fs.old.state) (faults_in fs.new.state) }
    ensures write_fault { result ≡ Status.WriteFault → Rose (O.faults out.old) (O.faults out.new) }
    ensures served { IsServed result }
{
    match work(fs, number, count, page.bytes.as_mut_slice()) {
        Ok(tally) => match put_tally(out, &tally) {
            Ok(()) => Status::Done,
            Err(_) => Status::WriteFault,
        },
        Err(_) => Status::DeviceFault,
    }
}
