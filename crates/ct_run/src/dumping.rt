// The tree of a file system that stands, written as the script that makes it.
ghost use Rattle.std.specs.Prelude.{◌≡◌, ℕ};
ghost use Rattle.ct_base.specs.Causes.{Rose};
ghost use Rattle.ct_call.specs.Calls.{Keeps};
ghost use Rattle.ct_tree.specs.Tree.{Tree};
ghost use Rattle.ct_run.specs.Carried.{IsStanding};
ghost use Rattle.ct_run.specs.Dumps.{WroteDump, dump_status};
ghost use Rattle.ct_run.specs.Ends.{IsServed};

use crate::status::Status;
use ct_base::Sink;
use ct_dump::DumpFault;
use ct_fs::Fs;
use ct_pm::Pm;
use ct_script::Quote;
use ct_seen::dump_of;

// How a run ends whose tree was dumped so.
fn dump_status(written: Result<(), DumpFault>) -> Status
    ensures { result ≡ dump_status written }
{
    match written {
        Ok(()) => Status::Done,
        Err(DumpFault::Write) => Status::WriteFault,
        Err(DumpFault::TooLong) => Status::TooLong,
    }
}

/// Writes the tree of a file system.
pub fn dump_tree<D: Pm, O: Sink>(fs: &Fs<D>, quote: &mut Quote, out: &mut O) -> Status
    requires { IsStanding fs.now.state }
    ensures wrote { (count : ℕ) (t : Tree) → Keeps count fs.now.state t → WroteDump result t (O.written out.old) (O.written out.new) }
    ensures served { IsServed result }
    ensures write_fault { result ≡ Status.WriteFault → Rose (O.faults out.old) (O.faults out.new) }
{
    dump_status(dump_of(fs, quote, out))
}
