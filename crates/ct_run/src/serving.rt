// A script served over a file system that stands.
ghost use Rattle.std.specs.Prelude.{◌≡◌};
ghost use Rattle.ct_call.specs.Seen.{faults_in};
ghost use Rattle.ct_run.specs.Carried.{IsStanding, WorksAs, streams};
ghost use Rattle.ct_run.specs.Ends.{stream_status};
ghost use Rattle.ct_run.specs.Ways.{script as script_work};
ghost use Rattle.ct_script.specs.Feed.{unasked};
ghost use Rattle.ct_shell.specs.Moments.{moment_in};

use crate::memory::Buffers;
use crate::status::Status;
use ct_base::{Sink, Source};
use ct_fs::Fs;
use ct_pm::Pm;
use ct_shell::{StreamEnd, serve_lines};

// How a run ends whose script was served so.
fn stream_status(served: Result<(), StreamEnd>) -> Status
    ensures { result ≡ stream_status served }
{
    match served {
        Ok(()) => Status::Done,
        Err(StreamEnd::Device) => Status::DeviceFault,
        Err(StreamEnd::Output) => Status::WriteFault,
        Err(StreamEnd::Input) => Status::ReadFault,
        Err(StreamEnd::TooLong) => Status::TooLong,
    }
}

/// Serves the script of the input over a file system, line by line.
pub fn serve_all<D: Pm, S: Source, O: Sink>(
    fs: &mut Fs<D>,
    buffers: &mut Buffers,
    input: &mut S,
    out: &mut O,
) -> Status
    requires unasked { buffers.old.feed ≡ unasked }
    requires stands { IsStanding fs.old.state }
    ensures { WorksAs script_work result fs.old.state (moment_in fs.new.state) (faults_in fs.new.state)
        (streams input.old input.new out.old out.new (S.rest input.old) (S.rest input.new) (O.written out.old) (O.written out.new)
        (S.faults input.old) (S.faults input.new) (O.faults out.old) (O.faults out.new)) }
{
    stream_status(serve_lines(
        fs,
        &mut buffers.feed,
        input,
        &mut buffers.scratch,
        &mut buffers.replies,
        out,
    ))
}
