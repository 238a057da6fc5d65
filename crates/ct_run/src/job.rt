// What is done over a file system that stands, with its memory.
ghost use Rattle.std.specs.Prelude.{◌≡◌, IfOk};
ghost use Rattle.ct_call.specs.Seen.{faults_in};
ghost use Rattle.ct_run.specs.Carried.{HasMemory, IsJobOf, IsStanding, WorksAs, streams, work_in};
ghost use Rattle.ct_run.specs.Ways.{IsWithinWork};
ghost use Rattle.ct_shell.specs.Moments.{moment, moment_in};

use crate::command::Command;
use crate::dumping::dump_tree;
use crate::memory::{Buffers, Page};
use crate::serving::serve_all;
use crate::status::{Outcome, Status};
use crate::working::work_and_tell;
use ct_base::{NoMemory, Sink, Source};
use ct_fs::Fs;
use ct_pm::Pm;
use ct_script::Quote;
use std::alloc::Global;

/// What is done over a file system that stands, with all the memory that it takes.
#[derive(Drop)]
pub enum Job {
    /// The script of the input is served.
    Script(Buffers),

    Nothing,

    /// The calls of a number are made, so many draws of them, and what came of them is written.
    Calls { number: u64, count: u64, page: Page },

    /// The script that makes its tree is written.
    Dump(Quote),
}

impl Job {
    /// Takes the memory for the job of a command.
    pub fn new(alloc: Global, command: Command) -> Result<Job, NoMemory>
        ensures { IfOk result (λ job. IsJobOf command job) }
    {
        match command {
            Command::Mem => Ok(Job::Script(Buffers::new(alloc)?)),
            Command::Run => Ok(Job::Script(Buffers::new(alloc)?)),
            Command::Format { inodes: _ } => Ok(Job::Nothing),
            Command::Gen { number, count } => {
                let page = Page::new(alloc)?;
                Ok(Job::Calls {
                    number,
                    count,
                    page,
                })
            }
            Command::Dump => Ok(Job::Dump(Quote::new(alloc)?)),
        }
    }

    // Does it over a file system.
    fn work<D: Pm, S: Source, O: Sink>(self, fs: &mut Fs<D>, input: &mut S, out: &mut O) -> Status
        requires memory { HasMemory self }
        requires fits { IsWithinWork (work_in self) }
        requires stands { IsStanding fs.old.state }
        ensures { WorksAs (work_in self) result fs.old.state (moment_in fs.new.state) (faults_in fs.new.state)
            (streams input.old input.new out.old out.new (S.rest input.old) (S.rest input.new) (O.written out.old) (O.written out.new)
            (S.faults input.old) (S.faults input.new) (O.faults out.old) (O.faults out.new)) }
    {
        match self {
            Job::Script(buffers) => {
                let mut buffers = buffers;
                serve_all(fs, &mut buffers, input, out)
            }
            Job::Nothing => Status::Done,
            Job::Calls {
                number,
                count,
                page,
            } => {
                let mut page = page;
                work_and_tell(fs, number, count, &mut page, out)
            }
            Job::Dump(quote) => {
                let mut quote = quote;
                dump_tree(fs, &mut quote, out)
            }
        }
    }

    /// Does it over a file system, and hands the device out.
    pub fn finish<D: Pm, S: Source, O: Sink>(
        self,
        fs: Fs<D>,
        input: &mut S,
        out: &mut O,
    ) -> Outcome<D>
        requires memory { HasMemory self }
        requires fits { IsWithinWork (work_in self) }
        requires stands { IsStanding fs.state }
        ensures { WorksAs (work_in self) result.status fs.state (moment (D.told result.dev) (D.words result.dev)) (D.faults result.dev)
            (streams input.old input.new out.old out.new (S.rest input.old) (S.rest input.new) (O.written out.old) (O.written out.new)
            (S.faults input.old) (S.faults input.new) (O.faults out.old) (O.faults out.new)) }
    {
        let mut fs = fs;
        let status = self.work(&mut fs, input, out);
        Outcome {
            status,
            dev: fs.unmount(),
        }
    }
}
