// The top call.
ghost use Rattle.std.specs.Prelude.{◌≡◌, ◌≢◌, ◌<◌, ◌≤◌, ◌↔◌, ℕ, None, Some, IsSome, IsSomeAnd, map, length, string_bytes};
ghost use Rattle.ct_base.specs.Causes.{Rose};
ghost use Rattle.ct_base.specs.View.{inode_count};
ghost use Rattle.ct_pm.specs.Device.{NothingPending};
ghost use Rattle.ct_tree.specs.Lands.{Lands};
ghost use Rattle.ct_tree.specs.Ordered.{IsTree};
ghost use Rattle.ct_tree.specs.Tree.{Tree};
ghost use Rattle.ct_run.specs.Carried.{RunsAs, streams};
ghost use Rattle.ct_run.specs.Dumps.{EndsDump};
ghost use Rattle.ct_run.specs.Ends.{EndsMem, HasCauses, IsDoneOrNoMemory, IsServed, IsUnbegun, IsUnused};
ghost use Rattle.ct_run.specs.Images.{EndsFormat, EndsRun, IsNoImage, IsRefusal, IsUntouched, Mounts};
ghost use Rattle.ct_run.specs.Limits.{IsShortEnough, WasTooLong};
ghost use Rattle.ct_run.specs.Opened.{devices};
ghost use Rattle.ct_run.specs.Words.{AreWithin, TakesImage, TakesScript, command_of};
ghost use Rattle.ct_run.specs.Workloads.{EndsGen};
ghost use Rattle.ct_run.specs.declared.command.Command.{Command};
ghost use Rattle.ct_shell.specs.Moments.{moment};

use crate::command::{Command, command_of};
use crate::job::Job;
use crate::opening::open;
use crate::status::{Outcome, Status, refused};
use ct_base::{Sink, Source};
use ct_pm::Pm;
use ct_script::SCRIPT_BYTES;
use std::alloc::Global;

/// Runs a command in three steps: it takes the memory of its job, its file system comes to stand, and the job is done over it.
fn carry_out<D: Pm, S: Source, O: Sink>(
    alloc: Global,
    command: Command,
    dev: D,
    input: &mut S,
    out: &mut O,
) -> Outcome<D>
    requires fits { AreWithin (Some command) }
    requires settled { NothingPending (D.told dev) }
    ensures { RunsAs (Some command) result.status
        (devices dev result.dev (moment (D.told dev) (D.words dev)) (moment (D.told result.dev) (D.words result.dev))
        (D.page_count dev) (D.faults dev) (D.faults result.dev))
        (streams input.old input.new out.old out.new (S.rest input.old) (S.rest input.new) (O.written out.old) (O.written out.new)
        (S.faults input.old) (S.faults input.new) (O.faults out.old) (O.faults out.new)) }
{
    let job = match Job::new(alloc, command) {
        Ok(job) => job,
        Err(_) => {
            return Outcome {
                status: Status::NoMemory,
                dev,
            };
        }
    };
    match open(alloc, dev, command.way()) {
        Ok(fs) => job.finish(fs, input, out),
        Err(no_mount) => refused(no_mount),
    }
}

// Runs a command, or none.
fn run_command<D: Pm, S: Source, O: Sink>(
    alloc: Global,
    command: Option<Command>,
    dev: D,
    input: &mut S,
    out: &mut O,
) -> Outcome<D>
    requires fits { AreWithin command }
    requires settled { NothingPending (D.told dev) }
    ensures { RunsAs command result.status
        (devices dev result.dev (moment (D.told dev) (D.words dev)) (moment (D.told result.dev) (D.words result.dev))
        (D.page_count dev) (D.faults dev) (D.faults result.dev))
        (streams input.old input.new out.old out.new (S.rest input.old) (S.rest input.new) (O.written out.old) (O.written out.new)
        (S.faults input.old) (S.faults input.new) (O.faults out.old) (O.faults out.new)) }
{
    match command {
        Some(command) => carry_out(alloc, command, dev, input, out),
        None => Outcome {
            status: Status::Usage,
            dev,
        },
    }
}

/// Runs the words, with the input and the output that they may use.
///
/// `mem` makes a file system with 1,024 inodes of all pages of the device, and `run IMAGE` mounts the one that the device
/// holds; both serve the script of the input over it. `format IMAGE INODES` makes a file system with so many inodes, and reads
/// and writes nothing. `gen NUMBER COUNT` makes one as `mem` does, makes the calls of a number over it, with `COUNT` draws, at
/// most 1,000,000, reads nothing, and writes one line of what they come to. `dump IMAGE` mounts the one that the device holds,
/// reads nothing, and writes the script that makes its tree. The device that is handed back holds the tree that the calls left,
/// where the status is `Done`.
pub fn run<D: Pm, S: Source, O: Sink>(
    alloc: Global,
    words: &[String],
    dev: D,
    input: &mut S,
    out: &mut O,
) -> Outcome<D>
    requires settled { NothingPending (D.told dev) }

    // The words are no command, exactly.
    ensures usage { result.status ≡ Status.Usage ↔ (command_of (map (λ w. string_bytes w) words.now) ≡ None) }

    // Memory ran out, the words are no command, or the device is no image for it: then nothing was read or written, and the
    // device is as it was, but that a mount may have settled it after the rules of the head.
    ensures unread { IsUnbegun result.status → IsUnused input.old input.new out.old out.new }
    ensures untouched { IsUnbegun result.status → IsUntouched (command_of (map (λ w. string_bytes w) words.now)) dev result.dev
        (moment (D.told dev) (D.words dev)) (moment (D.told result.dev) (D.words result.dev)) }
    ensures head { (rule : ℕ) → result.status ≡ Status.NotImage rule → rule < 8 → result.dev ≡ dev }

    // Else the device failed while the file system was made, and nothing was read or written; or from some moment on it stood.
    //
    // Each line is served as soon as it has come. Where the run is done, the input was read to its end, what was written are the
    // replies to its items, and the device holds the tree after them. Where the input failed, the same holds of the lines that were
    // ended; where it was too long, of the first of these, and one byte more was taken than a script may have. Where the device or
    // the output failed, the replies are those to some of the items, the last perhaps in part: to items of lines that were ended,
    // unless the input had come to its end.
    //
    // There is a moment for each item: when it is answered, a crash leaves only what lands on the tree after it, and since the
    // one before on that or on the tree before. So in the end a crash leaves what lands on the tree after the items whose replies
    // were written, or on the one after one item more. What reads lands so too, on every device, and the replies tell of it.
    // No step stores on a page of a live file, nor does a record that a crash may leave.
    ensures mem { command_of (map (λ w. string_bytes w) words.now) ≡ Some Command.Mem → IsServed result.status
        → EndsMem result.status (D.page_count dev) input.old input.new out.old out.new
        (S.rest input.old) (S.rest input.new) (O.written out.old) (O.written out.new)
        (moment (D.told dev) (D.words dev)) (moment (D.told result.dev) (D.words result.dev)) }

    // The same of an image that lands on a tree, with as many inodes as it has: until it is mounted, and where the device fails
    // before, all that a crash leaves lands on that tree.
    ensures run { command_of (map (λ w. string_bytes w) words.now) ≡ Some Command.Run → IsServed result.status
        → (t : Tree) → IsTree t → Lands (D.words dev) t
        → EndsRun (inode_count (D.words dev)) t result.status input.old input.new out.old out.new
        (S.rest input.old) (S.rest input.new) (O.written out.old) (O.written out.new)
        (moment (D.told dev) (D.words dev)) (moment (D.told result.dev) (D.words result.dev)) }

    // An empty file system with so many inodes was made, or the device failed before; nothing was read or written.
    ensures format { (inodes : ℕ) → command_of (map (λ w. string_bytes w) words.now) ≡ Some (Command.Format inodes) → IsServed result.status
        → IsUnused input.old input.new out.old out.new × EndsFormat inodes (D.page_count dev) result.status
        (moment (D.told dev) (D.words dev)) (moment (D.told result.dev) (D.words result.dev)) }

    // A file system was made as for mem, and from some moment on the calls of the number were made over it, with a moment for each,
    // as the items of a script are. Where the run is done, what was written tells what the replies and the tree come to that the
    // device holds; where the output failed, a part of that. Where the device failed, at most one call more was begun, and
    // nothing was written. The input is not read, however the run ends.
    ensures work { (number count : ℕ) → command_of (map (λ w. string_bytes w) words.now) ≡ Some (Command.Gen number count) → IsServed result.status
        → EndsGen number count result.status (D.page_count dev) out.old out.new (O.written out.old) (O.written out.new)
        (moment (D.told dev) (D.words dev)) (moment (D.told result.dev) (D.words result.dev)) }
    ensures work_unread { (number count : ℕ) → command_of (map (λ w. string_bytes w) words.now) ≡ Some (Command.Gen number count)
        → input.new ≡ input.old }

    // Where an image lands on no tree, a device that fails in the mount ends the run: nothing was read or written.
    ensures unmounted { TakesImage (command_of (map (λ w. string_bytes w) words.now)) → result.status ≡ Status.DeviceFault
        → ((t : Tree) → IsTree t → Lands (D.words dev) t → ⊥)
        → IsUnused input.old input.new out.old out.new
        × Mounts (moment (D.told dev) (D.words dev)) (moment (D.told result.dev) (D.words result.dev)) }

    // The tree of an image was written as the script that makes it: of an image that lands on one, with no step once it was
    // mounted; where a path is too long for a call, the lines before the first node that has one; and a prefix of all this where
    // the output failed. Nothing was read.
    ensures dump { command_of (map (λ w. string_bytes w) words.now) ≡ Some Command.Dump → (input.new ≡ input.old)
        × (IsServed result.status → (t : Tree) → IsTree t → Lands (D.words dev) t
        → EndsDump (inode_count (D.words dev)) t result.status out.old out.new (O.written out.old) (O.written out.new)
        (moment (D.told dev) (D.words dev)) (moment (D.told result.dev) (D.words result.dev))) }

    // The first mount rule that fails, or that on the device's size where it is to be formatted; exactly, where memory did not run
    // out before, nor the device fail in the midst of a mount.
    ensures not_image { (rule : ℕ) → result.status ≡ Status.NotImage rule
        → IsNoImage (command_of (map (λ w. string_bytes w) words.now)) (D.page_count dev) (D.words dev) rule }
    ensures refused { (rule : ℕ) → IsNoImage (command_of (map (λ w. string_bytes w) words.now)) (D.page_count dev) (D.words dev) rule
        → IsRefusal rule result.status }

    // A fault is answered only where that one failed, and the count of a device does not fall.
    ensures later { D.faults dev ≤ D.faults result.dev }
    ensures causes { HasCauses result.status (D.faults dev) (D.faults result.dev) (S.faults input.old) (S.faults input.new) (O.faults out.old) (O.faults out.new) }

    // More bytes came than a script may have, exactly, where nothing ended the run before; or a path of the tree that is dumped is
    // too long for a call.
    ensures too_long { result.status ≡ Status.TooLong → WasTooLong (command_of (map (λ w. string_bytes w) words.now)) (S.rest input.old) (D.words dev) }
    ensures long { TakesScript (command_of (map (λ w. string_bytes w) words.now))
        → IsSomeAnd (S.rest input.old) (λ script. SCRIPT_BYTES < length script) → result.status ≢ Status.Done }

    // With a device that is an image for the command, no fault, no more bytes than that and no path that is too long, it is done.
    ensures complete { IsSome (command_of (map (λ w. string_bytes w) words.now))
        → ((rule : ℕ) → IsNoImage (command_of (map (λ w. string_bytes w) words.now)) (D.page_count dev) (D.words dev) rule → ⊥)
        → (Rose (D.faults dev) (D.faults result.dev) → ⊥)
        → (Rose (S.faults input.old) (S.faults input.new) → ⊥) → (Rose (O.faults out.old) (O.faults out.new) → ⊥)
        → IsShortEnough (command_of (map (λ w. string_bytes w) words.now)) (S.rest input.old) (D.words dev)
        → IsDoneOrNoMemory result.status }
{
    run_command(alloc, command_of(words), dev, input, out)
}
