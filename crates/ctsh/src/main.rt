//! `ctsh`: runs the commands of the shell with standard input and output, and ends with the status of the run.
#![tactic(auto)]

ghost use Rattle.ct_pm.specs.Device.{NothingPending};

use ct_base::{StdSink, StdSource};
use ct_pm::{Pm, RamPm};
use ct_run::{Status, run};
use pm_file::{AttachFault, FileLock, FilePm};
use std::alloc::Global;
use std::process::ExitCode;
use std::{env, io};

/// How many pages the device in memory has.
const PAGES: u64 = 4096;

const HELP: &str = "\
usage: ctsh mem
       ctsh format IMAGE INODES
       ctsh run IMAGE
       ctsh dump IMAGE
       ctsh gen NUMBER COUNT
       ctsh --help | --version

mem     makes a file system in memory, runs the script of standard input over it,
        and writes one line to standard output for each line of the script that is
        not empty, as soon as that line has come
          ctsh mem < first.ctsh
format  makes an empty file system of all whole 4096-byte pages of a regular file
        that is there, 256 to 262144 of them, with so many inodes, 2 to 1048576;
        what the file held is lost
          head -c 64M /dev/zero > disk.img; ctsh format disk.img 4096
run     mounts the file system in a file, and runs the script as mem does; a call
        that a crash cut off is done whole or not at all
          ctsh run disk.img < first.ctsh
dump    mounts the file system in a file as run does, and writes the script that
        makes its files and directories on an empty one; reads no script. It may
        be longer than the 16777216 bytes that a script may have: split it then,
        at the ends of lines
          ctsh dump disk.img > all; split -C 16M all part.
          for part in part.*; do ctsh run empty.img < $part; done
gen     makes a file system in memory as mem does, and 16 files; makes COUNT calls
        over it that a number gives, at most 1000000, and writes what they came to
          ctsh gen 7 10000

A run over a file waits while another has it.

Lines of a script:
  create PATH   makes an empty file
  mkdir PATH    makes an empty directory
  write PATH OFF HEX
                writes the bytes of hexadecimal digits into a file from OFF on
  fill PATH OFF LEN BYTE
                writes LEN times one byte into a file from OFF on
  append PATH HEX
                writes the bytes of hexadecimal digits at the end of a file
  truncate PATH LEN
                gives a file a length: it is cut, or has zeros behind its bytes
  exchange PATH OFF OTHER OFF LEN
                exchanges the pages of two ranges of whole pages
  unlink PATH   removes a file
  rmdir PATH    removes an empty directory
  rename PATH TO
                gives a file or a directory another path; a file or an empty
                directory that is there is replaced
  stat PATH     tells the size of a file or the number of entries of a directory
  list PATH     tells the names in a directory
  where PATH    tells the address and the level of a file's partition
  read PATH OFF LEN
                tells at most LEN bytes of a file from OFF on, as hexadecimal digits
Any other line that is not empty is answered with 'error line', and so is one of
over 65536 bytes. In a path %XX is the byte XX.

Exit status, with a line on standard error where it is not 0:
  0  done
  2  the words are no command
  3  the file holds no file system, or a damaged one: the first rule that it breaks
  4  the file is not there, or cannot be read, written or synced
  5  standard input cannot be read; the lines before that were answered
  6  standard output cannot be written
  7  no memory
  8  the script has over 16777216 bytes, and only its first lines were answered,
     or a path in the dump has over 4096
";

/// Why the words are not known.
enum WordsEnd {
    NoMemory,
    NotText,
}

/// The words after the program's name.
fn words(rt: &HostRuntime, alloc: Global) -> Result<Vec<String>, WordsEnd> {
    let mut words = Vec::new(alloc);
    let all = match env::args(rt) {
        Ok(all) => all,
        Err(error) if error.kind() == io::ErrorKind::OutOfMemory => return Err(WordsEnd::NoMemory),
        Err(_) => return Err(WordsEnd::NotText),
    };
    for word in all.skip(1) {
        if words.push(word).is_err() {
            return Err(WordsEnd::NoMemory);
        }
    }
    Ok(words)
}

/// What `--help` and `--version`, alone, print.
fn about(words: &[String]) -> Option<&'static str> {
    match words {
        [word] if word.as_str() == "--help" => Some(HELP),
        [word] if word.as_str() == "--version" => Some("ctsh 0.1.0\n"),
        _ => None,
    }
}

/// Writes a text to standard output.
fn tell(rt: &HostRuntime, text: &str) -> Status {
    match print!(rt; "{text}") {
        Ok(()) => Status::Done,
        Err(_) => Status::WriteFault,
    }
}

/// Whether a command works over the file that the next word names. A mount settles what a crash left, so to dump an image
/// writes to it too.
fn takes_image(command: &str) -> bool {
    command == "run" || command == "format" || command == "dump"
}

/// The file that the words name for a command.
fn image_of(words: &[String]) -> Option<&str> {
    match words {
        [word, image, ..] if takes_image(word.as_str()) => Some(image.as_str()),
        _ => None,
    }
}

/// Runs the words over a device, with standard input and output.
fn run_over<D: Pm + Drop>(rt: &HostRuntime, alloc: Global, words: &[String], dev: D) -> Status
    requires { NothingPending (D.told dev) }
{
    let mut input = StdSource::new(rt.reader());
    let mut out = StdSink::new(io::writer(rt));
    run(alloc, words, dev, &mut input, &mut out).status
}

/// Runs the words over a device in memory.
fn run_in_memory(rt: &HostRuntime, alloc: Global, words: &[String]) -> Status {
    match RamPm::new(alloc, PAGES) {
        Ok(dev) => run_over(rt, alloc, words, dev),
        Err(_) => Status::NoMemory,
    }
}

/// Locks a file against other runs for as long as the lock is there, and says so where it has to wait for one.
fn locked(rt: &HostRuntime, name: &str) -> FileLock {
    let lock = FileLock::open(rt, name);
    if !lock.try_lock() {
        let _ = eprintln!(rt; "ctsh: waiting for another run over {name}");
        lock.lock();
    }
    lock
}

/// Runs the words over a file, which has to be there. Other runs over it wait until this one has ended.
fn run_in_file(rt: &HostRuntime, alloc: Global, words: &[String], name: &str) -> Status {
    let _lock = locked(rt, name);
    match FilePm::attach(rt, alloc, name) {
        Ok(dev) => run_over(rt, alloc, words, dev),
        Err(AttachFault::NoMemory) => Status::NoMemory,
        Err(AttachFault::File) => Status::DeviceFault,
    }
}

fn status_of(rt: &HostRuntime) -> Status {
    let alloc = rt.alloc();
    let words = match words(rt, alloc) {
        Ok(words) => words,
        Err(WordsEnd::NoMemory) => return Status::NoMemory,
        Err(WordsEnd::NotText) => return Status::Usage,
    };
    if let Some(text) = about(&words) {
        return tell(rt, text);
    }
    match image_of(&words) {
        Some(name) => run_in_file(rt, alloc, &words, name),
        None => run_in_memory(rt, alloc, &words),
    }
}

fn main(rt: HostRuntime) -> ExitCode {
    let status = status_of(&rt);
    if status != Status::Done {
        let _ = eprintln!(rt; "ctsh: {status}");
    }
    ExitCode::from(status.code())
}
