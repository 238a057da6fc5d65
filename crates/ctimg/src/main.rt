//! `ctimg`: looks at an image, and ends with the status of the look.
#![tactic(auto)]

use ct_base::StdSink;
use ct_pm::{Pm, RamPm};
use ct_tell::{Look, Status, look_of, tell};
use pm_file::{AttachFault, read_image};
use std::alloc::Global;
use std::process::ExitCode;
use std::{env, io};

const HELP: &str = "\
usage: ctimg info IMAGE
       ctimg check IMAGE
       ctimg ls IMAGE PATH
       ctimg cat IMAGE PATH [OFF LEN]
       ctimg rules
       ctimg --help | --version

info    tells what the image in a file is: the version of its format, its pages and
        inodes, whether a record is open, and what is in it; and whether it is sound
check   tells whether the image is sound, or the first rule that it breaks
ls      tells the entries of a directory in byte order, one on a line: f for a file
        with its bytes, or d for a directory with the number of its entries, and its
        name as a script of ctsh writes it
cat     writes the bytes of a file, or at most LEN of them from OFF on
rules   tells the rules that an image has to meet

No command writes to the file. What a crash cut off is told as if it had been done.
In a path %XX is the byte XX, as in a script of ctsh.

Exit status, with a line on standard error where it is not 0:
  0  done
  2  the words are no command
  3  the file holds no file system, or a damaged one: the first rule that it breaks
  4  the file is not there, or cannot be read
  6  standard output cannot be written
  7  no memory
  9  the path is refused
";

/// Why the words are not known.
enum WordsEnd {
    NoMemory,
    NotText,
}

/// The words after the program's name.
fn words(rt: &HostRuntime, alloc: Global) -> Result<Vec<String>, WordsEnd> {
    let mut words = Vec::new(alloc);
    let all = match env::args(rt) {
        Ok(all) => all,
        Err(error) if error.kind() == io::ErrorKind::OutOfMemory => return Err(WordsEnd::NoMemory),
        Err(_) => return Err(WordsEnd::NotText),
    };
    for word in all.skip(1) {
        if words.push(word).is_err() {
            return Err(WordsEnd::NoMemory);
        }
    }
    Ok(words)
}

/// What `--help` and `--version`, alone, print.
fn about(words: &[String]) -> Option<&'static str> {
    match words {
        [word] if word.as_str() == "--help" => Some(HELP),
        [word] if word.as_str() == "--version" => Some("ctimg 0.1.0\n"),
        _ => None,
    }
}

/// Writes a text to standard output.
fn print_text(rt: &HostRuntime, text: &str) -> Status {
    match print!(rt; "{text}") {
        Ok(()) => Status::Done,
        Err(_) => Status::WriteFault,
    }
}

/// Whether the words are a look at an image, and so name its file.
fn takes_image(words: &[String]) -> bool {
    match look_of(words) {
        Some(Look::Rules) => false,
        Some(_) => true,
        None => false,
    }
}

/// The file that the words name.
fn image_of(words: &[String]) -> Option<&str> {
    match words {
        [_, image, ..] if takes_image(words) => Some(image.as_str()),
        _ => None,
    }
}

/// Looks at an image, with standard output.
fn tell_of<D: Pm>(rt: &HostRuntime, alloc: Global, words: &[String], image: &D) -> Status {
    let mut out = StdSink::new(io::writer(rt));
    tell(alloc, words, image, &mut out)
}

/// Looks at the image in a file, which has to be there and is opened for reading alone.
fn tell_of_file(rt: &HostRuntime, alloc: Global, words: &[String], name: &str) -> Status {
    match read_image(rt, alloc, name) {
        Ok(image) => tell_of(rt, alloc, words, &image),
        Err(AttachFault::NoMemory) => Status::NoMemory,
        Err(AttachFault::File) => Status::DeviceFault,
    }
}

/// Runs words that name no image.
fn tell_of_none(rt: &HostRuntime, alloc: Global, words: &[String]) -> Status {
    match RamPm::new(alloc, 0) {
        Ok(none) => tell_of(rt, alloc, words, &none),
        Err(_) => Status::NoMemory,
    }
}

fn status_of(rt: &HostRuntime) -> Status {
    let alloc = rt.alloc();
    let words = match words(rt, alloc) {
        Ok(words) => words,
        Err(WordsEnd::NoMemory) => return Status::NoMemory,
        Err(WordsEnd::NotText) => return Status::Usage,
    };
    if let Some(text) = about(&words) {
        return print_text(rt, text);
    }
    match image_of(&words) {
        Some(name) => tell_of_file(rt, alloc, &words, name),
        None => tell_of_none(rt, alloc, &words),
    }
}

fn main(rt: HostRuntime) -> ExitCode {
    let status = status_of(&rt);
    if status != Status::Done {
        let _ = eprintln!(rt; "ctimg: {status}");
    }
    ExitCode::from(status.code())
}
