// Which words are a command.
ghost use Rattle.std.specs.Prelude.{◌≡◌, map, option_and_then, string_bytes};
ghost use Rattle.ct_script.specs.Grammar.{number_of};
ghost use Rattle.ct_run.specs.Words.{command_of, format_of, gen_of, gen_with, image_command, long_command, way_of};

use crate::opening::Way;
use ct_base::{LEAST_INODES, MOST_INODES};
use ct_gen::MOST_DRAWS;
use ct_script::number_of;

/// How many inodes the file system of `mem` has.
const INODES: u64 = 1024;

/// What a run does of its device.
#[derive(Clone, Copy)]
pub enum Command {
    /// Makes a file system with 1,024 inodes of all its pages, and serves the script of the input over it.
    Mem,

    /// Mounts the file system that it holds, and serves the script of the input over it.
    Run,

    /// Makes a file system with so many inodes of all its pages.
    Format { inodes: u64 },

    /// Makes a file system with 1,024 inodes of all its pages, makes the calls of a number over it, `count` draws of them, and
    /// writes what came of them.
    Gen { number: u64, count: u64 },

    /// Mounts the file system that it holds, and writes a script that makes its tree.
    Dump,
}

impl Command {
    /// How its file system comes to stand.
    pub(crate) fn way(self) -> Way
        ensures { result ≡ way_of self }
    {
        match self {
            Command::Mem => Way::Making { inodes: INODES },
            Command::Run => Way::Mounting,
            Command::Format { inodes } => Way::Making { inodes },
            Command::Gen {
                number: _,
                count: _,
            } => Way::Making { inodes: INODES },
            Command::Dump => Way::Mounting,
        }
    }
}

/// The command that the words are.
pub fn command_of(words: &[String]) -> Option<Command>
    ensures { result ≡ command_of (map (λ w. string_bytes w) words.now) }
{
    match words {
        [word] => {
            if word.as_str() == "mem" {
                Some(Command::Mem)
            } else {
                None
            }
        }
        [word, _] => image_command(word),
        [word, first, second] => long_command(word, first, second),
        _ => None,
    }
}

/// A command over an image that is there.
fn image_command(word: &String) -> Option<Command>
    ensures { result ≡ image_command (string_bytes word.now) }
{
    if word.as_str() == "run" {
        Some(Command::Run)
    } else if word.as_str() == "dump" {
        Some(Command::Dump)
    } else {
        None
    }
}

/// A command with two words after it.
fn long_command(word: &String, first: &String, second: &String) -> Option<Command>
    ensures { result ≡ long_command (string_bytes word.now) (string_bytes first.now) (string_bytes second.now) }
{
    if word.as_str() == "format" {
        format_of(second.as_bytes())
    } else if word.as_str() == "gen" {
        gen_of(first.as_bytes(), second.as_bytes())
    } else {
        None
    }
}

/// A format with so many inodes: a number from 2 to 1,048,576.
fn format_of(word: &[u8]) -> Option<Command>
    ensures { result ≡ format_of word.now }
{
    match number_of(word) {
        Some(inodes) => {
            if LEAST_INODES <= inodes && inodes <= MOST_INODES {
                Some(Command::Format { inodes })
            } else {
                None
            }
        }
        None => None,
    }
}

/// The calls of a number: both words are numbers, and there are at most 1,000,000 draws.
fn gen_of(number: &[u8], count: &[u8]) -> Option<Command>
    ensures { result ≡ gen_of number.now count.now }
{
    match number_of(number) {
        Some(number) => gen_with(number, count),
        None => None,
    }
}

fn gen_with(number: u64, count: &[u8]) -> Option<Command>
    ensures { result ≡ option_and_then (gen_with number) (number_of count.now) }
{
    match number_of(count) {
        Some(count) => {
            if count <= MOST_DRAWS {
                Some(Command::Gen { number, count })
            } else {
                None
            }
        }
        None => None,
    }
}
