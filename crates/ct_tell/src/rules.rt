// The mount rules in words.
ghost use Rattle.std.specs.Prelude.{◌≡◌, ◌≤◌, ◌<◌, ◌+◌, ◌++◌, length};
ghost use Rattle.ct_base.specs.Bytes.{PutAppends};
ghost use Rattle.ct_base.specs.Causes.{HasCause};
ghost use Rattle.ct_tell.specs.Rules.{all_rules, head_words, name_words, rule_line, rule_words, space_words};

use crate::text::{TextBuf, push_bytes, push_number};
use ct_base::{Sink, WriteFault};

/// How many mount rules there are, from 0 on.
const RULES: u32 = 21;

// Of the size, the first page and the record.
fn head_words(rule: u32) -> &'static [u8]
    ensures words { result.now ≡ head_words rule }
    ensures short { length result.now ≤ 96 }
{
    match rule {
        0 => b"the file has fewer than 256 or more than 262,144 whole pages",
        1 => b"the first word is not that of a file system",
        2 => b"the version is not 1",
        3 => b"the page count is below 256 or above the pages of the file",
        4 => b"the inode count is below 2 or above 1,048,576",
        5 => b"a word of the first page behind the counts is not 0",
        6 => b"the record has more pairs than it has room for, or two gates are open",
        _ => b"a pair of the open record names a word that no record may change",
    }
}

// Of tables, inodes and partitions.
fn space_words(rule: u32) -> &'static [u8]
    ensures words { result.now ≡ space_words rule }
    ensures short { length result.now ≤ 96 }
{
    match rule {
        8 => b"an entry of a table is not 0 and names no page",
        9 => b"a page is reached twice",
        10 => {
            b"an inode has an unknown kind or a spare word that is not 0, or the root is no directory"
        }
        11 => b"an inode has no lawful place for its size",
        12 => b"two partitions meet",
        13 => b"a byte past a size is not 0",
        _ => b"a page is mapped outside the partitions",
    }
}

// Of headers and directories.
fn name_words(rule: u32) -> &'static [u8]
    ensures words { result.now ≡ name_words rule }
    ensures short { length result.now ≤ 96 }
{
    match rule {
        15 => b"a partition header is not what the partitions make it",
        16 => b"a byte beside the inodes is not 0",
        17 => b"an entry of a directory names no inode, or has no lawful name",
        18 => b"two entries of a directory have the same name",
        19 => b"the root is named, or another inode is not named once",
        _ => b"an inode is not reached from the root",
    }
}

/// What is so where a rule fails.
fn rule_words(rule: u32) -> &'static [u8]
    ensures words { result.now ≡ rule_words rule }
    ensures short { length result.now ≤ 96 }
{
    if rule < 8 {
        head_words(rule)
    } else if rule < 15 {
        space_words(rule)
    } else {
        name_words(rule)
    }
}

/// Puts the line of a rule at the end of a text.
pub fn push_rule(text: &mut TextBuf, rule: u32)
    requires { length text.old.items + 128 ≤ 1024 }
    ensures text { text.new.items ≡ text.old.items ++ rule_line rule }
    ensures length { length text.new.items ≤ length text.old.items + 128 }
{
    push_number(text, b"rule ", u64::from(rule));
    push_bytes(text, b": ");
    push_bytes(text, rule_words(rule));
    push_bytes(text, b"\n");
}

/// Writes the line of a rule.
pub fn put_rule<O: Sink>(out: &mut O, rule: u32) -> Result<(), WriteFault>
    ensures bytes { PutAppends (O.written out.old) (O.written out.new) result (rule_line rule) }
    ensures cause { HasCause (O.faults out.old) (O.faults out.new) result }
{
    let mut line = TextBuf::new();
    push_rule(&mut line, rule);
    out.put(line.as_slice())
}

/// Writes the lines of all rules.
pub fn put_rules<O: Sink>(out: &mut O) -> Result<(), WriteFault>
    ensures bytes { PutAppends (O.written out.old) (O.written out.new) result all_rules }
    ensures cause { HasCause (O.faults out.old) (O.faults out.new) result }
{
    for rule in 0..RULES {
        match put_rule(out, rule) {
            Ok(()) => {}
            Err(fault) => return Err(fault),
        }
    }
    Ok(())
}
