// Names as they are written in replies.
ghost use Rattle.std.specs.Prelude.{◌≡◌, ◌+◌, ◌*◌, ◌≤◌, ◌++◌, ◌==◌, ◌||◌, nat_le, length};
ghost use Rattle.std.specs.Vec.{vec_capacity};
ghost use Rattle.ct_script.specs.Texts.{escaped, escaped_byte, is_escaped, name_text};

use ct_base::{NAME_BYTES, NoMemory};
use percent_encoding::percent_encode_byte;
use std::alloc::Global;
use std::marker::Model;

/// The longest name with each of its bytes escaped, and a space before it.
const QUOTED_BYTES: usize = 3 * NAME_BYTES + 1;

/// A buffer for one name as it is written.
#[derive(Drop)]
pub struct Quote {
    text: Vec<u8>,
}

impl Model for Quote {
    ghost use Rattle.std.specs.Prelude.{List, ℕ, ◌≤◌};
    ghost use Rattle.std.specs.Vec.{vec_capacity};
    ghost use Rattle.ct_script.specs.declared.quote.TheConstants.{QUOTED_BYTES};

    ghost Value = { List ℕ };

    ghost view = { λ q. q.text.items };

    ghost invariant = { λ q. QUOTED_BYTES ≤ vec_capacity q.text };
}

impl Quote {
    /// Takes memory for the longest name.
    pub fn new(alloc: Global) -> Result<Quote, NoMemory> {
        match Vec::with_capacity(alloc, QUOTED_BYTES) {
            Ok(text) => Ok(Quote { text }),
            Err(_) => Err(NoMemory),
        }
    }

    /// The name as it is written: bytes 0 to 32, those from 127 on and `%` as `%` and two upper-case hexadecimal digits.
    pub fn escape(&mut self, name: &[u8]) -> &[u8]
        requires { length name.now ≤ NAME_BYTES }
        ensures { result.now ≡ escaped name.now }
    {
        self.text.clear();
        quote_onto(&mut self.text, name);
        self.text.as_slice()
    }

    /// The same with a space before it.
    pub fn spaced(&mut self, name: &[u8]) -> &[u8]
        requires { length name.now ≤ NAME_BYTES }
        ensures { result.now ≡ name_text name.now }
    {
        self.text.clear();
        add(&mut self.text, b" ");
        quote_onto(&mut self.text, name);
        self.text.as_slice()
    }
}

/// Adds the escaped name, for which there is room.
fn quote_onto(text: &mut Vec<u8>, name: &[u8])
    requires { length text.old.items + 3 * length name.now ≤ vec_capacity text.old }
    ensures items { text.new.items ≡ text.old.items ++ escaped name.now }
    ensures room { vec_capacity text.old ≤ vec_capacity text.new }
{
    for byte in name {
        add_escaped(text, *byte);
    }
}

/// Adds a byte as it is written.
#[tactic(auto, using(crate::proofs::Puts::escape_length))]
fn add_escaped(text: &mut Vec<u8>, byte: u8)
    requires { length text.old.items + 3 ≤ vec_capacity text.old }
    ensures items { text.new.items ≡ text.old.items ++ escaped_byte byte }
    ensures length { length text.new.items ≤ length text.old.items + 3 }
    ensures room { vec_capacity text.old ≤ vec_capacity text.new }
{
    if is_escaped(byte) {
        add(text, percent_encode_byte(byte).as_bytes());
    } else {
        add(text, &[byte]);
    }
}

fn is_escaped(byte: u8) -> bool
    ensures { result ≡ is_escaped byte }
{
    byte <= b' ' || byte >= 127 || byte == b'%'
}

/// Adds bytes for which there is room.
fn add(text: &mut Vec<u8>, bytes: &[u8])
    requires { length text.old.items + length bytes.now ≤ vec_capacity text.old }
    ensures items { text.new.items ≡ text.old.items ++ bytes.now }
    ensures length { length text.new.items ≡ length text.old.items + length bytes.now }
    ensures room { vec_capacity text.old ≤ vec_capacity text.new }
{
    match text.extend_from_slice(bytes) {
        Ok(()) => {}
        Err(_) => unreachable!(),
    }
}
