// What is written.
ghost use Rattle.std.specs.Prelude.{◌≡◌, ℕ, ◌<◌, length, slice_index};
ghost use Rattle.ct_stage.specs.Edited.{HasBytes, given_at};
ghost use Rattle.ct_write.specs.Written.{data_len, data_given};

use ct_stage::Given;

/// The bytes of a write.
#[derive(Clone, Copy, Debug, Drop)]
pub enum Data<'a> {
    /// These, in their order.
    Bytes(&'a [u8]),
    /// So many of one byte.
    Fill { len: u64, byte: u8 },
}

/// How many bytes there are.
pub fn len_of(what: Data<'_>) -> u64
    ensures { result ≡ data_len what.entry }
{
    match what {
        Data::Bytes(bytes) => bytes.len() as u64,
        Data::Fill { len, byte: _ } => len,
    }
}

// The bytes of a slice are bytes.
fn are_bytes(bytes: &[u8])
    ensures { (k : ℕ) → slice_index bytes.now k < 256 }
{}

// The bytes, as an edit takes them.
pub fn given_of<'a>(what: Data<'a>) -> Given<'a>
    ensures exact { result ≡ data_given what.entry }
    ensures bytes { (k : ℕ) → given_at result k < 256 }
    ensures there { HasBytes result (data_len what.entry) }
{
    match what {
        Data::Bytes(bytes) => {
            are_bytes(bytes);
            Given::Listed(bytes)
        }
        Data::Fill { len: _, byte } => Given::Same(byte),
    }
}
