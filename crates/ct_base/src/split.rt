// The parts of a list of bytes: the lines of a script, the names of a path.
ghost use Rattle.std.specs.Prelude.{◌≡◌, ◌==◌, position};
ghost use Rattle.ct_base.specs.Split.{IsFirstPart};

/// The place of the first `separator`.
fn find(bytes: &[u8], separator: u8) -> Option<usize>
    ensures { result ≡ position (λ b. b == separator) bytes.now }
{
    bytes.iter().position(|b| *b == separator)
}

/// The bytes before the first `separator`, and those after it, where there is one.
pub fn first_part(bytes: &[u8], separator: u8) -> (&[u8], Option<&[u8]>)
    ensures { IsFirstPart separator bytes.now result.0.now result.1 }
{
    match find(bytes, separator) {
        None => (bytes, None),
        Some(end) => (&bytes[..end], Some(&bytes[end + 1..])),
    }
}
