// The words of a line.
ghost use Rattle.std.specs.Prelude.{◌≡◌, ◌≤◌, ◌*◌, ◌+◌, length};
ghost use Rattle.pm_outbox.specs.Lines.{line_at};

/// The eight words of a line.
pub fn line_words(words: &[u64], line: u64) -> [u64; 8]
    requires { 8 * line + 8 ≤ length words.now }
    ensures { result ≡ line_at words.now line }
{
    let at = 8 * line as usize;
    [
        words[at],
        words[at + 1],
        words[at + 2],
        words[at + 3],
        words[at + 4],
        words[at + 5],
        words[at + 6],
        words[at + 7],
    ]
}
