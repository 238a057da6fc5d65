// The verbs of a script.
ghost use Rattle.std.specs.Prelude.{◌≡◌};
ghost use Rattle.ct_script.specs.Grammar.{verb_of, word_of};

/// What a line begins with.
#[derive(Clone, Copy)]
pub enum Verb {
    Create,
    Mkdir,
    Write,
    Fill,
    Append,
    Read,
    Truncate,
    Unlink,
    Rmdir,
    Rename,
    Exchange,
    Stat,
    List,
    Where,
}

/// The verbs in the order in which a word is compared with them.
const VERBS: [Verb; 14] = [
    Verb::Create,
    Verb::Mkdir,
    Verb::Write,
    Verb::Fill,
    Verb::Append,
    Verb::Read,
    Verb::Truncate,
    Verb::Unlink,
    Verb::Rmdir,
    Verb::Rename,
    Verb::Exchange,
    Verb::Stat,
    Verb::List,
    Verb::Where,
];

/// The verb that a word is, in lower case.
pub fn verb_of(word: &[u8]) -> Option<Verb>
    ensures { result ≡ verb_of word.now }
{
    for verb in &VERBS {
        if word == word_of(*verb) {
            return Some(*verb);
        }
    }
    None
}

/// The word that a verb is written as.
fn word_of(verb: Verb) -> &'static [u8]
    ensures { result.now ≡ word_of verb }
{
    match verb {
        Verb::Create => b"create",
        Verb::Mkdir => b"mkdir",
        Verb::Write => b"write",
        Verb::Fill => b"fill",
        Verb::Append => b"append",
        Verb::Read => b"read",
        Verb::Truncate => b"truncate",
        Verb::Unlink => b"unlink",
        Verb::Rmdir => b"rmdir",
        Verb::Rename => b"rename",
        Verb::Exchange => b"exchange",
        Verb::Stat => b"stat",
        Verb::List => b"list",
        Verb::Where => b"where",
    }
}
