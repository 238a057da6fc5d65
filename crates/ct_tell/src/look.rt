// Which words are a look at an image.
ghost use Rattle.std.specs.Prelude.{◌≡◌, map, string_bytes};
ghost use Rattle.std.specs.Option.{option_map};
ghost use Rattle.ct_tell.specs.Looks.{image_look, look_in, look_of, look_with, path_look, range_look, rules_look};

use ct_script::number_of;
use ct_tree::checks::FILE_BYTES;

/// What is asked of an image. A path is as a script writes it.
#[derive(Clone, Copy)]
pub enum Look<'a> {
    /// The mount rules in words.
    Rules,

    /// What the image is, and what is in it.
    Info,

    /// Whether it is sound, or the first mount rule that fails.
    Check,

    /// The entries of a directory.
    List { path: &'a [u8] },

    /// At most so many bytes of a file, from an offset on.
    Cat { path: &'a [u8], off: u64, len: u64 },
}

/// The look that the words are.
pub fn look_of(words: &[String]) -> Option<Look<'_>>
    ensures { option_map look_in result ≡ look_of (map (λ w. string_bytes w) words.now) }
{
    if let [word, _, path, more @ ..] = words {
        return look_with(word, path, more);
    }
    match words {
        [word, _] => image_look(word),
        [word] => rules_look(word),
        _ => None,
    }
}

/// A look at what lies at a path, by the words behind it.
fn look_with<'a>(word: &String, path: &'a String, more: &[String]) -> Option<Look<'a>>
    ensures { option_map look_in result
        ≡ look_with (string_bytes word.now) (string_bytes path.now) (map (λ w. string_bytes w) more.now) }
{
    match more {
        [off, len] => range_look(word, path, off, len),
        [] => path_look(word, path),
        _ => None,
    }
}

/// A look at no image.
fn rules_look(word: &String) -> Option<Look<'static>>
    ensures { option_map look_in result ≡ rules_look (string_bytes word.now) }
{
    if word.as_str() == "rules" {
        return Some(Look::Rules);
    }
    None
}

/// A look at an image as a whole.
fn image_look(word: &String) -> Option<Look<'static>>
    ensures { option_map look_in result ≡ image_look (string_bytes word.now) }
{
    if word.as_str() == "info" {
        return Some(Look::Info);
    }
    if word.as_str() == "check" {
        return Some(Look::Check);
    }
    None
}

/// A look at what lies at a path.
fn path_look<'a>(word: &String, path: &'a String) -> Option<Look<'a>>
    ensures { option_map look_in result ≡ path_look (string_bytes word.now) (string_bytes path.now) }
{
    let path = path.as_bytes();
    if word.as_str() == "ls" {
        return Some(Look::List { path });
    }
    if word.as_str() == "cat" {
        return Some(Look::Cat {
            path,
            off: 0,
            len: FILE_BYTES,
        });
    }
    None
}

/// A look at some bytes of a file.
fn range_look<'a>(word: &String, path: &'a String, off: &String, len: &String) -> Option<Look<'a>>
    ensures { option_map look_in result ≡ range_look (string_bytes word.now) (string_bytes path.now) (string_bytes off.now) (string_bytes len.now) }
{
    if word.as_str() != "cat" {
        return None;
    }
    let path = path.as_bytes();
    match (number_of(off.as_bytes()), number_of(len.as_bytes())) {
        (Some(off), Some(len)) => Some(Look::Cat { path, off, len }),
        _ => None,
    }
}
