// The top call.
ghost use Rattle.std.specs.Prelude.{◌≡◌, ◌↔◌, IfSome, None, map, string_bytes};
ghost use Rattle.ct_tell.specs.Ends.{Comes, EndsAs, HasCause};
ghost use Rattle.ct_tell.specs.Looks.{look_in, look_of};
ghost use Rattle.ct_tell.specs.Rules.{all_rules};

use crate::info::put_info;
use crate::look::{Look, look_of};
use crate::path::{cat_at, list_at};
use crate::rules::put_rules;
use crate::status::Status;
use crate::verdict::put_check;
use ct_base::Sink;
use ct_pm::Pm;
use std::alloc::Global;

// Writes the mount rules.
fn rules_at<O: Sink>(out: &mut O) -> Status
    ensures ends { Comes Status.Done all_rules result (O.written out.old) (O.written out.new) }
    ensures cause { HasCause result (O.faults out.old) (O.faults out.new) }
{
    match put_rules(out) {
        Ok(()) => Status::Done,
        Err(_) => Status::WriteFault,
    }
}

// Writes what a look at an image comes to.
fn tell_look<D: Pm, O: Sink>(alloc: Global, look: Look<'_>, image: &D, out: &mut O) -> Status
    ensures ends { EndsAs (look_in look.entry) (D.words image.now) result (O.written out.old) (O.written out.new) }
    ensures cause { HasCause result (O.faults out.old) (O.faults out.new) }
{
    match look {
        Look::Rules => rules_at(out),
        Look::Info => put_info(alloc, image, out),
        Look::Check => put_check(alloc, image, out),
        Look::List { path } => list_at(alloc, path, image, out),
        Look::Cat { path, off, len } => cat_at(alloc, path, off, len, image, out),
    }
}

/// Writes what the words ask of an image. The image stays as it is: its words are copied, and what a crash cut off is done to the
/// copy alone.
///
/// `rules` writes the mount rules in words. `info IMAGE` writes what the image is and what is in it, and `check IMAGE` whether it
/// is sound, or the first mount rule that fails. `ls IMAGE PATH` writes the entries of a directory, and `cat IMAGE PATH` the bytes
/// of a file, or with `OFF LEN` behind it at most so many from an offset on.
pub fn tell<D: Pm, O: Sink>(alloc: Global, words: &[String], image: &D, out: &mut O) -> Status

    // The words are no command, exactly. Then nothing was written.
    ensures usage { result ≡ Status.Usage ↔ (look_of (map (λ w. string_bytes w) words.now) ≡ None) }
    ensures unwritten { result ≡ Status.Usage → out.new ≡ out.old }

    // Else memory ran out, and nothing was written; or what is told of the image was written, and the status is its own; or the
    // output failed, and a prefix of that was written.
    ensures ends { IfSome (look_of (map (λ w. string_bytes w) words.now))
        (λ look. EndsAs look (D.words image.now) result (O.written out.old) (O.written out.new)) }

    // A fault of the output is answered only where it failed.
    ensures cause { HasCause result (O.faults out.old) (O.faults out.new) }
{
    match look_of(words) {
        Some(look) => tell_look(alloc, look, image, out),
        None => Status::Usage,
    }
}
