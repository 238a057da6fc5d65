// The lines of a file.
ghost use Rattle.std.specs.Prelude.{◌≡◌, ◌++◌, length};
ghost use Rattle.ct_base.specs.Bytes.{PutAppends};
ghost use Rattle.ct_base.specs.Causes.{HasCause};
ghost use Rattle.ct_tree.specs.Checks.{at};
ghost use Rattle.ct_tree.specs.Content.{bytes_in, range};
ghost use Rattle.ct_dump.specs.Dumped.{file_text, size_text, page_text, pages_text, page_count, are_zeros};
ghost use Rattle.ct_dump.specs.Looks.{LeadsTo, IsFile};

use crate::lines::{put_create, put_page, put_size};
use crate::seen::Seen;
use ct_base::{PAGE_BYTES, Sink, WriteFault};
use ct_script::Quote;

/// Writes the lines of a file of this size.
pub fn put_file<T: Seen, O: Sink>(
    tree: &T,
    quote: &mut Quote,
    out: &mut O,
    path: &[u8],
    size: u64,
) -> Result<(), WriteFault>
    requires file { LeadsTo (T.tree tree.now) path.now IsFile }
    requires size { size ≡ length (bytes_in (at (T.tree tree.now) path.now)) }
    ensures bytes { PutAppends (O.written out.old) (O.written out.new) result (file_text path.now (bytes_in (at (T.tree tree.now) path.now))) }
    ensures cause { HasCause (O.faults out.old) (O.faults out.new) result }
{
    match put_create(out, quote, path) {
        Ok(()) => put_content(tree, quote, out, path, size),
        Err(fault) => Err(fault),
    }
}

// Writes the lines of a file after the one that makes it.
fn put_content<T: Seen, O: Sink>(
    tree: &T,
    quote: &mut Quote,
    out: &mut O,
    path: &[u8],
    size: u64,
) -> Result<(), WriteFault>
    requires file { LeadsTo (T.tree tree.now) path.now IsFile }
    requires size { size ≡ length (bytes_in (at (T.tree tree.now) path.now)) }
    ensures bytes { PutAppends (O.written out.old) (O.written out.new) result (size_text path.now size ++ pages_text path.now (bytes_in (at (T.tree tree.now) path.now)) (page_count size) 0) }
    ensures cause { HasCause (O.faults out.old) (O.faults out.new) result }
{
    match put_size_of(quote, out, path, size) {
        Ok(()) => put_pages(tree, quote, out, path, size),
        Err(fault) => Err(fault),
    }
}

// Writes the line that lengthens a file, unless it is empty.
fn put_size_of<O: Sink>(
    quote: &mut Quote,
    out: &mut O,
    path: &[u8],
    size: u64,
) -> Result<(), WriteFault>
    ensures bytes { PutAppends (O.written out.old) (O.written out.new) result (size_text path.now size) }
    ensures cause { HasCause (O.faults out.old) (O.faults out.new) result }
{
    if size == 0 {
        Ok(())
    } else {
        put_size(out, quote, path, size)
    }
}

// Writes the lines of a file's pages. Where the tree knows of holes no page in them is read.
fn put_pages<T: Seen, O: Sink>(
    tree: &T,
    quote: &mut Quote,
    out: &mut O,
    path: &[u8],
    size: u64,
) -> Result<(), WriteFault>
    requires file { LeadsTo (T.tree tree.now) path.now IsFile }
    requires size { size ≡ length (bytes_in (at (T.tree tree.now) path.now)) }
    ensures bytes { PutAppends (O.written out.old) (O.written out.new) result (pages_text path.now (bytes_in (at (T.tree tree.now) path.now)) (page_count size) 0) }
    ensures cause { HasCause (O.faults out.old) (O.faults out.new) result }
{
    let mut off = tree.next_page(path, 0);
    'pages: while off < size {
        match put_page_at(tree, quote, out, path, off) {
            Ok(()) => {}
            Err(fault) => return Err(fault),
        }
        off = tree.next_page(path, off + PAGE_BYTES);
    }
    Ok(())
}

// Reads a page, and writes its line unless all of its bytes are 0.
fn put_page_at<T: Seen, O: Sink>(
    tree: &T,
    quote: &mut Quote,
    out: &mut O,
    path: &[u8],
    off: u64,
) -> Result<(), WriteFault>
    requires { LeadsTo (T.tree tree.now) path.now IsFile }
    ensures bytes { PutAppends (O.written out.old) (O.written out.new) result (page_text path.now off (range (bytes_in (at (T.tree tree.now) path.now)) off PAGE_BYTES)) }
    ensures cause { HasCause (O.faults out.old) (O.faults out.new) result }
{
    let mut buffer = [0u8; 4096];
    let count = tree.bytes(path, off, &mut buffer);
    let page = &buffer[..count];
    if are_zeros(page) {
        Ok(())
    } else {
        put_page(out, quote, path, off, page)
    }
}

fn are_zeros(bytes: &[u8]) -> bool
    ensures { result ≡ are_zeros bytes.now }
{
    bytes.iter().all(|byte| *byte == 0)
}
