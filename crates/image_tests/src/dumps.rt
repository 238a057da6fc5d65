// Dumps of images: their text, and that it makes an equal image.
use ct_pm::RamPm;
use ct_run::Status;
use script_runs::{formatted, ran};
use std::alloc::Global;
use std::process::Abort;
use std::test::Fail;

/// Runs a script over an image, and answers the image after it.
pub fn played(rt: &impl Abort, alloc: Global, dev: RamPm, script: &[u8]) -> Result<RamPm, Fail> {
    let done = ran(alloc, "run x", dev, script)?;
    assert_eq!(rt; done.status, Status::Done);
    Ok(done.dev)
}

// The text of a dump, and the image after it. The input is not read.
fn dumped(rt: &impl Abort, alloc: Global, dev: RamPm) -> Result<(Vec<u8>, RamPm), Fail> {
    let done = ran(alloc, "dump x", dev, b"create /never\n")?;
    assert_eq!(rt; done.status, Status::Done);
    Ok((done.out.bytes().to_vec(alloc)?, done.dev))
}

/// The text of a dump, run on another fresh image and dumped again there, which gives the same bytes.
pub fn dumped_twice(
    rt: &impl Abort,
    alloc: Global,
    dev: RamPm,
    fresh: RamPm,
) -> Result<Vec<u8>, Fail> {
    let (text, _dev) = dumped(rt, alloc, dev)?;
    let made = played(rt, alloc, fresh, &text)?;
    let (again, _dev) = dumped(rt, alloc, made)?;
    assert_eq!(rt; again.as_slice(), text.as_slice());
    Ok(text)
}

// Scripts, and the dumps of what they leave.
const ROWS: [(&str, &str); 6] = [
    ("", ""),
    (
        "mkdir /d\ncreate /d/x\nwrite /d/x 4096 41\n",
        "mkdir /d\ncreate /d/x\ntruncate /d/x 4097\nwrite /d/x 4096 41\n",
    ),
    (
        "create /~%25%20%01%7F%80%ff\ncreate %2Fold%20notes\ncreate /%zz%2\nmkdir /%0a\ncreate /%0a/%c3%a9\n",
        "mkdir /%0A\ncreate /%0A/%C3%A9\ncreate /%25zz%252\ncreate /old%20notes\ncreate /~%25%20%01%7F%80%FF\n",
    ),
    (
        "create /b\nmkdir /a\nmkdir /a/b\ncreate /a/a\ncreate /a/b/c\nmkdir /a0\n",
        "mkdir /a\ncreate /a/a\nmkdir /a/b\ncreate /a/b/c\nmkdir /a0\ncreate /b\n",
    ),
    (
        "create /a\nwrite /a 0 000a0B\nappend /a ff\ncreate /z\nfill /z 0 8192 0\nappend /z 01\n",
        "create /a\ntruncate /a 4\nwrite /a 0 000a0bff\ncreate /z\ntruncate /z 8193\nwrite /z 8192 01\n",
    ),
    ("create /a\nunlink /a\nmkdir /d\nrmdir /d\n", ""),
];

// The dump of what a script leaves.
fn dump_of(rt: &impl Abort, alloc: Global, script: &[u8]) -> Result<Vec<u8>, Fail> {
    let dev = played(rt, alloc, formatted(alloc, 256)?, script)?;
    dumped_twice(rt, alloc, dev, formatted(alloc, 256)?)
}

#[test]
fn a_dump_makes_an_equal_image(rt: HostRuntime) -> Result<(), Fail> {
    for (script, want) in ROWS {
        let text = dump_of(&rt, rt.alloc(), script.as_bytes())?;
        assert_eq!(rt; text.as_slice(), want.as_bytes());
    }
    Ok(())
}

// The last byte of the longest file stands at the end of the line of its page: nothing is said of the pages before.
#[test]
fn a_long_file_is_dumped_by_its_pages(rt: HostRuntime) -> Result<(), Fail> {
    let script = b"create /a\nwrite /a 549755813887 41\n";
    let text = dump_of(&rt, rt.alloc(), script)?;
    let head = b"create /a\ntruncate /a 549755813888\nwrite /a 549755809792 00";
    let ends = text.as_slice().starts_with(head) && text.as_slice().ends_with(b"0041\n");
    assert_eq!(rt; (ends, text.len()), (true, head.len() + 8190 + 1));
    Ok(())
}
