// Lines and replies by themselves, and the texts of errors and statuses.
use ct_base::{MemSink, NoMemory, ReadFault, WriteFault};
use ct_check::CheckFault;
use ct_dump::DumpFault;
use ct_fs::{FsError, Why};
use ct_path::PathFault;
use ct_pm::PmFault;
use ct_run::Status;
use ct_script::{Scratch, Shown, parse, put_reply};
use ct_tree::{Call, Refusal};
use std::alloc::Global;
use std::fmt::Display;
use std::process::Abort;
use std::test::Fail;

// Lines that are no calls, one after the other.
const BAD_LINES: &str =
    "\n\r\ncreate\ncreate \n create /a\ncreate /a \ncreate\t/a\ncreate /a /b\nremove /a\nread /a 0\nread /a 0 1 2\nread /a 00 1\nread /a +1 1\nread /a 0x1 1\nwrite /a 0\nwrite /a 0 \nwrite /a 0 6\nwrite /a 0 6g\nwrite /a x 61\nappend /a\nappend /a 616\nfill /a 0 1 256\nfill /a 0 1\nfill /a 0 1 1 1\ntruncate /a 99999999999999999999\ntruncate /a\nrename /a\nrename /a /b /c\nexchange /a 0 /b 0\nexchange /a 0 /b 0 x\nexchange /a 0 /b 0 1 1";

#[test]
fn a_line_is_a_call_or_not(rt: HostRuntime) -> Result<(), Fail> {
    let mut scratch = Scratch::new(rt.alloc())?;
    match parse(b"read /a 0 10", &mut scratch) {
        Some(Call::Read { path, off, len }) => {
            assert_eq!(rt; path, b"/a".as_slice());
            assert_eq!(rt; (off, len), (0, 10));
        }
        _ => assert!(rt; false),
    }
    for line in BAD_LINES.split('\n') {
        assert!(rt; parse(line.as_bytes(), &mut scratch).is_none(), "{line}");
    }
    Ok(())
}

#[test]
fn replies_are_lines(rt: HostRuntime) -> Result<(), Fail> {
    let alloc = rt.alloc();
    for (reply, want) in [
        (Shown::Data(b"hi\xff"), "data 6869ff\n"),
        (Shown::File(549_755_813_888), "file 549755813888\n"),
        (
            Shown::At {
                base: 5_497_558_142_976,
                level: 0,
            },
            "at 5497558142976 0\n",
        ),
        (
            Shown::Refused(Refusal::NoPages { free: 1, need: 2 }),
            "error no pages\n",
        ),
        (Shown::Refused(Refusal::NoInode), "error no inode\n"),
    ] {
        let mut out = MemSink::new(alloc, 100, Vec::new(alloc))?;
        put_reply(&mut out, &reply)?;
        assert_eq!(rt; out.bytes(), want.as_bytes());
    }
    Ok(())
}

// Checks the text of each value.
fn check_texts<T: Display>(rt: &impl Abort, alloc: Global, rows: &[(T, &str)]) -> Result<(), Fail> {
    for (value, want) in rows {
        let text = format!(in alloc; "{value}")?;
        assert_eq!(rt; text.as_str(), *want);
    }
    Ok(())
}

// What a program says that ends so.
const STATUSES: [(Status, &str); 8] = [
    (Status::Done, "done"),
    (Status::Usage, "usage"),
    (Status::NotImage(20), "not an image (rule 20)"),
    (Status::DeviceFault, "device fault"),
    (Status::ReadFault, "read fault"),
    (Status::WriteFault, "write fault"),
    (Status::NoMemory, "no memory"),
    (Status::TooLong, "too long"),
];

#[test]
fn statuses_have_texts(rt: HostRuntime) -> Result<(), Fail> {
    check_texts(&rt, rt.alloc(), &STATUSES)
}

const MOUNTS: [(Why, &str); 3] = [
    (Why::Damage(8), "not an image (rule 8)"),
    (Why::Fault, "the device failed"),
    (Why::Memory, "no memory"),
];

const CHECKS: [(CheckFault, &str); 2] = [
    (CheckFault::Damage(0), "not an image (rule 0)"),
    (CheckFault::Memory, "no memory"),
];

const CALLS: [(FsError, &str); 3] = [
    (FsError::Dead, "the device failed in an earlier call"),
    (FsError::Refused(Refusal::NotFound), "refused"),
    (FsError::Fault, "the device failed"),
];

const PATHS: [(PathFault, &str); 3] = [
    (PathFault::BadPath, "no path"),
    (PathFault::NotFound, "not found"),
    (PathFault::NotDir, "not a directory"),
];

const DUMPS: [(DumpFault, &str); 2] = [
    (DumpFault::Write, "write fault"),
    (DumpFault::TooLong, "path too long"),
];

#[test]
fn errors_have_texts(rt: HostRuntime) -> Result<(), Fail> {
    let alloc = rt.alloc();
    check_texts(&rt, alloc, &MOUNTS)?;
    check_texts(&rt, alloc, &CHECKS)?;
    check_texts(&rt, alloc, &CALLS)?;
    check_texts(&rt, alloc, &PATHS)?;
    check_texts(&rt, alloc, &DUMPS)?;
    check_texts(&rt, alloc, &[(NoMemory, "no memory")])?;
    check_texts(&rt, alloc, &[(PmFault, "the device failed")])?;
    check_texts(&rt, alloc, &[(ReadFault, "read fault")])?;
    check_texts(&rt, alloc, &[(WriteFault, "write fault")])
}
