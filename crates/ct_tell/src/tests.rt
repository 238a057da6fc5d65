use crate::{Status, tell};
use ct_base::MemSink;
use ct_pm::RamPm;
use std::process::Abort;
use std::test::Fail;

// What a look at 256 pages of zeros comes to.
fn said(rt: &HostRuntime, words: &[&str]) -> Result<(Status, Vec<u8>), Fail> {
    let alloc = rt.alloc();
    let image = RamPm::new(alloc, 256)?;
    let mut owned = Vec::new(alloc);
    for word in words {
        owned.push(String::from_str(alloc, word)?)?;
    }
    let mut out = MemSink::new(alloc, 4096, Vec::new(alloc))?;
    let status = tell(alloc, &owned, &image, &mut out);
    Ok((status, out.bytes().to_vec(alloc)?))
}

#[test]
fn words_that_are_no_look_write_nothing(rt: HostRuntime) -> Result<(), Fail> {
    let (status, text) = said(&rt, &["info"])?;
    assert_eq!(rt; status, Status::Usage);
    assert!(rt; text.as_slice().is_empty());
    Ok(())
}

#[test]
fn zero_pages_fail_the_rule_on_the_first_word(rt: HostRuntime) -> Result<(), Fail> {
    let (status, text) = said(&rt, &["check", "x"])?;
    assert_eq!(rt; status, Status::NotImage(1));
    assert_eq!(rt;
        text.as_slice(),
        b"rule 1: the first word is not that of a file system\n".as_slice()
    );
    let (status, text) = said(&rt, &["info", "x"])?;
    assert_eq!(rt; status, Status::NotImage(1));
    assert_eq!(rt;
        text.as_slice(),
        b"version 0, pages 0, inodes 0\nfirst word 0, gates 0 and 0\nrule 1: the first word is not that of a file system\n".as_slice()
    );
    let (status, text) = said(&rt, &["ls", "x", "/"])?;
    assert_eq!(rt; status, Status::NotImage(1));
    assert!(rt; text.as_slice().is_empty());
    Ok(())
}
