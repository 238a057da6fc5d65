// What reaches a file, what comes back from it, and which files cannot be attached.
use crate::files::make;
use ct_base::PAGE_WORDS;
use ct_pm::{Pm, PmFault};
use pm_file::{AttachFault, FilePm};
use std::fs;
use std::test::Fail;

// Words of a file of two pages and a rest of 100 bytes.
const NAME: &str = "file_tests_words.img";

const STORED: [(u64, u64); 4] = [
    (0, 7),
    (9, 8),
    (1016, u64::MAX),
    (1023, 0x0102_0304_0506_0708),
];

// Stores the words, and has two of the three lines reach the file: not that of word 9.
fn store<D: Pm>(dev: &mut D) -> Result<(), PmFault> {
    for (word, value) in STORED {
        if word / PAGE_WORDS < dev.pages() {
            dev.store(word, value)?;
        }
    }
    for line in [0, 127] {
        if line / 64 < dev.pages() {
            dev.flush(line)?;
        }
    }
    dev.fence()
}

// A word of a device, 0 past its end.
fn word<D: Pm>(dev: &D, at: u64) -> u64 {
    if at / PAGE_WORDS < dev.pages() {
        dev.load(at)
    } else {
        0
    }
}

#[test]
fn flushed_words_come_back(rt: HostRuntime) -> Result<(), Fail> {
    make(&rt, NAME, 8292)?;
    store(&mut FilePm::attach(&rt, rt.alloc(), NAME)?)?;
    let dev = FilePm::attach(&rt, rt.alloc(), NAME)?;
    let found = STORED.map(|(at, _)| word(&dev, at));
    assert_eq!(rt; found, [7, 0, u64::MAX, 0x0102_0304_0506_0708]);
    let bytes = fs::read(&rt, NAME)?;
    assert_eq!(rt;
        (dev.pages(), bytes.len(), bytes.get(8184)),
        (2, 8292, Some(&8))
    );
    fs::remove_file(&rt, NAME)?;
    Ok(())
}

// One that is not there, a directory, and the program itself, which no one may write while it runs.
#[test]
fn some_files_cannot_be_attached(rt: HostRuntime) -> Result<(), Fail> {
    for name in ["not there", ".", "/proc/self/exe"] {
        let attached = FilePm::attach(&rt, rt.alloc(), name);
        assert!(rt; matches!(attached, Err(AttachFault::File)), "{name}");
    }
    assert!(rt; !fs::exists(&rt, "not there")?);
    Ok(())
}

#[test]
fn faults_of_attaching_have_texts(rt: HostRuntime) -> Result<(), Fail> {
    let texts = [AttachFault::File, AttachFault::NoMemory];
    let found = format!(in rt.alloc(); "{}; {}", texts[0], texts[1])?;
    assert_eq!(rt;
        found.as_str(),
        "the file cannot be opened, measured or read; no memory"
    );
    Ok(())
}
