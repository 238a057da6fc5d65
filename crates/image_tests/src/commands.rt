// Words that are no command, which leave their device alone.
use ct_pm::Pm;
use ct_run::Status;
use pm_trace::TracePm;
use script_runs::ran;
use std::alloc::Global;
use std::test::Fail;

// Words, after the name of the program.
const LINES: [&str; 17] = [
    "",
    "mem x",
    "run",
    "run x 16",
    "format",
    "format x",
    "format x 1",
    "format x 016",
    "format x 1048577",
    "dump",
    "dump x y",
    "gen",
    "gen 1",
    "gen 07 1",
    "gen 1 1000001",
    "gen 18446744073709551616 1",
    "gen x 1",
];

// The status of a run over a device of zeros, and how many steps it made.
fn told(alloc: Global, line: &str) -> Result<(Status, u8, u64), Fail> {
    let words = vec![in alloc; 0; 512 * 256]?;
    let dev = TracePm::new(alloc, words, 10, Vec::new(alloc))?;
    let done = ran(alloc, line, dev, b"create /a\n")?;
    Ok((done.status, done.status.code(), done.dev.clock()))
}

#[test]
fn other_words_are_no_command(rt: HostRuntime) -> Result<(), Fail> {
    for line in LINES {
        assert_eq!(rt; told(rt.alloc(), line)?, (Status::Usage, 2, 0), "{line}");
    }
    Ok(())
}
