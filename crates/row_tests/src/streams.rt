// Scripts that are served as they come: in small pieces and large ones, up to their limits, and where an end fails in their midst.
ghost use Rattle.std.specs.Prelude.{◌≤◌, None};

use crate::runs::{bytes_of, check};
use ct_base::{MemSink, MemSource, NoMemory, ReadFault, Source};
use ct_pm::RamPm;
use ct_run::{Status, run};
use script_runs::{Left, ran, ran_between};
use std::alloc::Global;
use std::process::Abort;
use std::test::Fail;

/// The longest script, in bytes.
const MOST: usize = 16_777_216;

// A run over plain memory, of a script that comes in pieces and whose reads and writes fail at these calls.
fn served(
    alloc: Global,
    script: Vec<u8>,
    piece: usize,
    reads: Vec<u64>,
    writes: Vec<u64>,
) -> Result<Left<RamPm>, NoMemory>
    requires { 1 ≤ piece }
{
    let dev = RamPm::new(alloc, 4096)?;
    let input = MemSource::new(script, piece, reads);
    let out = MemSink::new(alloc, 1 << 20, writes)?;
    ran_between(alloc, "mem", dev, input, out)
}

// Checks how a run ends whose ends do not fail.
fn check_script(
    rt: &impl Abort,
    alloc: Global,
    script: Vec<u8>,
    piece: usize,
    status: Status,
    replies: &str,
) -> Result<(), Fail>
    requires { 1 ≤ piece }
{
    let left = served(alloc, script, piece, Vec::new(alloc), Vec::new(alloc))?;
    check(rt, &left, status, replies);
    Ok(())
}

// Appends what a line begins with, a byte so many times, and how it ends.
fn put_line(
    script: &mut Vec<u8>,
    start: &[u8],
    byte: u8,
    count: usize,
    end: &[u8],
) -> Result<(), Fail> {
    script.extend_from_slice(start)?;
    for _ in 0..count {
        script.push(byte)?;
    }
    script.extend_from_slice(end)?;
    Ok(())
}

// A script of so many bytes of one value, which has no reply.
fn check_alike(
    rt: &impl Abort,
    alloc: Global,
    byte: u8,
    count: usize,
    piece: usize,
    status: Status,
) -> Result<(), Fail>
    requires { 1 ≤ piece }
{
    check_script(rt, alloc, bytes_of(alloc, byte, count)?, piece, status, "")
}

// Scripts of line ends alone, and a line that goes on for ever.
fn check_script_limit(rt: &impl Abort, alloc: Global, piece: usize) -> Result<(), Fail>
    requires { 1 ≤ piece }
{
    check_alike(rt, alloc, b'\n', 0, piece, Status::Done)?;
    check_alike(rt, alloc, b'\n', MOST, piece, Status::Done)?;
    check_alike(rt, alloc, b'\n', MOST + 1, piece, Status::TooLong)?;
    check_alike(rt, alloc, b'x', MOST + 1, piece, Status::TooLong)
}

// A line has at most 65,536 bytes, a byte 13 at its end among them. Those that have more are passed over, and the lines after
// them are found.
fn check_lines(rt: &impl Abort, alloc: Global, piece: usize) -> Result<(), Fail>
    requires { 1 ≤ piece }
{
    let mut script = b"create /a\n".to_vec(alloc)?;
    put_line(&mut script, b"create /", b'a', 65_529, b"\n")?;
    put_line(&mut script, b"write /a 0 ", b'1', 65_524, b"\r\n")?;
    put_line(&mut script, b"write /a 10 ", b'1', 65_524, b"\r\n")?;
    put_line(&mut script, b"stat /a\n", b'x', 200_000, b"\nstat /a\n")?;
    put_line(&mut script, b"", b'x', 200_000, b"\n")?;
    put_line(&mut script, b"", b'y', 70_000, b"\nstat /a\n")?;
    let replies =
        "ok\nerror line\nok\nerror line\nfile 32762\nerror line\nfile 32762\nerror line\nerror line\nfile 32762\n";
    check_script(rt, alloc, script, piece, Status::Done, replies)
}

// The last line counts without a byte 10 too, where it has one byte at least.
fn check_last_lines(rt: &impl Abort, alloc: Global, piece: usize) -> Result<(), Fail>
    requires { 1 ≤ piece }
{
    for (start, count, replies) in [
        ("create /a\nwrite /a 0 ", 65_524, "ok\nok\n"),
        ("create /a\nwrite /a 10 ", 65_524, "ok\nerror line\n"),
        ("create /a\n", 200_000, "ok\nerror line\n"),
    ] {
        let mut script = Vec::new(alloc);
        put_line(&mut script, start.as_bytes(), b'1', count, b"\r")?;
        check_script(rt, alloc, script, piece, Status::Done, replies)?;
    }
    Ok(())
}

#[test]
fn lines_have_limits_byte_by_byte(rt: HostRuntime) -> Result<(), Fail> {
    check_lines(&rt, rt.alloc(), 1)?;
    check_last_lines(&rt, rt.alloc(), 1)
}

#[test]
fn lines_have_limits_in_pieces_of_7_bytes(rt: HostRuntime) -> Result<(), Fail> {
    check_lines(&rt, rt.alloc(), 7)?;
    check_last_lines(&rt, rt.alloc(), 7)
}

#[test]
fn lines_have_limits_in_pieces_of_a_line(rt: HostRuntime) -> Result<(), Fail> {
    check_lines(&rt, rt.alloc(), 65_536)?;
    check_last_lines(&rt, rt.alloc(), 65_536)
}

#[test]
fn a_script_may_have_so_many_bytes_one_by_one(rt: HostRuntime) -> Result<(), Fail> {
    check_alike(&rt, rt.alloc(), b'\n', 0, 1, Status::Done)?;
    check_alike(&rt, rt.alloc(), b'\n', MOST, 1, Status::Done)
}

#[test]
fn a_script_has_a_limit_byte_by_byte(rt: HostRuntime) -> Result<(), Fail> {
    check_alike(&rt, rt.alloc(), b'\n', MOST + 1, 1, Status::TooLong)
}

#[test]
fn a_line_without_an_end_is_too_long_byte_by_byte(rt: HostRuntime) -> Result<(), Fail> {
    check_alike(&rt, rt.alloc(), b'x', MOST + 1, 1, Status::TooLong)
}

#[test]
fn scripts_have_a_limit_in_pieces_of_7_bytes(rt: HostRuntime) -> Result<(), Fail> {
    check_script_limit(&rt, rt.alloc(), 7)
}

#[test]
fn scripts_have_a_limit_in_pieces_of_a_line(rt: HostRuntime) -> Result<(), Fail> {
    check_script_limit(&rt, rt.alloc(), 65_536)
}

// The piece that ends the first line is the last that comes.
#[test]
fn a_line_is_answered_before_the_input_fails(rt: HostRuntime) -> Result<(), Fail> {
    let alloc = rt.alloc();
    let script = b"create /a\ncreate /b\n".to_vec(alloc)?;
    let reads = vec![in alloc; 1; 1]?;
    let left = served(alloc, script, 10, reads, Vec::new(alloc))?;
    check(&rt, &left, Status::ReadFault, "ok\n");
    let again = ran(alloc, "run x", left.dev, b"stat /a\nstat /b\n")?;
    check(&rt, &again, Status::Done, "file 0\nerror not found\n");
    Ok(())
}

// The output fails at the second reply, long before it is known that the input is too long.
#[test]
fn an_output_may_fail_before_an_input_is_too_long(rt: HostRuntime) -> Result<(), Fail> {
    let alloc = rt.alloc();
    let mut script = b"create /a\nstat /a\n".to_vec(alloc)?;
    put_line(&mut script, b"", b'\n', MOST, b"")?;
    let writes = vec![in alloc; 1; 1]?;
    let left = served(alloc, script, 65_536, Vec::new(alloc), writes)?;
    check(&rt, &left, Status::WriteFault, "ok\n");
    Ok(())
}

// A source that never ends: it gives the same byte for ever.
#[derive(Drop)]
struct Endless {
    byte: u8,
    given: usize,
}

impl Source for Endless {
    ghost use Rattle.std.specs.Prelude.{None};

    ghost rest = { λ s. None };

    ghost faults = { λ s. 0 };

    fn next(&mut self, buf: &mut [u8]) -> Result<usize, ReadFault> {
        buf.fill(self.byte);
        self.given = self.given.saturating_add(buf.len());
        Ok(buf.len())
    }
}

#[test]
fn an_input_without_an_end_is_too_long(rt: HostRuntime) -> Result<(), Fail> {
    let alloc = rt.alloc();
    for byte in [b'\n', b'x'] {
        let mut words = Vec::new(alloc);
        words.push(String::from_str(alloc, "mem")?)?;
        let mut input = Endless { byte, given: 0 };
        let mut out = MemSink::new(alloc, 100, Vec::new(alloc))?;
        let left = run(
            alloc,
            &words,
            RamPm::new(alloc, 4096)?,
            &mut input,
            &mut out,
        );
        assert_eq!(rt; (left.status, input.given), (Status::TooLong, MOST + 1));
        assert_eq!(rt; out.bytes(), b"".as_slice());
    }
    Ok(())
}
