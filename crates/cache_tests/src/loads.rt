// How many words a look loads, before and after what it asks for was learnt.
use ct_fs::{Fs, FsError, format, mount};
use ct_pm::{Pm, RamPm};
use pm_count::CountingPm;
use std::alloc::Global;
use std::test::Fail;

const FILE: &[u8] = b"/a";

// The bytes of sixteen pages.
const LENGTH: u64 = 65_536;

// A file system over plain memory that counts, of 4,096 pages.
fn made(alloc: Global) -> Result<Fs<CountingPm<RamPm>>, Fail> {
    let dev = CountingPm::new(RamPm::new(alloc, 4096)?);
    match format(alloc, dev, 256) {
        Ok(fs) => Ok(fs),
        Err(_) => Err(Fail::from("format")),
    }
}

// The same device, mounted anew.
fn remounted(alloc: Global, fs: Fs<CountingPm<RamPm>>) -> Result<Fs<CountingPm<RamPm>>, Fail> {
    match fs.into_parts() {
        Ok((dev, _)) => match mount(alloc, dev) {
            Ok(fs) => Ok(fs),
            Err(_) => Err(Fail::from("mount")),
        },
        Err(_) => Err(Fail::from("a device that failed")),
    }
}

// What a call has answered, or that it failed.
fn done<T>(answer: Result<T, FsError>) -> Result<T, Fail> {
    match answer {
        Ok(value) => Ok(value),
        Err(_) => Err(Fail::from("a call")),
    }
}

// The loads so far.
fn loads<D: Pm>(fs: &Fs<CountingPm<D>>) -> u64 {
    match fs.device() {
        Some(dev) => dev.loads(),
        None => 0,
    }
}

// The loads of a read of the whole file.
fn read_loads<D: Pm>(fs: &Fs<CountingPm<D>>, buf: &mut Vec<u8>) -> Result<u64, FsError> {
    let before = loads(fs);
    let len = buf.len().min(LENGTH as usize) as u64;
    fs.read(FILE, 0, len, buf)?;
    Ok(loads(fs).saturating_sub(before))
}

// Makes a file of these bytes.
fn write_file<D: Pm>(fs: &mut Fs<D>, bytes: &[u8]) -> Result<(), FsError> {
    fs.create(FILE)?;
    fs.write(FILE, 0, bytes)
}

// The loads of two reads of the file, the second after the same bytes were written again.
fn both_reads<D: Pm>(
    fs: &mut Fs<CountingPm<D>>,
    bytes: &[u8],
    buf: &mut Vec<u8>,
) -> Result<(u64, u64), FsError> {
    let first = read_loads(fs, buf)?;
    fs.write(FILE, 0, bytes)?;
    let second = read_loads(fs, buf)?;
    Ok((first, second))
}

#[test]
fn pages_that_were_written_are_read_by_fewer_loads(rt: HostRuntime) -> Result<(), Fail> {
    let alloc = rt.alloc();
    let mut buf = vec![in alloc; 7u8; LENGTH as usize]?;
    let bytes = vec![in alloc; 9u8; LENGTH as usize]?;
    let mut fs = made(alloc)?;
    let written = write_file(&mut fs, bytes.as_slice());
    let mut fs = remounted(alloc, fs)?;
    let loads = both_reads(&mut fs, bytes.as_slice(), &mut buf);
    drop(fs.unmount());
    done(written)?;
    let (first, second) = done(loads)?;
    // A walk of four entries less for each page, and no search for the name.
    assert!(rt; second.saturating_add(4 * 15) < first);
    assert!(rt; buf.as_slice() == bytes.as_slice());
    Ok(())
}

// The last of a hundred files of a directory.
const LAST: &[u8] = b"/d/99";

// Makes a directory of a hundred files.
fn make_hundred<D: Pm>(fs: &mut Fs<D>) -> Result<(), FsError> {
    fs.mkdir(b"/d")?;
    for tens in b"0123456789" {
        for ones in b"0123456789" {
            fs.create(&[b'/', b'd', b'/', *tens, *ones])?;
        }
    }
    Ok(())
}

// The loads of a look at the last file.
fn look_loads<D: Pm>(fs: &Fs<CountingPm<D>>) -> Result<u64, FsError> {
    let before = loads(fs);
    fs.stat(LAST)?;
    Ok(loads(fs).saturating_sub(before))
}

// The loads of a write of one byte of it.
fn write_loads<D: Pm>(fs: &mut Fs<CountingPm<D>>) -> Result<u64, FsError> {
    let before = loads(fs);
    fs.write(LAST, 0, b"x")?;
    Ok(loads(fs).saturating_sub(before))
}

// The loads of a look, a write, the same write again and the same look again.
fn looks_and_writes<D: Pm>(fs: &mut Fs<CountingPm<D>>) -> Result<(u64, u64, u64, u64), FsError> {
    let look = look_loads(fs)?;
    let write = write_loads(fs)?;
    let write_again = write_loads(fs)?;
    let look_again = look_loads(fs)?;
    Ok((look, write, write_again, look_again))
}

#[test]
fn a_name_that_was_learnt_is_not_searched_for(rt: HostRuntime) -> Result<(), Fail> {
    let alloc = rt.alloc();
    let mut fs = made(alloc)?;
    let written = make_hundred(&mut fs);
    let mut fs = remounted(alloc, fs)?;
    let loads = looks_and_writes(&mut fs);
    drop(fs.unmount());
    done(written)?;
    let (look, write, write_again, look_again) = done(loads)?;
    // Each search passes a hundred slots.
    assert!(rt; look_again.saturating_add(100) < look);
    assert!(rt; write_again.saturating_add(100) < write);
    Ok(())
}
