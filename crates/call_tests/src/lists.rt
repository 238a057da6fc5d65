// How many names of a directory fit a buffer of four offsets.
use ct_fs::{Fs, FsError, format};
use ct_pm::{Pm, RamPm};
use std::test::Fail;

// How many names the root has; `None` where they are more than fit.
fn count_of<D: Pm>(fs: &Fs<D>) -> Result<Option<usize>, FsError> {
    let mut offsets = [0; 4];
    match fs.entries(b"/", &mut offsets)? {
        Some(listing) => Ok(Some(listing.count)),
        None => Ok(None),
    }
}

// Makes files whose names are these bytes, and counts.
fn count_with<D: Pm>(fs: &mut Fs<D>, names: &[u8]) -> Result<Option<usize>, FsError> {
    for name in names {
        fs.create(&[b'/', *name])?;
    }
    count_of(fs)
}

#[test]
fn no_more_names_are_put_than_fit(rt: HostRuntime) -> Result<(), Fail> {
    let alloc = rt.alloc();
    let mut fs = match format(alloc, RamPm::new(alloc, 256)?, 16) {
        Ok(fs) => fs,
        Err(_) => return Err(Fail::from("format")),
    };
    let none = count_with(&mut fs, b"");
    let one = count_with(&mut fs, b"c");
    let four = count_with(&mut fs, b"dab");
    let five = count_with(&mut fs, b"e");
    drop(fs.unmount());
    assert!(rt;
        matches!(
            (none, one, four, five),
            (Ok(Some(0)), Ok(Some(1)), Ok(Some(4)), Ok(None))
        )
    );
    Ok(())
}
