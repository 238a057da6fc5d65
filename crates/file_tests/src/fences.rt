// What a fence asks of a file, and in which order.
use crate::fixture::{
    asked, device, fails_at, flush, is_written, put, store, synced_device, write,
};
use crate::recording::{Manner, Request};
use ct_pm::{Pm, PmFault};
use std::test::Fail;

// Three runs of lines, given in another order than theirs, and a line that was stored to and not flushed.
#[test]
fn a_fence_writes_each_run_of_marked_lines_and_then_syncs(rt: HostRuntime) -> Result<(), Fail> {
    let alloc = rt.alloc();
    let (mut dev, file) = synced_device(alloc, fails_at(alloc, &[])?)?;
    put(&mut dev, 130..131, 1)?;
    put(&mut dev, 1..3, 2)?;
    store(&mut dev, 4, 3)?;
    put(&mut dev, 62..66, 4)?;
    put(&mut dev, 0..1, 5)?;
    dev.fence()?;
    let found = asked(alloc, &file)?;
    assert_eq!(rt;
        found.as_slice(),
        [write(0, 3), write(62, 4), write(130, 1), Request::Sync].as_slice()
    );
    flush(&mut dev, 4)?;
    dev.fence()?;
    dev.fence()?;
    let found = asked(alloc, &file)?;
    assert_eq!(rt; found.as_slice(), [write(4, 1), Request::Sync].as_slice());
    assert!(rt; is_written(&file, &dev));
    Ok(())
}

// What was read may be what another process wrote and did not sync.
#[test]
fn the_first_fence_syncs_before_it_writes(rt: HostRuntime) -> Result<(), Fail> {
    let alloc = rt.alloc();
    let (mut dev, file) = device(alloc, fails_at(alloc, &[])?)?;
    put(&mut dev, 7..8, 1)?;
    dev.fence()?;
    let found = asked(alloc, &file)?;
    assert_eq!(rt;
        found.as_slice(),
        [Request::Sync, write(7, 1), Request::Sync].as_slice()
    );
    Ok(())
}

// The first fence syncs once where nothing is marked; after it such a fence asks nothing.
#[test]
fn a_fence_with_nothing_marked_writes_nothing(rt: HostRuntime) -> Result<(), Fail> {
    let alloc = rt.alloc();
    let (mut dev, file) = device(alloc, fails_at(alloc, &[])?)?;
    store(&mut dev, 0, 0)?;
    flush(&mut dev, 0)?;
    dev.fence()?;
    dev.fence()?;
    store(&mut dev, 0, 1)?;
    dev.fence()?;
    let found = asked(alloc, &file)?;
    assert_eq!(rt; found.as_slice(), [Request::Sync].as_slice());
    Ok(())
}

#[test]
fn short_writes_go_on(rt: HostRuntime) -> Result<(), Fail> {
    let alloc = rt.alloc();
    let manner = Manner {
        most: 100,
        fail_at: Vec::new(alloc),
    };
    let (mut dev, file) = synced_device(alloc, manner)?;
    put(&mut dev, 1..4, u64::MAX)?;
    dev.fence()?;
    let found = asked(alloc, &file)?;
    let wants = [
        Request::Write {
            off: 64,
            taken: 100,
        },
        Request::Write {
            off: 164,
            taken: 92,
        },
        Request::Sync,
    ];
    assert_eq!(rt; found.as_slice(), wants.as_slice());
    assert!(rt; is_written(&file, &dev));
    Ok(())
}

// Whichever of its three requests fails. The next fence writes all that was marked, and what was marked since.
#[test]
fn a_failed_fence_is_made_good_by_the_next(rt: HostRuntime) -> Result<(), Fail> {
    let alloc = rt.alloc();
    for number in 0..3 {
        let (mut dev, file) = synced_device(alloc, fails_at(alloc, &[number])?)?;
        put(&mut dev, 1..3, 1)?;
        put(&mut dev, 5..6, 1)?;
        assert_eq!(rt; dev.fence(), Err(PmFault), "request {number}");
        let found = asked(alloc, &file)?;
        let wants = [write(1, 2), write(5, 1), Request::Sync];
        assert_eq!(rt; found.as_slice(), &wants[..number + 1]);
        put(&mut dev, 9..10, 1)?;
        dev.fence()?;
        let found = asked(alloc, &file)?;
        let wants = [
            Request::Sync,
            write(1, 2),
            write(5, 1),
            write(9, 1),
            Request::Sync,
        ];
        assert_eq!(rt; found.as_slice(), wants.as_slice());
        assert!(rt; is_written(&file, &dev));
    }
    Ok(())
}

// The first sync of the first fence fails: nothing is written.
#[test]
fn nothing_is_written_over_what_could_not_be_synced(rt: HostRuntime) -> Result<(), Fail> {
    let alloc = rt.alloc();
    let (mut dev, file) = device(alloc, fails_at(alloc, &[0, 1])?)?;
    put(&mut dev, 7..8, 1)?;
    assert_eq!(rt;
        (dev.fence(), dev.fence(), dev.fence()),
        (Err(PmFault), Err(PmFault), Ok(()))
    );
    let found = asked(alloc, &file)?;
    let wants = [
        Request::Sync,
        Request::Sync,
        Request::Sync,
        write(7, 1),
        Request::Sync,
    ];
    assert_eq!(rt; found.as_slice(), wants.as_slice());
    Ok(())
}

// A run that is longer than the 1,024 lines that are gathered at once.
#[test]
fn lines_of_a_long_run_land_where_they_belong(rt: HostRuntime) -> Result<(), Fail> {
    let alloc = rt.alloc();
    let (mut dev, file) = synced_device(alloc, fails_at(alloc, &[])?)?;
    for line in 10..2500 {
        put(&mut dev, line..line + 1, line)?;
    }
    dev.fence()?;
    let found = asked(alloc, &file)?;
    let wants = [
        write(10, 1024),
        write(1034, 1024),
        write(2058, 442),
        Request::Sync,
    ];
    assert_eq!(rt; found.as_slice(), wants.as_slice());
    assert!(rt; is_written(&file, &dev));
    Ok(())
}
