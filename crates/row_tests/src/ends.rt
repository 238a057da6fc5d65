// Where a run's bytes come from and go to outside tests.
use ct_base::{Sink, Source, StdSink, StdSource};
use std::test::Fail;

#[test]
fn ends_of_the_system_pass_bytes_on(rt: HostRuntime) -> Result<(), Fail> {
    let mut source = StdSource::new(b"xyz".as_slice());
    let mut written = Vec::new(rt.alloc());
    let mut sink = StdSink::new(&mut written);
    let mut buf = [0u8; 2];
    for want in [2, 1, 0] {
        let read = source.next(&mut buf);
        let put = sink.put(&buf[..want.min(2)]);
        assert_eq!(rt; (read, put), (Ok(want), Ok(())));
    }
    assert_eq!(rt; written.as_slice(), b"xyz".as_slice());
    Ok(())
}
