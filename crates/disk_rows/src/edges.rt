use leaf_edges::{
    Clock, EdgeError, MemSink, MemSource, Sink, Source, StdErr, StdIn, StdOut, SysClock, pump_all,
};
use std::test::Fail;

#[test]
fn a_source_gives_its_bytes(rt: HostRuntime) -> Result<(), Fail> {
    let failing = vec![in rt.alloc(); 2]?;
    let mut source = MemSource::new(b"hello".to_vec(rt.alloc())?, failing);
    let mut buf = [0u8; 3];
    assert!(rt; source.read(&mut buf) == Ok(3) && buf == *b"hel");
    assert!(rt; source.read(&mut buf) == Err(EdgeError::Failed));
    assert!(rt; source.read(&mut buf) == Ok(2) && &buf[..2] == b"lo".as_slice());
    assert!(rt; source.read(&mut buf) == Ok(0));
    Ok(())
}

#[test]
fn a_sink_keeps_its_bytes(rt: HostRuntime) -> Result<(), Fail> {
    let failing = vec![in rt.alloc(); 2]?;
    let mut sink = MemSink::new(b"<".to_vec(rt.alloc())?, failing);
    assert!(rt; pump_all(&mut sink, b"ab") == Ok(()));
    assert!(rt; pump_all(&mut sink, b"ab") == Err(EdgeError::Failed));
    assert!(rt; pump_all(&mut sink, b"ab") == Ok(()));
    assert!(rt; sink.write(b"c") == Ok(1));
    assert!(rt; sink.bytes() == b"<ababc".as_slice());
    Ok(())
}

#[test]
fn the_standard_streams_answer(rt: HostRuntime) -> Result<(), Fail> {
    assert_eq!(rt; StdIn::new(rt.stdin()).read(&mut []), Ok(0));
    assert_eq!(rt; StdOut::new(rt.stdout()).write(b""), Ok(0));
    assert_eq!(rt; StdErr::new(rt.stderr()).write(b""), Ok(0));
    Ok(())
}

#[test]
fn the_system_clock_answers(rt: HostRuntime) -> Result<(), Fail> {
    let mut clock = SysClock::new(rt);
    // 2020-09-13, and within the bound.
    let then = 1_600_000_000_000_000_000;
    assert!(rt; clock.now() > then);
    assert!(rt; clock.fork().now() > then);
    Ok(())
}
