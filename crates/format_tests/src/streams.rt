//! Lists, clocks, sources and sinks.
use pcc_io::{
    Clock, Items, LineClock, MemSink, MemSource, ReadEnd, StdSink, StdSource, WriteFault,
    read_to_end, write_whole,
};
use std::test::Fail;

#[test]
fn lists_grow_at_the_end(rt: HostRuntime) -> Result<(), Fail> {
    let mut list: Items<u16> = Items::new(rt.alloc());
    list.push(7)?;
    list.push(9)?;
    assert_eq!(rt; list.len(), 2);
    assert_eq!(rt; *list.at(1), 9);
    assert_eq!(rt; list.as_slice(), [7, 9].as_slice());
    Ok(())
}

#[test]
fn a_clock_stops_at_the_greatest_reading(rt: HostRuntime) {
    let mut clock = LineClock::new(u64::MAX - 15, 10);
    let readings = [clock.now(), clock.now(), clock.now()];
    assert_eq!(rt; readings, [u64::MAX - 15, u64::MAX - 5, u64::MAX]);
}

#[test]
fn a_clock_is_moved_up(rt: HostRuntime) {
    let mut clock = LineClock::new(5, 10);
    let first = clock.now();
    clock.add(100);
    clock.add(7);
    let moved = clock.now();
    clock.add(u64::MAX);
    assert_eq!(rt; [first, moved, clock.now()], [5, 122, u64::MAX]);
}

// Pieces of 3 bytes, and a source that fails at its second read.
#[test]
fn reads_to_the_end_or_to_a_fault(rt: HostRuntime) -> Result<(), Fail> {
    let alloc = rt.alloc();
    let mut source = MemSource::new(alloc, b"0123456789", 3, &[])?;
    let bytes = read_to_end(alloc, &mut source, 10).ok().ok_or("refused")?;
    assert_eq!(rt; bytes.as_slice(), b"0123456789".as_slice());
    assert_eq!(rt; source.bytes_left(), b"".as_slice());

    let mut long = MemSource::new(alloc, b"0123456789", 3, &[])?;
    let refused = read_to_end(alloc, &mut long, 9).err();
    assert_eq!(rt; refused, Some(ReadEnd::TooLong { limit: 9 }));

    let mut failing = MemSource::new(alloc, b"0123456789", 3, &[2])?;
    let refused = read_to_end(alloc, &mut failing, 10).err();
    assert_eq!(rt; refused, Some(ReadEnd::ReadFault));
    assert_eq!(rt; failing.bytes_left(), b"3456789".as_slice());
    Ok(())
}

// Pieces of 4 bytes, a sink that fails at its second write, and one with no more room.
#[test]
fn writes_whole_or_a_prefix(rt: HostRuntime) -> Result<(), Fail> {
    let alloc = rt.alloc();
    let mut sink = MemSink::new(alloc, 100, 4, &[])?;
    assert_eq!(rt; write_whole(&mut sink, b"0123456789"), Ok(()));
    assert_eq!(rt; sink.bytes_held(), b"0123456789".as_slice());

    let mut failing = MemSink::new(alloc, 100, 4, &[2])?;
    assert_eq!(rt; write_whole(&mut failing, b"0123456789"), Err(WriteFault));
    assert_eq!(rt; failing.bytes_held(), b"0123".as_slice());

    let mut narrow = MemSink::new(alloc, 6, 4, &[])?;
    assert_eq!(rt; write_whole(&mut narrow, b"0123456789"), Err(WriteFault));
    assert_eq!(rt; narrow.bytes_held(), b"012345".as_slice());
    Ok(())
}

#[test]
fn standard_streams_are_a_source_and_a_sink(rt: HostRuntime) -> Result<(), Fail> {
    let alloc = rt.alloc();
    let mut source = StdSource::new(rt.stdin());
    read_to_end(alloc, &mut source, 100).ok().ok_or("refused")?;
    let mut sink = StdSink::new(rt.stdout());
    assert_eq!(rt; write_whole(&mut sink, b"written\n"), Ok(()));
    Ok(())
}
