//! The largest table: 256 structures of an unknown type, each with as many bytes as its size can say.
use pcc_io::{MemSink, MemSource};
use pcct_codec::{
    NO_SUBSPACES, TableFault, table_bytes, table_from, table_of_bytes, table_to, texts_of_tables,
};
use pcct_table::{MAX_SUBSPACES, show_lines, table_of_lines};
use std::alloc::{AllocError, Global};
use std::test::Fail;

const HEADER: &[u8] =
    b"pcct revision=2 oem_id=50434352554e oem_table=4558414d504c4531 oem_revision=1 creator=54455354 creator_revision=1 flags=0 reserved=0000000000000000\n";

// Puts bytes at the end, this many times.
fn put_times(out: &mut Vec<u8>, bytes: &[u8], times: usize) -> Result<(), AllocError> {
    for _ in 0..times {
        out.extend_from_slice(bytes)?;
    }
    Ok(())
}

// A header that states 65,328 bytes, and structures of type 6 with 255 bytes. What 256 equal structures add to the sum is 0 modulo 256.
fn largest_bytes(alloc: Global) -> Result<Vec<u8>, AllocError> {
    let mut bytes = Vec::from_slice(alloc, &NO_SUBSPACES)?;
    bytes[5] = 0xff;
    bytes[9] = 0x5b;
    for _ in 0..MAX_SUBSPACES {
        bytes.extend_from_slice(&[6, 255])?;
        put_times(&mut bytes, b"\xab", 253)?;
    }
    Ok(bytes)
}

// The text of that table.
fn largest_text(alloc: Global) -> Result<Vec<u8>, Fail> {
    let mut text = Vec::from_slice(alloc, HEADER)?;
    for place in 0..MAX_SUBSPACES {
        let front = format!(in alloc; "subspace {place} type 6 bytes=")?;
        text.extend_from_slice(front.as_bytes())?;
        put_times(&mut text, b"ab", 253)?;
        text.push(b'\n')?;
    }
    Ok(text)
}

#[test]
fn the_largest_table_is_read_and_written_alike(rt: HostRuntime) -> Result<(), Fail> {
    let alloc = rt.alloc();
    let bytes = largest_bytes(alloc)?;
    assert_eq!(rt; bytes.len(), 65_328);
    let mut source = MemSource::new(alloc, &bytes, 1000, &[])?;
    let table = table_from(alloc, &mut source).ok().ok_or("refused")?;
    assert!(rt; table.subspaces.len() == 256 && source.bytes_left().is_empty());
    let mut sink = MemSink::new(alloc, bytes.len(), 1000, &[])?;
    assert_eq!(rt; table_to(alloc, &table, &mut sink), Ok(()));
    assert!(rt; sink.bytes_held() == bytes.as_slice());

    let end = bytes.len() - 1;
    let short = TableFault::Short { at: 65_327 };
    assert_eq!(rt; table_of_bytes(alloc, &bytes[..end]).err(), Some(short));
    Ok(())
}

#[test]
fn the_largest_table_has_a_text(rt: HostRuntime) -> Result<(), Fail> {
    let alloc = rt.alloc();
    let bytes = largest_bytes(alloc)?;
    let text = largest_text(alloc)?;
    texts_of_tables();
    let (table, _) = table_of_bytes(alloc, &bytes).ok().ok_or("refused")?;
    assert!(rt; show_lines(alloc, &table)?.as_slice() == text.as_slice());
    let built = table_of_lines(alloc, &text)?;
    assert!(rt; table_bytes(alloc, &built)?.as_slice() == bytes.as_slice());
    Ok(())
}
