//! Texts of structures of types of later releases.
use pcct_table::{BuildError, BuildKind, Subspace, show_lines, table_of_lines};
use std::alloc::Global;
use std::test::Fail;

const HEADER: &[u8] =
    b"pcct revision=2 oem_id=50434352554e oem_table=4558414d504c4531 oem_revision=1 creator=54455354 creator_revision=1 flags=0 reserved=0000000000000000\n";

// A text of the header and this line.
fn with_line(alloc: Global, line: &[u8]) -> Result<Vec<u8>, Fail> {
    let mut text = Vec::from_slice(alloc, HEADER)?;
    text.extend_from_slice(line)?;
    Ok(text)
}

// Whether the second line is the first wrong one.
fn is_wrong(alloc: Global, line: &[u8]) -> Result<bool, Fail> {
    let text = with_line(alloc, line)?;
    let wrong = BuildError::Fault {
        line: 2,
        kind: BuildKind::Text,
    };
    Ok(table_of_lines(alloc, &text).err() == Some(wrong))
}

// A line of type 6 with this many bytes.
fn line_of(alloc: Global, count: usize) -> Result<Vec<u8>, Fail> {
    let mut line = Vec::from_slice(alloc, b"subspace 0 type 6 bytes=")?;
    for _ in 0..count {
        line.extend_from_slice(b"5a")?;
    }
    line.push(b'\n')?;
    Ok(line)
}

#[test]
fn lines_of_later_types_are_read_and_shown(rt: HostRuntime) -> Result<(), Fail> {
    let alloc = rt.alloc();
    let text = with_line(
        alloc,
        b"subspace 0 type 6 bytes=0203f4\nsubspace 1 type 255 bytes=-\n",
    )?;
    let table = table_of_lines(alloc, &text)?;
    let [Subspace::Other(first), Subspace::Other(last)] = table.subspaces.as_slice() else {
        return Err("other types")?;
    };
    assert!(rt; first.kind == 6 && first.bytes.as_slice() == [0x02, 0x03, 0xf4].as_slice());
    assert!(rt; last.kind == 255 && last.bytes.as_slice().is_empty());
    assert_eq!(rt; show_lines(alloc, &table)?.as_slice(), text.as_slice());
    Ok(())
}

#[test]
fn wrong_lines_of_later_types_are_refused(rt: HostRuntime) -> Result<(), Fail> {
    let alloc = rt.alloc();
    let lines: [&[u8]; 9] = [
        b"subspace 0 type 5 bytes=00\n",
        b"subspace 0 type 256 bytes=00\n",
        b"subspace 0 type 06 bytes=00\n",
        b"subspace 0 type 6\n",
        b"subspace 0 type 6 bytes=\n",
        b"subspace 0 type 6 bytes=0\n",
        b"subspace 0 type 6 bytes=0A\n",
        b"subspace 0 type 6 bytes=00 bytes=00\n",
        b"subspace 0 type 6 base=00\n",
    ];
    for line in lines {
        assert!(rt; is_wrong(alloc, line)?);
    }
    assert!(rt; !is_wrong(alloc, &line_of(alloc, 253)?)?);
    assert!(rt; is_wrong(alloc, &line_of(alloc, 254)?)?);
    Ok(())
}
