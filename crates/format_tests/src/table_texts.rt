//! Texts of tables, both ways.
use pcc_gas::Gas;
use pcct_table::{BuildError, BuildKind, Subspace, show_lines, subspace_from, table_of_lines};
use std::alloc::Global;
use std::str;
use std::test::Fail;

const HEADER: &[u8] =
    b"pcct revision=2 oem_id=50434352554e oem_table=4558414d504c4531 oem_revision=1 creator=54455354 creator_revision=1 flags=0 reserved=0000000000000000\n";

const ONE_GENERIC_SUBSPACE: &[u8] =
    b"pcct revision=2 oem_id=50434352554e oem_table=4558414d504c4531 oem_revision=1 creator=54455354 creator_revision=1 flags=0 reserved=0000000000000000\n\
    subspace 0 type 0 reserved=000000000000 base=2147483648 length=24 doorbell=0:32:0:3:4275044352 preserve=4294967294 write=1 latency=1000 rate=0 turnaround=0\n";

const EXTENDED_JOINED: &[u8] =
    b"pcct revision=2 oem_id=50434352554e oem_table=4558414d504c4531 oem_revision=1 creator=54455354 creator_revision=1 flags=0 reserved=0000000000000000\n\
    subspace 0 type 3 interrupt=0 interrupt_flags=0 reserved=00 base=2147483648 length=32 doorbell=0:32:0:3:4275044352 preserve=4294967294 write=1 latency=1000 rate=0 turnaround=0 ack=0:0:0:0:0 ack_preserve=0 ack_set=0 reserved2=0000000000000000 check=0:32:0:3:4275109888 check_mask=1 update=0:32:0:3:4275109888 update_preserve=4294967295 update_set=0 error=0:0:0:0:0 error_mask=0\n";

// The bytes of the structure in the second text.
const GENERIC: [u8; 62] =
    *b"\0\x3e\0\0\0\0\0\0\0\0\0\x80\0\0\0\0\x18\0\0\0\0\0\0\0\0\x20\0\x03\0\0\xd0\xfe\0\0\0\0\
    \xfe\xff\xff\xff\0\0\0\0\x01\0\0\0\0\0\0\0\xe8\x03\0\0\0\0\0\0\0\0";

// The first fault of a text.
fn fault_of(alloc: Global, text: &[u8]) -> Option<(u32, BuildKind)> {
    if text.len() > 1_000_000 {
        return None;
    }
    match table_of_lines(alloc, text) {
        Err(BuildError::Fault { line, kind }) => Some((line, kind)),
        _ => None,
    }
}

// A text of a header and n structures of type 0.
fn generic_text(alloc: Global, structures: u32) -> Result<Vec<u8>, Fail> {
    let mut text = Vec::new(alloc);
    text.extend_from_slice(HEADER)?;
    for place in 0..structures {
        let line = format!(in alloc;
            "subspace {place} type 0 reserved=000000000000 base=0 length=0 doorbell=0:0:0:0:0 preserve=0 write=0 latency=0 rate=0 turnaround=0\n"
        )?;
        text.extend_from_slice(line.as_bytes())?;
    }
    Ok(text)
}

// A text with a part of it, which occurs there once, put in another's place.
fn replaced(alloc: Global, text: &[u8], old: &str, new: &str) -> Result<Vec<u8>, Fail> {
    let text = str::from_utf8(text)?;
    Ok(text.replace(alloc, old, new)?.into_bytes())
}

#[test]
fn a_header_alone(rt: HostRuntime) -> Result<(), Fail> {
    let table = table_of_lines(rt.alloc(), HEADER)?;
    assert_eq!(rt; table.revision, 2);
    assert_eq!(rt; table.oem_id, *b"PCCRUN");
    assert_eq!(rt; table.oem_table, *b"EXAMPLE1");
    assert_eq!(rt; table.creator, *b"TEST");
    assert_eq!(rt;
        (table.oem_revision, table.creator_revision, table.flags),
        (1, 1, 0)
    );
    assert_eq!(rt; table.reserved, [0; 8]);
    assert_eq!(rt; table.subspaces.len(), 0);
    assert_eq!(rt; show_lines(rt.alloc(), &table)?.as_slice(), HEADER);
    Ok(())
}

#[test]
fn one_generic_subspace(rt: HostRuntime) -> Result<(), Fail> {
    let table = table_of_lines(rt.alloc(), ONE_GENERIC_SUBSPACE)?;
    let [Subspace::Generic(told)] = table.subspaces.as_slice() else {
        return Err("another type")?;
    };
    let Subspace::Generic(generic) = subspace_from(rt.alloc(), &GENERIC)? else {
        return Err("another type of the bytes")?;
    };
    assert_eq!(rt; *told, generic);
    assert_eq!(rt;
        show_lines(rt.alloc(), &table)?.as_slice(),
        ONE_GENERIC_SUBSPACE
    );
    Ok(())
}

#[test]
fn one_extended_subspace(rt: HostRuntime) -> Result<(), Fail> {
    let table = table_of_lines(rt.alloc(), EXTENDED_JOINED)?;
    let [Subspace::Initiator(told)] = table.subspaces.as_slice() else {
        return Err("another type")?;
    };
    let check = Gas {
        space: 0,
        width: 32,
        offset: 0,
        access: 3,
        address: 4_275_109_888,
    };
    assert!(rt;
        told.check == check && told.update == check && told.update_preserve == 4_294_967_295
    );
    assert_eq!(rt; show_lines(rt.alloc(), &table)?.as_slice(), EXTENDED_JOINED);
    Ok(())
}

#[test]
fn the_first_wrong_line_is_told(rt: HostRuntime) -> Result<(), Fail> {
    let alloc = rt.alloc();
    assert_eq!(rt; fault_of(alloc, b""), Some((1, BuildKind::Text)));
    assert_eq!(rt; fault_of(alloc, b"\n"), Some((1, BuildKind::Text)));
    assert_eq!(rt;
        fault_of(alloc, &HEADER[..HEADER.len() - 1]),
        Some((1, BuildKind::Text))
    );
    let changes: [(&str, &str, u32); 9] = [
        ("revision=2 ", "revision=3 ", 1),
        ("oem_revision=1", "oem_revision=4294967296", 1),
        ("4558414d504c4531", "4558414D504C4531", 1),
        ("creator=54455354", "creator=-", 1),
        ("subspace 0", "subspace 1", 2),
        ("latency=1000", "latency=01000", 2),
        ("turnaround=0", "turnaround=65536", 2),
        ("turnaround=0", "turnaround=0 ", 2),
        ("turnaround=0\n", "turnaround=0", 2),
    ];
    for (old, new, line) in changes {
        let text = replaced(alloc, ONE_GENERIC_SUBSPACE, old, new)?;
        assert_eq!(rt;
            fault_of(alloc, &text),
            Some((line, BuildKind::Text)),
            "{old}"
        );
    }
    Ok(())
}

#[test]
fn a_257th_structure_is_one_too_many(rt: HostRuntime) -> Result<(), Fail> {
    let alloc = rt.alloc();
    let full = generic_text(alloc, 256)?;
    assert_eq!(rt; fault_of(alloc, &full), None);
    let mut more = generic_text(alloc, 257)?;
    assert_eq!(rt; fault_of(alloc, &more), Some((258, BuildKind::Many)));
    let wrapped = replaced(alloc, &more, "subspace 256 ", "subspace 0 ")?;
    assert_eq!(rt; fault_of(alloc, &wrapped), Some((258, BuildKind::Text)));
    more.pop();
    assert_eq!(rt; fault_of(alloc, &more), Some((258, BuildKind::Text)));
    Ok(())
}
