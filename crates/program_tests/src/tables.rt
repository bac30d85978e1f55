//! Tables shown as texts and built from texts.
use crate::commands::{changed, joined, status_of, status_of_long};
use pcc_io::NoMemory;
use pcc_text::{put, put_number};
use pcct_codec::{NO_SUBSPACES, ONE_GENERIC_SUBSPACE};
use std::alloc::Global;
use std::test::Fail;

const NO_SUBSPACES_TEXT: &[u8] =
    b"pcct revision=2 oem_id=50434352554e oem_table=4558414d504c4531 oem_revision=1 \
creator=54455354 creator_revision=1 flags=0 reserved=0000000000000000\n";

const ONE_SUBSPACE_TEXT: &[u8] =
    b"pcct revision=2 oem_id=50434352554e oem_table=4558414d504c4531 oem_revision=1 \
creator=54455354 creator_revision=1 flags=0 reserved=0000000000000000\n\
subspace 0 type 0 reserved=000000000000 base=2147483648 length=24 doorbell=0:32:0:3:4275044352 preserve=4294967294 \
write=1 latency=1000 rate=0 turnaround=0\n";

#[test]
fn tables_are_shown_and_built(rt: HostRuntime) -> Result<(), Fail> {
    let alloc = rt.alloc();
    let rows: [(&[u8], &[u8]); 2] = [
        (&NO_SUBSPACES, NO_SUBSPACES_TEXT),
        (&ONE_GENERIC_SUBSPACE, ONE_SUBSPACE_TEXT),
    ];
    for (bytes, text) in rows {
        assert_eq!(rt; status_of(alloc, "show", bytes, text)?, Some(0));
        assert_eq!(rt; status_of(alloc, "build", text, bytes)?, Some(0));
    }
    Ok(())
}

const LATER_TYPE_TEXT: &[u8] =
    b"pcct revision=2 oem_id=50434352554e oem_table=4558414d504c4531 oem_revision=1 \
creator=54455354 creator_revision=1 flags=0 reserved=0000000000000000\n\
subspace 0 type 6 bytes=00000000000000000080000000001800000000000000002000030000d0fe00000000feffffff000000000100000000000000\
e8030000000000000000\n";

// A structure of a type of a later release, and one of the same type without bytes.
#[test]
fn structures_of_unknown_types_are_kept(rt: HostRuntime) -> Result<(), Fail> {
    let alloc = rt.alloc();
    let kept = changed(alloc, &ONE_GENERIC_SUBSPACE, &[(48, 6), (9, 0x68)])?;
    let front = changed(alloc, &ONE_GENERIC_SUBSPACE[..48], &[(4, 50), (9, 0x50)])?;
    let empty = joined(alloc, &[&front, b"\x06\x02"])?;
    let empty_text = joined(alloc, &[NO_SUBSPACES_TEXT, b"subspace 0 type 6 bytes=-\n"])?;
    let rows: [(&[u8], &[u8]); 2] = [(&kept, LATER_TYPE_TEXT), (&empty, &empty_text)];
    for (bytes, text) in rows {
        assert_eq!(rt; status_of_long(alloc, "show", bytes, text)?, Some(0));
        assert_eq!(rt; status_of_long(alloc, "build", text, bytes)?, Some(0));
    }
    let known = joined(alloc, &[NO_SUBSPACES_TEXT, b"subspace 0 type 5 bytes=-\n"])?;
    let line = b"refused line 2 text\n";
    assert_eq!(rt; status_of_long(alloc, "build", &known, line)?, Some(3));
    Ok(())
}

#[test]
fn wrong_tables_are_refused(rt: HostRuntime) -> Result<(), Fail> {
    let alloc = rt.alloc();
    let rows: [(&[(usize, u8)], &[u8]); 10] = [
        (&[(0, 0x51)], b"refused table signature\n"),
        (&[(4, 47)], b"refused table length 47\n"),
        (&[(8, 3), (9, 0x6d)], b"refused table revision 3\n"),
        (&[(4, 0x6f)], b"refused table short 110\n"),
        (&[(48, 2), (9, 0x6c)], b"refused table size 48 2 62\n"),
        (
            &[(48, 6), (49, 1), (9, 0xa5)],
            b"refused table size 48 6 1\n",
        ),
        (&[(4, 0x31), (5, 0xff)], b"refused table length 65329\n"),
        (&[(4, 109)], b"refused table overrun 48\n"),
        (&[(50, 7)], b"refused table checksum 7\n"),
        (&[(4, 48), (9, 0x5a)], b"refused table trailing 48\n"),
    ];
    for (changes, text) in rows {
        let table = changed(alloc, &ONE_GENERIC_SUBSPACE, changes)?;
        assert_eq!(rt; status_of(alloc, "show", &table, text)?, Some(3));
    }
    let part = &ONE_GENERIC_SUBSPACE[..47];
    assert_eq!(rt;
        status_of(alloc, "show", part, b"refused table short 47\n")?,
        Some(3)
    );
    Ok(())
}

#[test]
fn wrong_texts_of_tables_are_refused(rt: HostRuntime) -> Result<(), Fail> {
    let alloc = rt.alloc();
    let rows: [(&[u8], &[u8]); 3] = [
        (b"", b"refused line 1 text\n"),
        (b"pcct revision=3\n", b"refused line 1 text\n"),
        (&ONE_SUBSPACE_TEXT[..300], b"refused line 2 text\n"),
    ];
    for (input, text) in rows {
        assert_eq!(rt; status_of(alloc, "build", input, text)?, Some(3));
    }
    Ok(())
}

// The bytes and the text of a table of equal structures of type 0, with this length and this checksum.
fn many_structures(
    alloc: Global,
    count: u64,
    header: &[(usize, u8)],
) -> Result<(Vec<u8>, Vec<u8>), NoMemory> {
    let mut bytes = changed(alloc, &NO_SUBSPACES, header)?;
    let mut text = joined(
        alloc,
        &[
            b"pcct revision=2 oem_id=50434352554e oem_table=4558414d504c4531 oem_revision=1 ",
            b"creator=54455354 creator_revision=1 flags=0 reserved=0000000000000000\n",
        ],
    )?;
    for place in 0..count {
        put(&mut bytes, &ONE_GENERIC_SUBSPACE[48..])?;
        put(&mut text, b"subspace ")?;
        put_number(&mut text, place)?;
        put(
            &mut text,
            b" type 0 reserved=000000000000 base=2147483648 length=24 ",
        )?;
        put(
            &mut text,
            b"doorbell=0:32:0:3:4275044352 preserve=4294967294 ",
        )?;
        put(&mut text, b"write=1 latency=1000 rate=0 turnaround=0\n")?;
    }
    Ok((bytes, text))
}

#[test]
fn tables_of_256_structures_and_of_one_more(rt: HostRuntime) -> Result<(), Fail> {
    let alloc = rt.alloc();
    let header = [(4, 0x30), (5, 0x3e), (9, 0x1c)];
    let (bytes, text) = many_structures(alloc, 256, &header)?;
    assert_eq!(rt; status_of_long(alloc, "show", &bytes, &text)?, Some(0));
    assert_eq!(rt; status_of_long(alloc, "build", &text, &bytes)?, Some(0));
    let header = [(4, 0x6e), (5, 0x3e), (9, 0x30)];
    let (bytes, text) = many_structures(alloc, 257, &header)?;
    let many = b"refused table many 15920\n";
    assert_eq!(rt; status_of_long(alloc, "show", &bytes, many)?, Some(3));
    let last = b"refused line 258 many\n";
    assert_eq!(rt; status_of_long(alloc, "build", &text, last)?, Some(3));
    Ok(())
}

#[test]
fn fronts_of_a_table(rt: HostRuntime) -> Result<(), Fail> {
    let alloc = rt.alloc();
    for k in 0..48usize {
        let mut text = Vec::from_slice(alloc, b"refused table short ")?;
        put_number(&mut text, k as u64)?;
        put(&mut text, b"\n")?;
        let front = &ONE_GENERIC_SUBSPACE[..k];
        assert_eq!(rt; status_of_long(alloc, "show", front, &text)?, Some(3));
    }
    Ok(())
}

// The most bytes that are read are no table either.
#[test]
fn the_longest_input(rt: HostRuntime) -> Result<(), Fail> {
    let alloc = rt.alloc();
    let zeros = vec![in alloc; 0; 4_194_304]?;
    let line = b"refused table signature\n";
    assert_eq!(rt; status_of_long(alloc, "show", &zeros, line)?, Some(3));
    Ok(())
}

const RESERVED: &[u8] =
    b"pcct revision=2 oem_id=50434352554e oem_table=4558414d504c4531 oem_revision=1 \
creator=54455354 creator_revision=1 flags=0 reserved=0000000000000000\n\
subspace 0 type 0 reserved=070000000000 base=2147483648 length=24 doorbell=0:32:0:3:4275044352 preserve=4294967294 \
write=1 latency=1000 rate=0 turnaround=0\n";

const REVISION_3: &[u8] =
    b"pcct revision=3 oem_id=50434352554e oem_table=4558414d504c4531 oem_revision=1 \
creator=54455354 creator_revision=1 flags=0 reserved=0000000000000000\n";

// Reserved bytes are kept both ways, and a text of another revision is no table's.
#[test]
fn reserved_bytes_and_revisions(rt: HostRuntime) -> Result<(), Fail> {
    let alloc = rt.alloc();
    let table = changed(alloc, &ONE_GENERIC_SUBSPACE, &[(50, 7), (9, 0x67)])?;
    assert_eq!(rt; status_of_long(alloc, "show", &table, RESERVED)?, Some(0));
    assert_eq!(rt; status_of_long(alloc, "build", RESERVED, &table)?, Some(0));
    let line = b"refused line 1 text\n";
    assert_eq!(rt; status_of_long(alloc, "build", REVISION_3, line)?, Some(3));
    Ok(())
}
