//! Tables that come in pieces.
use pcct_codec::{ONE_GENERIC_SUBSPACE, Piece, TableFault, TableReader};
use std::alloc::{AllocError, Global};
use std::test::Fail;

// What the pieces are read to: the place of the deciding piece, and how many of its bytes are the table's or what is wrong.
fn read_pieces(alloc: Global, pieces: &[&[u8]]) -> (usize, Result<usize, TableFault>) {
    let mut reader = TableReader::new(alloc);
    for place in 0..pieces.len() {
        match reader.push(pieces[place]) {
            Ok(Piece::More) => {}
            Ok(Piece::Whole { used, .. }) => return (place, Ok(used)),
            Err(fault) => return (place, Err(fault)),
        }
    }
    (pieces.len(), Err(reader.finish()))
}

// Each byte as a piece.
fn single_bytes(alloc: Global, bytes: &[u8]) -> Result<Vec<&[u8]>, AllocError> {
    let mut pieces = Vec::new(alloc);
    for byte in bytes.chunks(1) {
        pieces.push(byte)?;
    }
    Ok(pieces)
}

#[test]
fn a_table_comes_byte_by_byte(rt: HostRuntime) -> Result<(), Fail> {
    let alloc = rt.alloc();
    let bytes = single_bytes(alloc, &ONE_GENERIC_SUBSPACE)?;
    assert_eq!(rt; read_pieces(alloc, &bytes), (109, Ok(1)));
    let bytes = single_bytes(alloc, &ONE_GENERIC_SUBSPACE[..47])?;
    let short = TableFault::Short { at: 47 };
    assert_eq!(rt; read_pieces(alloc, &bytes), (47, Err(short)));
    Ok(())
}

#[test]
fn bytes_after_a_table_are_not_used(rt: HostRuntime) -> Result<(), Fail> {
    let alloc = rt.alloc();
    let mut bytes = Vec::from_slice(alloc, &ONE_GENERIC_SUBSPACE)?;
    bytes.extend_from_slice(&[1, 2, 3])?;
    assert_eq!(rt; read_pieces(alloc, &[&bytes]), (0, Ok(110)));
    assert_eq!(rt;
        read_pieces(alloc, &[&bytes[..100], &bytes[100..]]),
        (1, Ok(10))
    );
    Ok(())
}

#[test]
fn a_fault_is_told_with_the_deciding_piece(rt: HostRuntime) -> Result<(), Fail> {
    let alloc = rt.alloc();
    let mut bytes = ONE_GENERIC_SUBSPACE;
    bytes[0] = 0x51;
    let pieces: [&[u8]; 2] = [&bytes[..20], &bytes[20..48]];
    assert_eq!(rt;
        read_pieces(alloc, &pieces),
        (1, Err(TableFault::Signature))
    );

    let mut bytes = ONE_GENERIC_SUBSPACE;
    bytes[49] = 61;
    let size = TableFault::SubspaceLength {
        at: 48,
        kind: 0,
        found: 61,
    };
    let pieces: [&[u8]; 3] = [&bytes[..60], &bytes[60..109], &bytes[109..]];
    assert_eq!(rt; read_pieces(alloc, &pieces), (2, Err(size)));
    Ok(())
}
