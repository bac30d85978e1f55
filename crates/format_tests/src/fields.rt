//! Fields of texts, read and written.
use pcc_text::{
    Piece, bytes_of, is_text, number, part, put, put_hex, put_number, put_pieces, split,
};
use std::test::Fail;

// Between two cuts, and before and after them, there is a part, empty or not.
#[test]
fn splits_between_spaces(rt: HostRuntime) -> Result<(), Fail> {
    let parts = split(rt.alloc(), b"call  0 - ", b' ')?;
    assert_eq!(rt; parts.len(), 5);
    assert_eq!(rt; part(&parts, 0), b"call".as_slice());
    assert_eq!(rt; part(&parts, 1), b"".as_slice());
    assert_eq!(rt; part(&parts, 3), b"-".as_slice());
    assert_eq!(rt; part(&parts, 4), b"".as_slice());
    assert!(rt; is_text(part(&parts, 2), b"0"));
    Ok(())
}

#[test]
fn reads_numbers_as_they_are_written(rt: HostRuntime) {
    assert_eq!(rt; number(b"0", 0), Some(0));
    assert_eq!(rt; number(b"15", 15), Some(15));
    assert_eq!(rt; number(b"18446744073709551615", u64::MAX), Some(u64::MAX));
    assert_eq!(rt; number(b"16", 15), None);
    assert_eq!(rt; number(b"18446744073709551616", u64::MAX), None);
    let wrong: [&[u8]; 6] = [b"", b"00", b"01", b"+1", b" 1", b"1a"];
    for field in wrong {
        assert_eq!(rt; number(field, u64::MAX), None);
    }
}

#[test]
fn reads_lower_case_bytes_alone(rt: HostRuntime) -> Result<(), Fail> {
    let alloc = rt.alloc();
    let none = bytes_of(alloc, b"-")?.ok_or("no bytes")?;
    assert_eq!(rt; none.as_slice(), b"".as_slice());
    let bytes = bytes_of(alloc, b"00ff7a")?.ok_or("three bytes")?;
    assert_eq!(rt; bytes.as_slice(), [0, 255, 122].as_slice());
    let wrong: [&[u8]; 6] = [b"", b"0", b"0g", b"FF", b"0X", b"--"];
    for field in wrong {
        assert!(rt; bytes_of(alloc, field)?.is_none());
    }
    Ok(())
}

#[test]
fn writes_pieces_one_after_another(rt: HostRuntime) -> Result<(), Fail> {
    let alloc = rt.alloc();
    let mut out = Vec::new(alloc);
    put(&mut out, b"4 ")?;
    put_number(&mut out, u64::MAX)?;
    put_hex(&mut out, &[0, 171])?;
    put_pieces(
        &mut out,
        &[
            Piece::Text(b" in "),
            Piece::Hex(&[]),
            Piece::Text(b" at "),
            Piece::Number(10),
            Piece::Text(b" "),
            Piece::Wide(18_446_744_073_709_552_115),
        ],
    )?;
    assert_eq!(rt;
        out.as_slice(),
        b"4 1844674407370955161500ab in - at 10 18446744073709552115".as_slice()
    );
    Ok(())
}
