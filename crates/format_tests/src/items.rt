//! Worked items and what is reported of wrong ones.
use aml_pkg::{
    AmlError, AmlFault, AmlKind, Element, Form, Item, Len, ReadError, item_from, item_to, read_item,
};
use pcc_io::NoMemory;
use std::alloc::{AllocError, Global};
use std::test::Fail;

// What is reported of the bytes, fifty at most.
fn told(alloc: Global, bytes: &[u8]) -> Option<(u32, AmlKind)> {
    if bytes.len() > 50 {
        return None;
    }
    match item_from(alloc, bytes) {
        Err(AmlError::Fault { at, kind }) => Some((at, kind)),
        _ => None,
    }
}

// Whether the bytes, fifty at most, are an item's, all of them, and are written again.
fn written_again(alloc: Global, bytes: &[u8]) -> Result<bool, NoMemory> {
    if bytes.len() > 50 {
        return Ok(false);
    }
    let Ok((item, used)) = item_from(alloc, bytes) else {
        return Ok(false);
    };
    let written = item_to(alloc, &item)?;
    Ok(used == bytes.len() && written.as_slice() == bytes)
}

#[test]
fn items_are_read_and_written_alike(rt: HostRuntime) -> Result<(), Fail> {
    let alloc = rt.alloc();
    let cases: [&[u8]; 9] = [
        b"\x00",
        b"\x01",
        b"\xff",
        b"\x0a\x11",
        b"\x0b\x2c\x01",
        b"\x0c\x01\x02\x03\x04",
        b"\x0e\x01\x02\x03\x04\x05\x06\x07\x80",
        // A buffer with a length of two bytes, and a package with one of four.
        b"\x11\x45\x00\x0a\x07\x2a",
        b"\x12\xca\x00\x00\x00\x03\x01\x11\x02\x00\xff",
    ];
    for bytes in cases {
        assert!(rt; written_again(alloc, bytes)?);
    }
    Ok(())
}

#[test]
fn a_package_says_its_elements(rt: HostRuntime) -> Result<(), Fail> {
    let alloc = rt.alloc();
    let bytes = b"\x12\x08\x02\x0b\x2c\x01\x11\x02\x00";
    let Ok((Item::Package { len, items }, 9)) = item_from(alloc, bytes) else {
        return Err(Fail::from("no package"));
    };
    assert_eq!(rt;
        len,
        Len {
            value: 8,
            follow: 0
        }
    );
    assert_eq!(rt; items.len(), 2);
    let Element::Int(int) = items.at(0) else {
        return Err(Fail::from("no integer"));
    };
    assert!(rt; int.value == 300 && int.form == Form::Word);
    let Element::Buffer(buffer) = items.at(1) else {
        return Err(Fail::from("no buffer"));
    };
    assert!(rt; buffer.size.value == 0 && buffer.bytes.len() == 0);
    assert_eq!(rt; items.at(0).byte_len(), 3);
    assert_eq!(rt; items.at(1).byte_len(), 3);
    Ok(())
}

#[test]
fn the_first_thing_that_is_wrong_is_told(rt: HostRuntime) -> Result<(), Fail> {
    let alloc = rt.alloc();
    let cases: [(&[u8], u32, AmlKind); 12] = [
        (b"", 0, AmlKind::Short),
        (b"\x0a", 1, AmlKind::Short),
        (b"\x11\x50\x00", 1, AmlKind::BadLead),
        (b"\x11\x50", 1, AmlKind::BadLead),
        (b"\x08", 0, AmlKind::UnknownOp),
        (b"\x12\x40", 2, AmlKind::Short),
        (b"\x12\x40\x00", 1, AmlKind::BadLength),
        // The outermost length is compared with the input before anything inside is read.
        (b"\x12\x05\x01\x08", 4, AmlKind::Short),
        (b"\x11\x01", 2, AmlKind::BadLength),
        (b"\x11\x03\x12\x00", 2, AmlKind::UnknownOp),
        (b"\x12\x01", 2, AmlKind::BadLength),
        (b"\x12\x04\x01\x12\x00", 3, AmlKind::TooDeep),
    ];
    for (bytes, at, kind) in cases {
        assert_eq!(rt; told(alloc, bytes), Some((at, kind)));
    }
    Ok(())
}

#[test]
fn a_fault_tells_how_many_elements_are_whole(rt: HostRuntime) -> Result<(), AllocError> {
    let fault = AmlFault {
        at: 5,
        kind: AmlKind::UnknownOp,
        whole: 2,
    };
    let read = read_item(rt.alloc(), b"\x12\x06\x03\x00\x01\x08\x00");
    assert!(rt; read.err() == Some(ReadError::Fault(fault)));
    Ok(())
}
