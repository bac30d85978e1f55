//! Generic addresses, bit fields and masked writes.
use pcc_gas::{Field, Gas, Masks, field_get, field_put, fields_apart, gas_from, gas_to, masked};

const DOORBELL: [u8; 12] = *b"\0\x20\0\x03\0\0\xd0\xfe\0\0\0\0";

#[test]
fn an_address_is_read_and_written(rt: HostRuntime) {
    let gas = Gas {
        space: 0,
        width: 32,
        offset: 0,
        access: 3,
        address: 0xfed0_0000,
    };
    assert!(rt; gas_from(&DOORBELL) == gas);
    assert!(rt; gas_to(&gas) == DOORBELL);
}

#[test]
fn a_number_is_put_into_a_field_and_read_again(rt: HostRuntime) {
    let long = Field {
        at_bit: 32,
        width: 64,
    };
    let mut space = [0; 16];
    field_put(&mut space, long, 0x1122_3344_5566_7788);
    assert!(rt; space == *b"\0\0\0\0\x88\x77\x66\x55\x44\x33\x22\x11\0\0\0\0");
    assert!(rt; field_get(&space, long) == 0x1122_3344_5566_7788);

    let over_two_bytes = Field {
        at_bit: 4,
        width: 8,
    };
    let mut space = [0; 2];
    field_put(&mut space, over_two_bytes, 0xab);
    assert!(rt; space == [0xb0, 0x0a]);
    assert!(rt; field_get(&space, over_two_bytes) == 0xab);
}

#[test]
fn a_field_lies_in_nine_bytes_among_ones(rt: HostRuntime) {
    let field = Field {
        at_bit: 7,
        width: 64,
    };
    let mut space = [0xff; 9];
    field_put(&mut space, field, 0);
    assert!(rt; space == [0x7f, 0, 0, 0, 0, 0, 0, 0, 0x80]);
    assert!(rt; field_get(&space, field) == 0);
    field_put(&mut space, field, u64::MAX);
    assert!(rt; space == [0xff; 9]);
    assert!(rt; field_get(&space, field) == u64::MAX);
}

#[test]
fn fields_are_apart_or_share_a_bit(rt: HostRuntime) {
    let at = |at_bit: u32, width: u8| Field { at_bit, width };
    assert!(rt; fields_apart(at(0, 8), at(8, 8)));
    assert!(rt; !fields_apart(at(0, 8), at(7, 8)));
    assert!(rt; fields_apart(at(4, 0), at(0, 8)));
    assert!(rt; !fields_apart(at(u32::MAX, 255), at(u32::MAX - 1, 2)));
}

#[test]
fn a_masked_write_keeps_the_preserved_bits(rt: HostRuntime) {
    assert!(rt; masked(0xf0, 0xffff_fffe, 1) == 0xf1);
    assert!(rt; masked(0xf0, 0, 1) == 1);
    let masks = Masks {
        preserve: 0xfe,
        set: 1,
    };
    assert!(rt; masked(0xf1, masks.preserve, masks.set) == 0xf1);
}
