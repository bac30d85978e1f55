//! Headers as words and as bytes, and their bits.
use shmem_header::{
    COMPLETE_BIT, ERROR_BIT, EXTENDED_NOTIFY_BIT, Extended, Generic, NOTIFY_BIT, Reduced,
    bytes_into, code_in, command_in, extended_from, extended_to, generic_from, generic_to,
    header_word, is_set, put_word, reduced_from, reduced_to, signature_of, with_status, word_at,
    words_into,
};

/// What a header has as words, and as the bytes of these.
#[derive(Drop)]
struct Case {
    words: [u64; 2],
    bytes: [u8; 16],
}

fn cases() -> [Case; 3] {
    let posted = Generic {
        signature: signature_of(3),
        command: 0x10 | Generic::NOTIFY,
        status: 0,
    };
    let completed = Generic {
        status: Generic::COMPLETE,
        ..posted
    };
    let extended = Extended {
        signature: signature_of(2),
        flags: Extended::NOTIFY,
        length: 4 + 8,
        command: 0x11,
    };
    [
        Case {
            words: [generic_to(posted), 0],
            bytes: *b"\x03CCP\x10\x80\0\0\0\0\0\0\0\0\0\0",
        },
        Case {
            words: [generic_to(completed), 0],
            bytes: *b"\x03CCP\x10\x80\x01\0\0\0\0\0\0\0\0\0",
        },
        Case {
            words: extended_to(extended),
            bytes: *b"\x02CCP\x01\0\0\0\x0c\0\0\0\x11\0\0\0",
        },
    ]
}

#[test]
fn headers_are_words_and_bytes(rt: HostRuntime) {
    for case in cases() {
        let mut bytes = [0xff; 16];
        bytes_into(&case.words, &mut bytes);
        assert!(rt; bytes == case.bytes);
        let mut words = [0; 2];
        words_into(&case.bytes, &mut words);
        assert!(rt; words == case.words);
        assert!(rt; word_at(&case.bytes, 1) == words[1]);
        put_word(&mut bytes, 0, u64::MAX);
        assert!(rt; bytes[..8] == [0xff; 8]);
        assert!(rt; bytes[8..] == case.bytes[8..]);
    }
}

#[test]
fn words_are_headers(rt: HostRuntime) {
    let header = generic_from(0x0005_8010_5043_4303);
    assert!(rt; header.signature == 0x5043_4303);
    assert!(rt; header.command == 0x8010);
    assert!(rt; header.status == Generic::COMPLETE | Generic::ERROR);
    let header = extended_from([0x0000_0001_5043_4302, 0x0000_0011_0000_000c]);
    assert!(rt; header.signature == 0x5043_4302);
    assert!(rt; header.flags == Extended::NOTIFY);
    assert!(rt; header.length == 12);
    assert!(rt; header.command == 0x11);
    let header = Reduced {
        signature: signature_of(255),
        command: 0xfedc_ba98,
    };
    assert!(rt; reduced_to(header) == 0xfedc_ba98_5043_43ff);
    assert!(rt; reduced_from(reduced_to(header)) == header);
}

#[test]
fn a_header_tells_its_bits(rt: HostRuntime) {
    let posted = header_word(0xff, true, 0, 3);
    assert!(rt; code_in(posted) == 0xff);
    assert!(rt; is_set(posted, NOTIFY_BIT));
    assert!(rt; !is_set(posted, COMPLETE_BIT));
    let failed = with_status(posted, Generic::COMPLETE | Generic::ERROR);
    assert!(rt; failed == header_word(0xff, true, 5, 3));
    assert!(rt; is_set(failed, COMPLETE_BIT));
    assert!(rt; is_set(failed, ERROR_BIT));
    assert!(rt; !is_set(header_word(0x7f, false, 0xfffb, 0), NOTIFY_BIT));
    assert!(rt; !is_set(header_word(0x7f, false, 0xfffb, 0), ERROR_BIT));
    assert!(rt;
        is_set(
            extended_to(extended_from([1 << 32, 0]))[0],
            EXTENDED_NOTIFY_BIT
        )
    );
    assert!(rt; command_in(0x0000_0011_0000_000c) == 0x11);
}
