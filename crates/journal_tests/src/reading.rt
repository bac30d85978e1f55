//! Journals that are read back, full ones, and the first wrong line of others.
use journal_reading::{AuditError, AuditKind, Told, told_from};
use pcc_io::Bytes;
use pcc_journal::{JournalHead, Pending, Record, put_journal};
use rate_limit::Limits;
use std::alloc::Global;
use std::test::Fail;

const HEAD: JournalHead = JournalHead {
    id: 2,
    kind: 3,
    cppc: false,
    room: 2,
    limits: Limits {
        turnaround: 500,
        per_minute: 60,
    },
    reports: true,
};

const JOURNAL: &[u8] = b"journal 2 type 3 bank room 2 turnaround 500 rate 60 errors yes\n\
record 0 caller 1 code 5 error post 100 done 700 late in 00ff out 0102\n\
record 1 caller 4294967295 code 0 ok post 1200 done 18446744073709551615 timely in - out -\n\
pending caller 3 code 17 post 60000000 in 020a\n\
end 2\n";

const ANOTHER: &[u8] = b"journal 255 type 5 cppc room 4096 turnaround 0 rate 0 errors no\n\
end 255\n";

// Each text, and which of its lines is wrong first.
const WRONG: &[(&[u8], u32)] = &[
    (b"", 0),
    (b"\n", 0),
    (b"end 2\n", 0),
    (
        b"journal 256 type 3 bank room 2 turnaround 500 rate 60 errors yes\nend 256\n",
        0,
    ),
    (
        b"journal 2 type 3 bank room 2 turnaround 500 rate 60 errors yes",
        0,
    ),
    (
        b"journal 2 type 3 bank room 2 turnaround 500 rate 60 errors yes \nend 2\n",
        0,
    ),
    (
        b"journal 2 type 3 bank room 2 turnaround 500 rate 60 errors yes\n",
        1,
    ),
    (
        b"journal 2 type 3 bank room 2 turnaround 500 rate 60 errors yes\nend 3\n",
        1,
    ),
    (
        b"journal 2 type 3 bank room 2 turnaround 500 rate 60 errors yes\nend 02\n",
        1,
    ),
    (
        b"journal 2 type 3 bank room 2 turnaround 500 rate 60 errors yes\n\
record 1 caller 0 code 1 ok post 0 done 0 timely in - out -\nend 2\n",
        1,
    ),
    (
        b"journal 2 type 3 bank room 2 turnaround 500 rate 60 errors yes\n\
record 0 caller 0 code 1 ok post 0 done 0 timely in 0A out -\nend 2\n",
        1,
    ),
    (
        b"journal 2 type 3 bank room 2 turnaround 500 rate 60 errors yes\n\
record 0 caller 0 code 1 ok post 0 done 0 timely in - out -\n\
pending caller 0 code 1 post 1 in -\nend 2",
        3,
    ),
    (
        b"journal 2 type 3 bank room 2 turnaround 500 rate 60 errors yes\n\
pending caller 0 code 1 post 1 in -\n\
record 0 caller 0 code 1 ok post 0 done 0 timely in - out -\nend 2\n",
        2,
    ),
];

// What a text tells whose first line has this number. The lines of these texts are few.
#[tactic(auto, using(crate::proofs::Few::few_lines))]
fn told(alloc: Global, text: &[u8], first: u32) -> Result<(Told, usize), AuditError> {
    if text.len() > 1_000_000 || first > 1_000 {
        return Err(AuditError::NoMemory);
    }
    told_from(alloc, text, first)
}

// The first fault of a text whose first line is the tenth.
fn fault(alloc: Global, text: &[u8]) -> Option<(u32, AuditKind)> {
    match told(alloc, text, 10) {
        Err(AuditError::Fault { line, kind }) => Some((line, kind)),
        _ => None,
    }
}

// How many records a text tells, whether a command is pending, and how long the journal is.
fn size(alloc: Global, text: &[u8]) -> Option<(usize, bool, usize)> {
    match told(alloc, text, 10) {
        Ok((told, long)) => Some((told.records.len(), told.pending.is_some(), long)),
        Err(_) => None,
    }
}

// What a text tells, printed again, and how long the journal is.
fn again(alloc: Global, text: &[u8]) -> Option<(Vec<u8>, usize)> {
    let Ok((told, long)) = told(alloc, text, 1) else {
        return None;
    };
    let mut out = Vec::new(alloc);
    let printed = put_journal(
        &mut out,
        &told.head,
        told.records.as_slice(),
        told.pending.as_ref(),
    );
    match printed {
        Ok(()) => Some((out, long)),
        Err(_) => None,
    }
}

// The text of a journal of this many records.
fn journal_of(alloc: Global, count: u64, pending: Option<&Pending>) -> Option<Vec<u8>> {
    let mut records = Vec::new(alloc);
    for post in 0..count {
        let record = Record {
            caller: 0,
            code: 1,
            input: Bytes::new(alloc),
            error: false,
            output: Bytes::new(alloc),
            post,
            done: post,
            late: false,
        };
        if records.push(record).is_err() {
            return None;
        }
    }
    let mut text = Vec::new(alloc);
    match put_journal(&mut text, &HEAD, records.as_slice(), pending) {
        Ok(()) => Some(text),
        Err(_) => None,
    }
}

#[test]
fn journals_are_read_one_after_the_other(rt: HostRuntime) -> Result<(), Fail> {
    let alloc = rt.alloc();
    let mut text = Vec::new(alloc);
    text.extend_from_slice(JOURNAL)?;
    text.extend_from_slice(ANOTHER)?;
    let (out, long) = again(alloc, text.as_slice()).ok_or("no journal")?;
    assert_eq!(rt; long, JOURNAL.len());
    assert_eq!(rt; out.as_slice(), JOURNAL);
    let (out, long) = again(alloc, ANOTHER).ok_or("no other journal")?;
    assert_eq!(rt; long, ANOTHER.len());
    assert_eq!(rt; out.as_slice(), ANOTHER);
    Ok(())
}

#[test]
fn a_full_journal_is_read_and_one_record_more_is_too_many(rt: HostRuntime) -> Result<(), Fail> {
    let alloc = rt.alloc();
    let pending = Pending {
        caller: 3,
        code: 17,
        input: Bytes::new(alloc),
        post: 60_000_000,
    };
    let full = journal_of(alloc, 4096, None).ok_or("no text")?;
    assert!(rt; size(alloc, full.as_slice()) == Some((4096, false, full.len())));
    let waiting = journal_of(alloc, 4096, Some(&pending)).ok_or("no text")?;
    assert!(rt; size(alloc, waiting.as_slice()) == Some((4096, true, waiting.len())));
    let many = journal_of(alloc, 4097, None).ok_or("no text")?;
    assert!(rt; fault(alloc, many.as_slice()) == Some((4107, AuditKind::Many)));
    Ok(())
}

#[test]
fn the_first_wrong_line_is_reported(rt: HostRuntime) {
    for &(text, line) in WRONG {
        assert!(rt; fault(rt.alloc(), text) == Some((10 + line, AuditKind::Text)));
    }
}
