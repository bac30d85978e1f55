//! Journals, notes and commands, and the text of a journal.
use crate::subspaces::NO_LIMITS;
use pcc_io::{Bytes, NoMemory};
use pcc_journal::{
    Command, Commands, Journal, JournalHead, Note, Notes, Pending, Record, ReserveRefusal,
    journal_lines, put_journal,
};
use rate_limit::{Limits, Times, earliest};
use std::alloc::Global;
use std::test::Fail;

fn space(alloc: Global, bytes: &[u8]) -> Result<Bytes, NoMemory> {
    Ok(Bytes::from_vec(Vec::from_slice(alloc, bytes)?))
}

const BANK: JournalHead = JournalHead {
    id: 0,
    kind: 0,
    cppc: false,
    room: 4,
    limits: Limits {
        turnaround: 500,
        per_minute: 60,
    },
    reports: true,
};

const CPPC: JournalHead = JournalHead {
    id: 255,
    kind: 5,
    cppc: true,
    room: 4096,
    limits: NO_LIMITS,
    reports: false,
};

// A late record, a record of an error, and a pending command.
fn records(alloc: Global) -> Result<Vec<Record>, NoMemory> {
    let mut records = Vec::new(alloc);
    records.push(Record {
        caller: 0,
        code: 16,
        input: space(alloc, &[1, 0, 0, 0])?,
        error: false,
        output: space(alloc, &[])?,
        post: 0,
        done: 10,
        late: true,
    })?;
    records.push(Record {
        caller: 4_294_967_295,
        code: 1,
        input: space(alloc, &[2, 0, 0, 171])?,
        error: true,
        output: space(alloc, &[2, 0, 0, 172])?,
        post: 20,
        done: 18_446_744_073_709_551_615,
        late: false,
    })?;
    Ok(records)
}

#[test]
fn prints_journals(rt: HostRuntime) -> Result<(), Fail> {
    let alloc = rt.alloc();
    let pending = Pending {
        caller: 3,
        code: 17,
        input: space(alloc, &[2, 0, 0, 172])?,
        post: 60_000_000,
    };
    let whole = b"journal 0 type 0 bank room 4 turnaround 500 rate 60 errors yes
record 0 caller 0 code 16 ok post 0 done 10 late in 01000000 out -
record 1 caller 4294967295 code 1 error post 20 done 18446744073709551615 timely in 020000ab out 020000ac
pending caller 3 code 17 post 60000000 in 020000ac
end 0
";
    let mut out = Vec::new(alloc);
    put_journal(&mut out, &BANK, &records(alloc)?, Some(&pending))?;
    assert_eq!(rt; out.as_slice(), whole.as_slice());

    let empty = b"journal 255 type 5 cppc room 4096 turnaround 0 rate 0 errors no
end 255
";
    let mut out = Vec::new(alloc);
    put_journal(&mut out, &CPPC, &[], None)?;
    assert_eq!(rt; out.as_slice(), empty.as_slice());
    Ok(())
}

fn record_without_bytes(alloc: Global, post: u64, done: u64) -> Record {
    Record {
        caller: 0,
        code: 17,
        input: Bytes::new(alloc),
        error: false,
        output: Bytes::new(alloc),
        post,
        done,
        late: false,
    }
}

#[test]
fn a_full_journal_takes_no_more(rt: HostRuntime) -> Result<(), Fail> {
    let alloc = rt.alloc();
    let mut journal = Journal::new(alloc);
    for post in 0..4096 {
        journal.reserve()?;
        journal.append(record_without_bytes(alloc, post, post + 10));
    }
    assert_eq!(rt; journal.len(), 4096);
    assert_eq!(rt; journal.reserve(), Err(ReserveRefusal::JournalFull));
    assert_eq!(rt;
        journal.reserve_for(usize::MAX),
        Err(ReserveRefusal::JournalFull)
    );
    assert_eq!(rt; journal.reserve_for(0), Ok(()));
    assert_eq!(rt; journal.at(4095).done, 4105);
    assert_eq!(rt; journal.as_slice().len(), 4096);
    assert!(rt; journal.times()[0] == Times { post: 0, done: 10 });
    Ok(())
}

#[test]
fn a_new_journal_refuses_too_many(rt: HostRuntime) -> Result<(), Fail> {
    let mut journal = Journal::new(rt.alloc());
    assert_eq!(rt;
        journal.reserve_for(usize::MAX),
        Err(ReserveRefusal::JournalFull)
    );
    assert_eq!(rt; journal.reserve_for(4097), Err(ReserveRefusal::JournalFull));
    assert_eq!(rt; journal.reserve_for(4096), Ok(()));
    assert_eq!(rt; journal.len(), 0);
    Ok(())
}

#[test]
fn prints_a_late_record_and_a_pending_command(rt: HostRuntime) -> Result<(), Fail> {
    let alloc = rt.alloc();
    let mut journal = Journal::new(alloc);
    journal.reserve_for(2)?;
    journal.append(record_without_bytes(alloc, 0, 10));
    journal.append(Record {
        caller: 2,
        code: 16,
        input: space(alloc, &[1, 0, 0, 0])?,
        error: false,
        output: space(alloc, &[9, 0, 0, 0])?,
        post: 510,
        done: 520,
        late: true,
    });
    let pending = Pending {
        caller: 1,
        code: 17,
        input: space(alloc, &[9, 0, 0, 0])?,
        post: 1020,
    };
    let whole = b"journal 0 type 0 bank room 4 turnaround 500 rate 60 errors yes
record 0 caller 0 code 17 ok post 0 done 10 timely in - out -
record 1 caller 2 code 16 ok post 510 done 520 late in 01000000 out 09000000
pending caller 1 code 17 post 1020 in 09000000
end 0
";
    let lines = journal_lines(alloc, &BANK, &journal, Some(&pending))?;
    assert_eq!(rt; lines.as_slice(), whole.as_slice());
    assert_eq!(rt; earliest(&BANK.limits, journal.times()), 1020);
    Ok(())
}

#[test]
fn notes_and_commands_are_such_lists(rt: HostRuntime) -> Result<(), Fail> {
    let alloc = rt.alloc();
    let note = Note {
        post_at: 0,
        done_at: 1,
        looks: 5,
    };
    let mut notes = Notes::new(alloc);
    notes.reserve()?;
    notes.append(note);
    notes.push(Note { looks: 0, ..note })?;
    assert_eq!(rt; notes.len(), 2);
    assert_eq!(rt; notes.at(0).looks, 5);
    assert_eq!(rt;
        notes.as_slice(),
        [note, Note { looks: 0, ..note }].as_slice()
    );
    assert_eq!(rt; notes.reserve_for(4095), Err(ReserveRefusal::JournalFull));

    let mut commands = Commands::new(alloc);
    commands.push(Command {
        code: 17,
        input: space(alloc, &[1])?,
        error: true,
        output: space(alloc, &[2])?,
    })?;
    assert_eq!(rt; commands.at(0).output.as_slice(), [2].as_slice());
    Ok(())
}
