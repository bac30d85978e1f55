//! What a bookkeeper of a channel keeps of a command.
use channel_core::{CallRefusal, Caller, History, make_ready, too_soon};
use pcc_io::LineClock;
use pcc_journal::ReserveRefusal;
use rate_limit::Limits;

#[test]
fn a_command_is_posted_given_up_and_drained(rt: HostRuntime) {
    let alloc = rt.alloc();
    let limits = Limits {
        turnaround: 5,
        per_minute: 0,
    };
    let mut caller = Caller::new(limits, LineClock::new(0, 10));
    let mut history = History::new(alloc);
    let mut ready = make_ready(&mut history, alloc, 0, 8, 16, &[1]).expect(&rt, "memory");
    ready.fill(&[2, 3]);
    let post = caller.read();
    history.mark_post(ready.fly(7, &post, &[9; 8]));
    assert!(rt; history.in_flight() && !history.given_up() && history.posts() == 1);
    history.mark_late(4);
    history.mark_late(6);
    assert!(rt; history.given_up());
    let done = caller.read();
    assert!(rt; history.mark_done(true, &[5; 8], &done) == 0);
    let record = history.journal().at(0);
    assert!(rt; record.input.as_slice() == [2, 3, 9, 9, 9, 9, 9, 9].as_slice());
    assert!(rt; record.output.as_slice() == [5; 8].as_slice() && record.error && record.late);
    let note = history.notes().at(0);
    assert!(rt; note.post_at == 0 && note.done_at == 1 && note.looks == 4);
    assert!(rt;
        too_soon(&limits, history.journal().times(), 14)
            == Some(CallRefusal::TooSoon {
                now: 14,
                earliest: 15
            })
    );
    assert!(rt;
        history.reserve() == Ok(()) && history.reserve() != Err(ReserveRefusal::JournalFull)
    );
}
