//! The Bank as a device.
use pcc_exec::{Bank, ExecStatus, Executor};

#[test]
fn a_bank_takes_spaces_in_and_gives_them_out(rt: HostRuntime) {
    let mut bank = Bank::new(rt.alloc(), 4).expect(&rt, "memory");
    let mut space = [1, 2, 3, 4];
    assert!(rt; bank.room() == 4);
    assert!(rt; bank.exec(0x10, &mut space) == ExecStatus::Good);
    assert!(rt; space == [0, 0, 0, 0]);
    assert!(rt; bank.exec(0x11, &mut space) == ExecStatus::Good);
    assert!(rt; space == [1, 2, 3, 4]);
    space = [5, 6, 7, 8];
    assert!(rt; bank.exec(0x12, &mut space) == ExecStatus::Bad);
    assert!(rt; space == [5, 6, 7, 8]);
    assert!(rt; bank.exec(0x11, &mut space) == ExecStatus::Good);
    assert!(rt; space == [1, 2, 3, 4]);
}
