//! The earliest post by the limits of a subspace.
use rate_limit::{Limits, Times, earliest};

fn earliest_of(turnaround: u32, per_minute: u32, times: &[Times]) -> u128 {
    let limits = Limits {
        turnaround,
        per_minute,
    };
    earliest(&limits, times)
}

#[test]
fn the_earliest_post(rt: HostRuntime) {
    let first = Times { post: 0, done: 0 };
    let second = Times {
        post: 1000,
        done: 1000,
    };
    let last = Times {
        post: 0,
        done: u64::MAX,
    };
    assert_eq!(rt; earliest_of(0, 2, &[]), 0);
    assert_eq!(rt; earliest_of(0, 2, &[first]), 0);
    assert_eq!(rt; earliest_of(0, 2, &[first, second]), 60_000_000);
    assert_eq!(rt; earliest_of(500, 0, &[first, second]), 1500);
    assert_eq!(rt; earliest_of(500, 0, &[last]), 18_446_744_073_709_552_115);
}
