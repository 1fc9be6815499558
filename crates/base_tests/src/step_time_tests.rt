//! Times of steps on worked numbers.
use step_time_bounds::{time_down, time_up};

#[test]
fn encloses_the_time(rt: HostRuntime) {
    // metres, speed at the entry, speed at the exit, ms rounded down, ms rounded up
    let cases = [
        (100, 0, 300, 66_666, 66_667),
        (100, 0, 800, 25_000, 25_000),
        (100, 0, 597, 33_500, 33_501),
        (100, 598, 0, 33_444, 33_445),
        (1000, 1, 0, 200_000_000, 200_000_000),
        (1, 12_000, 12_000, 8, 9),
    ];
    for (metres, v0, v1, down, up) in cases {
        assert!(rt;
            time_down(metres, v0, v1) == down,
            "{metres} m from {v0} to {v1}"
        );
        assert!(rt;
            time_up(metres, v0, v1) == up,
            "{metres} m from {v0} to {v1}"
        );
    }
}
