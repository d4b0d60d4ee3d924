//! How durations are printed.
use org_stamp::duration;

// Minutes, the least count of characters for the hours, and the duration.
const DURATIONS: &[(u64, usize, &str)] = &[
    (90, 2, " 1:30"),
    (0, 1, "0:00"),
    (0, 2, " 0:00"),
    (6000, 2, "100:00"),
    (605, 2, "10:05"),
    (u64::MAX, 1, "307445734561825860:15"),
];

#[test]
fn durations(rt: HostRuntime) {
    for (minutes, width, text) in DURATIONS {
        let found = duration(rt.alloc(), *minutes, *width).expect(&rt, "memory");
        assert!(rt; found.as_slice() == text.as_bytes(), "{text}");
    }
}
