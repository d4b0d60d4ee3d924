//! Which states are accepted.
use org_fault::Fault;
use org_outline::{BadStates, States};

const SIXTEEN: &[&str] = &[
    "a", "b", "c", "d", "e", "f", "g", "h", "i", "j", "k", "l", "m", "n", "o", "p",
];

const SIXTEEN_DONE: &[&str] = &[
    "A", "B", "C", "D", "E", "F", "G", "H", "I", "J", "K", "L", "M", "N", "O", "P",
];

const SEVENTEEN_DONE: &[&str] = &[
    "A", "B", "C", "D", "E", "F", "G", "H", "I", "J", "K", "L", "M", "N", "O", "P", "Q",
];

const BAD: Option<Fault<BadStates>> = Some(Fault::Refused(BadStates));

/// Active states, done states, and why they are refused, if they are.
const ROWS: &[(&[&str], &[&str], Option<Fault<BadStates>>)] = &[
    (&["abcdefghijklmnopqrstuvwx"], &["D-1", "_"], None),
    (SIXTEEN, SIXTEEN_DONE, None),
    (SIXTEEN, SEVENTEEN_DONE, BAD),
    (&["abcdefghijklmnopqrstuvwxy"], &["DONE"], BAD),
    (&[], &["DONE"], BAD),
    (&["TODO"], &[], BAD),
    (&["TODO"], &["TODO"], BAD),
    (&["A", "B", "A"], &["D"], BAD),
    (&[""], &["D"], BAD),
    (&["A B"], &["D"], BAD),
];

#[test]
fn accepted_states(rt: HostRuntime) {
    for (i, (active, done, fault)) in ROWS.iter().enumerate() {
        assert!(rt;
            States::new(rt.alloc(), active, done).err() == *fault,
            "row {i}"
        );
    }
}
