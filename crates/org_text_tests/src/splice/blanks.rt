//! Blanks round a value.
use org_splice::blanks::{behind_blanks, blank_count, trimmed, trimmed_end};

fn are_found() -> bool {
    trimmed(b" \tA\rB\r \t\r") == b"A\rB".as_slice()
        && trimmed_end(b" A ") == b" A".as_slice()
        && behind_blanks(b"\r A") == b"\r A".as_slice()
        && blank_count(b"\t A") == 2
}

#[test]
fn blanks_round_a_value(rt: HostRuntime) {
    assert!(rt; are_found());
}
