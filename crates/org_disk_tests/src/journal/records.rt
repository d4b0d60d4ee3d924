//! Which bytes are a record, and how a record is written.
use super::{ALL, Body, THREE, TWO, behind_gate, body_of, is_capture, joined};
use crate::disk::hold_row;
use org_fault::Fault;
use org_fixtures::{NEW, NEWEST, OLD};
use org_journal::{Malformed, decode, well_formed};
use std::alloc::Global;
use std::process::Abort;

// What bytes are.
enum Record {
    // the capture's, also with others after them
    Capture,
    // a well formed one
    Formed,
    // a record that is written as this journal's
    Written(&'static [u8]),
    // no well formed one
    Unformed,
    // none, also with one byte more after them
    Malformed,
}

// The entry of the capture in version 1, as it stands after the number of entries.
const ENTRY: &[u8] =
    b"\0\x09inbox.org\0\0\0\0\0\0\0\0\0\0\0\0\0\0\0\x10\0\0\0\0\0\0\0\x10* TODO Call Ann\n";

// A body, and what its bytes are.
type Row = (Body, Record);

static FORMED: &[Row] = &[
    // the versions are read, and version 3 is written
    ((&OLD, ALL, &[], b""), Record::Capture),
    ((&NEW, ALL, &[], b""), Record::Capture),
    ((&NEWEST, ALL, &[], b""), Record::Capture),
    ((&NEWEST, ALL, &[], b""), Record::Written(&NEWEST)),
    ((&THREE, ALL, &[], b""), Record::Written(&THREE)),
    // well formed journals, and others
    ((&TWO, ALL, &[], b""), Record::Formed),
    ((&TWO, ALL, &[(66, &[3])], b""), Record::Formed), // the patches touch
    // A patch that stands alone may have no bytes.
    (
        (&TWO, 58, &[(14, &[0x2b]), (41, &[1]), (57, &[0])], b""),
        Record::Formed,
    ),
    ((&OLD, 69, &[], b""), Record::Unformed),
    ((&OLD, 15, &[], b""), Record::Unformed),
    // two equal names, and two others
    (
        (&OLD, ALL, &[(14, &[106, 0, 0, 0, 2])], ENTRY),
        Record::Malformed,
    ),
    (
        (&OLD, ALL, &[(14, &[106, 0, 0, 0, 2]), (72, b"j")], ENTRY),
        Record::Formed,
    ),
];

static VERSION_1: &[Row] = &[
    ((&OLD, ALL, &[(3, &[0x4b])], b""), Record::Malformed), // a wrong letter
    ((&OLD, ALL, &[(4, &[0])], b""), Record::Malformed), // no version
    ((&OLD, ALL, &[(4, &[4])], b""), Record::Malformed),
    ((&OLD, ALL, &[(6, &[1])], b""), Record::Malformed), // a byte that is to be 0
    ((&OLD, ALL, &[(7, &[0xff; 8])], b""), Record::Malformed), // a size past the end
    ((&OLD, ALL, &[(14, &[56])], b""), Record::Malformed),
    ((&OLD, ALL, &[(14, &[54])], b""), Record::Malformed),
    ((&OLD, ALL, &[(15, &[0, 0, 2, 1])], b""), Record::Malformed), // 513 entries
    ((&OLD, ALL, &[(15, &[0xff; 4])], b""), Record::Malformed),
    ((&OLD, ALL, &[(27, b"txt")], b""), Record::Malformed), // inbox.txt
    // a patch that ends past the final length
    ((&OLD, ALL, &[(30, &[0xff; 8])], b""), Record::Malformed),
    // a file of 16,777,217 bytes
    (
        (&OLD, ALL, &[(38, &[0, 0, 0, 0, 1, 0, 0, 1])], b""),
        Record::Malformed,
    ),
    (
        (&OLD, ALL, &[(14, &[4, 0, 0, 0, 0])], b""),
        Record::Malformed,
    ), // no entry
];

static VERSION_2: &[Row] = &[
    // the second patch begins within the first
    ((&TWO, ALL, &[(66, &[2])], b""), Record::Malformed),
    // the second patch ends past the final length
    ((&TWO, ALL, &[(66, &[8])], b""), Record::Malformed),
    ((&TWO, ALL, &[(38, &[0, 0, 0, 0])], b""), Record::Malformed), // no patch
    ((&TWO, ALL, &[(38, &[0, 0, 0, 1])], b""), Record::Malformed), // one patch, and bytes left over
    (
        (&TWO, ALL, &[(38, &[0, 0, 3, 0xe9])], b""),
        Record::Malformed,
    ), // 1,001 patches
    // a file of 67,108,865 bytes
    (
        (&TWO, ALL, &[(30, &[0, 0, 0, 0, 4, 0, 0, 1])], b""),
        Record::Malformed,
    ),
    ((&TWO, ALL, &[(50, &[0xff; 8])], b""), Record::Malformed), // a patch of 2^64 - 1 bytes
    ((&TWO, ALL, &[(42, &[0xff; 8])], b""), Record::Malformed), // a patch at 2^64 - 1
    // of two patches one has no bytes
    (
        (&TWO, 75, &[(14, &[0x3c]), (74, &[0])], b""),
        Record::Malformed,
    ),
];

// A context of 32 bytes and one of 33, with the bytes after them.
const CONTEXT_32: &[u8] =
    b"\x20********************************\0\0\0\0\x01\0\0\0\0\0\0\0\x02\0\0\0\0\0\0\0\x01C";

const CONTEXT_33: &[u8] =
    b"\x21*********************************\0\0\0\0\x01\0\0\0\0\0\0\0\x02\0\0\0\0\0\0\0\x01C";

static VERSION_3: &[Row] = &[
    ((&THREE, 46, &[(14, &[0x56])], CONTEXT_32), Record::Formed),
    (
        (&THREE, 46, &[(14, &[0x57])], CONTEXT_33),
        Record::Malformed,
    ),
    // any old length
    ((&THREE, ALL, &[(38, &[0xff; 8])], b""), Record::Formed),
    ((&THREE, ALL, &[(38, &[0; 8])], b""), Record::Formed),
    // contexts that take more bytes, or less, than they have
    ((&THREE, ALL, &[(46, &[3])], b""), Record::Malformed),
    ((&THREE, ALL, &[(49, &[0])], b""), Record::Malformed),
    // the record ends within the second context
    ((&THREE, 50, &[(14, &[0x23])], b""), Record::Malformed),
    // it is no record of version 2
    ((&THREE, ALL, &[(4, &[2])], b""), Record::Malformed),
    // a file of 67,108,865 bytes
    (
        (&THREE, ALL, &[(30, &[0, 0, 0, 0, 4, 0, 0, 1])], b""),
        Record::Malformed,
    ),
];

fn is_refused(alloc: Global, bytes: &[u8]) -> bool {
    !well_formed(bytes) && matches!(decode(alloc, bytes), Err(Fault::Refused(Malformed)))
}

fn is_read(alloc: Global, bytes: &[u8]) -> bool {
    well_formed(bytes) && matches!(decode(alloc, bytes), Ok(record) if is_capture(&record))
}

// Whether the record of these bytes is written as those.
fn is_written(rt: &impl Abort, alloc: Global, bytes: &[u8], expected: &[u8]) -> bool {
    if bytes.len() < 5 || bytes[4] != 3 {
        return false;
    }
    let record = decode(alloc, bytes).expect(rt, "no record");
    record.encode(alloc).expect(rt, "memory").as_slice() == expected
}

fn is_as_said(rt: &impl Abort, alloc: Global, bytes: &[u8], record: &Record) -> bool {
    match record {
        Record::Capture => {
            is_read(alloc, bytes) && is_read(alloc, &joined(rt, alloc, bytes, behind_gate(&OLD)))
        }
        Record::Formed => well_formed(bytes),
        Record::Written(journal) => is_written(rt, alloc, bytes, behind_gate(journal)),
        Record::Unformed => !well_formed(bytes),
        Record::Malformed => {
            is_refused(alloc, bytes) && is_refused(alloc, &joined(rt, alloc, bytes, &[0x2a]))
        }
    }
}

// Stops the test where a row isn't as it says.
fn hold_rows(rt: &impl Abort, alloc: Global, rows: &[Row]) {
    for (i, (body, record)) in rows.iter().enumerate() {
        let bytes = body_of(rt, alloc, body);
        hold_row(rt, is_as_said(rt, alloc, &bytes, record), i);
    }
}

#[test]
fn records(rt: HostRuntime) {
    hold_rows(&rt, rt.alloc(), FORMED);
}

#[test]
fn records_of_version_1(rt: HostRuntime) {
    hold_rows(&rt, rt.alloc(), VERSION_1);
}

#[test]
fn records_of_version_2(rt: HostRuntime) {
    hold_rows(&rt, rt.alloc(), VERSION_2);
}

#[test]
fn records_of_version_3(rt: HostRuntime) {
    hold_rows(&rt, rt.alloc(), VERSION_3);
}
