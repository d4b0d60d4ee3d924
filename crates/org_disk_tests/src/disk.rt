//! What no clause says: which image an outcome picks, which call fails, and that each call can
//! succeed.
//!
//! What owns a disk or a set of files drops it by name: left to the end of a function, each of its
//! parts is dropped there, which the function's proof would have to follow.
ghost use Rattle.std.specs.Prelude.{◌≡◌, Ok};

mod fuses;
mod memory;
mod names;

use org_disk::{Disk, FileName};
use org_fixtures::bytes_of;
use org_test_disks::MemoryDisk;
use std::alloc::Global;
use std::process::Abort;
use std::test::Fail;

// What a step gives, which has to go well. Where it doesn't the test stops here and lets go of
// nothing, so a function that owns a disk has no exit for each of its steps, which its proof would
// have to follow.
pub fn must<T>(rt: &impl Abort, given: Result<T, Fail>) -> T
    ensures { given ≡ Ok result }
{
    match given {
        Ok(value) => value,
        Err(_) => panic!(rt; "a step of the test failed"),
    }
}

// Whether the names are these texts, in order.
pub fn are_texts(names: &[FileName], texts: &[&str]) -> bool {
    if names.len() != texts.len() {
        return false;
    }
    for i in 0..names.len() {
        if names[i].as_str() != texts[i] {
            return false;
        }
    }
    true
}

// Stops the test where this isn't so. What asserts holds nothing else, and what holds a disk
// asserts nothing.
pub fn hold(rt: &impl Abort, is_so: bool) {
    assert!(rt; is_so);
}

// Stops the test where a row, counted from 0, isn't as it says.
pub fn hold_row(rt: &impl Abort, is_so: bool, row: usize) {
    assert!(rt; is_so, "row {row}");
}

// The name of a file.
pub fn name_of(rt: &impl Abort, alloc: Global, text: &str) -> FileName
    ensures { result ≡ text.now }
{
    FileName::new(alloc, text).expect(rt, "no name")
}

// Whether a file of the disk holds this text.
pub fn holds(
    rt: &impl Abort,
    alloc: Global,
    disk: &mut MemoryDisk,
    name: &FileName,
    text: &[u8],
) -> bool {
    must(rt, bytes_of(alloc, disk, name)).as_slice() == text
}

// Whether the disk's image holds this text.
fn leaves(rt: &impl Abort, alloc: Global, disk: &MemoryDisk, name: &FileName, text: &str) -> bool {
    let mut image = disk.image(alloc).expect(rt, "memory");
    let is_held = holds(rt, alloc, &mut image, name, text.as_bytes());
    drop(image);
    is_held
}

// From nothing: `abc` on the disk, then `aXY`, `aX`. Whether all six calls are made.
fn sync_write_cut<D: Disk>(disk: &mut D, name: &FileName) -> bool {
    disk.cut(name, 0).is_ok()
        && disk.write_at(name, 0, b"abc").is_ok()
        && disk.sync(name).is_ok()
        && disk.write_at(name, 1, b"XY").is_ok()
        && disk.cut(name, 2).is_ok()
        && disk.sync(name).is_ok()
}
