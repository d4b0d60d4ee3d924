//! What the tests of a store and of lines share.
ghost use Rattle.std.specs.Prelude.{◌≡◌, Ok};

use org_fixtures::two_files;
use org_test_disks::MemoryDisk;
use std::process::Abort;
use std::test::Fail;

// What a step gives, which has to go well. Where it doesn't the test stops here and lets go of
// nothing, so a function that owns a disk or a store has no exit for each of its steps, which its
// proof would have to follow.
pub fn must<T>(rt: &impl Abort, given: Result<T, Fail>) -> T
    ensures { given ≡ Ok result }
{
    match given {
        Ok(value) => value,
        Err(_) => panic!(rt; "a step of the test failed"),
    }
}

// A disk with these texts of a.org and b.org.
pub fn two(rt: &(impl Abort + AllocGlobal), a: &str, b: &str) -> MemoryDisk {
    must(rt, two_files(rt.alloc(), a.as_bytes(), b.as_bytes()))
}

// A disk that holds what a crash leaves of this one.
pub fn image(rt: &(impl Abort + AllocGlobal), disk: &MemoryDisk) -> MemoryDisk {
    disk.image(rt.alloc()).expect(rt, "memory")
}
