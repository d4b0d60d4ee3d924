//! Disks in memory.
use crate::names::file_name;
use org_disk::{Disk, FileName};
use org_test_disks::{MemoryDisk, Outcome};
use std::alloc::Global;
use std::test::Fail;

/// What a crash may leave of the call that it meets, one of each kind. The gate of a journal is a
/// byte, which may come out open, closed, or as another byte.
pub const OUTCOMES: [Outcome; 7] = [
    Outcome::All,
    Outcome::None,
    Outcome::Front(0),
    Outcome::Front(1),
    Outcome::Fill(0),
    Outcome::Fill(1),
    Outcome::Fill(0x55),
];

/// A disk that holds these files.
pub fn disk_with(alloc: Global, files: &[(&str, &[u8])]) -> Result<MemoryDisk, Fail> {
    let mut disk = MemoryDisk::new(alloc);
    for (name, bytes) in files {
        disk.set(&file_name(alloc, name)?, bytes)?;
    }
    Ok(disk)
}

/// What a file holds.
pub fn bytes_of<D: Disk>(alloc: Global, disk: &mut D, name: &FileName) -> Result<Vec<u8>, Fail> {
    let length = disk.length(name)?;
    let mut bytes = vec![in alloc; 0; length as usize]?;
    disk.read_at(name, 0, &mut bytes)?;
    Ok(bytes)
}

/// A disk with these texts of a.org and b.org.
pub fn two_files(alloc: Global, a: &[u8], b: &[u8]) -> Result<MemoryDisk, Fail> {
    disk_with(alloc, &[("a.org", a), ("b.org", b)])
}
