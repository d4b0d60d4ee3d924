//! The bytes of a record, in version 3 of the journal's format: numbers big-endian, names after
//! their lengths, patches after their counts.
//!
//! The gate's byte isn't part of them. Versions 1 and 2 are read and never written.
ghost use Rattle.std.specs.Prelude.{◌≡◌, ◌≤◌, ◌++◌, List, ℕ, length, take, drop, Some, IfSome, OnOk, IfOk};
ghost use Rattle.std.specs.List.{flat_map, AllByRecursion};
ghost use Rattle.std.specs.Option.{option_copied};
ghost use Rattle.byteorder.specs.Endian.{big_bytes};
ghost use Rattle.org_journal.specs.declared.record.Version.TheVariants.{Three};
ghost use Rattle.org_journal.specs.Record.{patch_bytes, context_bytes, before_bytes, IsBefore, most_context, entry_bytes, record_bytes, journal_bytes, IsEntry, IsWellFormed};
ghost use Rattle.org_journal.specs.Reading.{journal_at};

use crate::reading::HEADER;
use crate::record::{Before, Entry, Record};
use byteorder::{BigEndian, ByteOrder};
use org_splice::Patch;
use std::alloc::{AllocError, Global};

// Where the record's size stands in the header.
const SIZE_AT: usize = 7;

fn put_u16(out: &mut Vec<u8>, number: u16) -> Result<(), AllocError>
    ensures { OnOk result (out.new.items ≡ out.old.items ++ big_bytes 2 number) }
{
    let mut bytes = [0; 2];
    BigEndian::write_u16(&mut bytes, number);
    out.extend_from_slice(&bytes)
}

fn put_u32(out: &mut Vec<u8>, number: u32) -> Result<(), AllocError>
    ensures { OnOk result (out.new.items ≡ out.old.items ++ big_bytes 4 number) }
{
    let mut bytes = [0; 4];
    BigEndian::write_u32(&mut bytes, number);
    out.extend_from_slice(&bytes)
}

fn put_u64(out: &mut Vec<u8>, number: u64) -> Result<(), AllocError>
    ensures { OnOk result (out.new.items ≡ out.old.items ++ big_bytes 8 number) }
{
    let mut bytes = [0; 8];
    BigEndian::write_u64(&mut bytes, number);
    out.extend_from_slice(&bytes)
}

fn put_patch(out: &mut Vec<u8>, patch: &Patch) -> Result<(), AllocError>
    ensures { OnOk result (out.new.items ≡ out.old.items ++ patch_bytes patch.now) }
{
    put_u64(out, patch.from)?;
    put_u64(out, patch.bytes.len() as u64)?;
    out.extend_from_slice(patch.bytes.as_slice())
}

fn put_patches(out: &mut Vec<u8>, patches: &[Patch]) -> Result<(), AllocError>
    ensures { OnOk result (out.new.items ≡ out.old.items ++ flat_map patch_bytes patches.now) }
{
    for patch in patches {
        put_patch(out, patch)?;
    }
    Ok(())
}

fn put_context(out: &mut Vec<u8>, context: &[u8]) -> Result<(), AllocError>
    requires { length context.now ≤ most_context }
    ensures { OnOk result (out.new.items ≡ out.old.items ++ context_bytes context.now) }
{
    out.push(context.len() as u8)?;
    out.extend_from_slice(context)
}

fn put_before(out: &mut Vec<u8>, before: Option<&Before>) -> Result<(), AllocError>
    requires { IfSome (option_copied before) IsBefore }
    ensures { OnOk result
        (out.new.items ≡ out.old.items ++ before_bytes (option_copied before.entry)) }
{
    let Some(before) = before else {
        return Ok(());
    };
    put_u64(out, before.length)?;
    put_context(out, before.leading.as_slice())?;
    put_context(out, before.trailing.as_slice())
}

fn put_entry(out: &mut Vec<u8>, entry: &Entry) -> Result<(), AllocError>
    requires { IsEntry Three entry.now }
    ensures { OnOk result (out.new.items ≡ out.old.items ++ entry_bytes Three entry.now) }
{
    let name = entry.name.as_str();
    put_u16(out, name.len() as u16)?;
    out.extend_from_slice(name.as_bytes())?;
    put_u64(out, entry.length)?;
    put_before(out, entry.before.as_ref())?;
    let patches = entry.patches.as_slice();
    put_u32(out, patches.len() as u32)?;
    put_patches(out, patches)
}

fn put_entries(out: &mut Vec<u8>, entries: &[Entry]) -> Result<(), AllocError>
    requires { AllByRecursion (IsEntry Three) entries.now }
    ensures { OnOk result (out.new.items ≡ out.old.items ++ flat_map (entry_bytes Three)
        entries.now) }
{
    for entry in entries {
        put_entry(out, entry)?;
    }
    Ok(())
}

// Writes the record's size into the header in front of it.
fn set_size(bytes: &mut [u8], size: u64)
    requires { 15 ≤ length bytes.old }
    ensures { bytes.new ≡ take 7 bytes.old ++ (big_bytes 8 size ++ drop 15 bytes.old) }
{
    BigEndian::write_u64(&mut bytes[SIZE_AT..], size);
}

// The bytes of patches.
fn size_of(patches: &[Patch]) -> usize {
    let mut size: usize = 0;
    for patch in patches {
        size = size.saturating_add(patch.bytes.len());
    }
    size
}

// Room for a record: half more than its patches take, which is never touched. The C library's
// allocator keeps freed memory up to twice the largest block that it has given back, and so what
// this record and its patches took for the next ones; else it is cleared for each again.
fn room_for(entries: &[Entry]) -> usize {
    let mut size: usize = 0;
    for entry in entries {
        size = size.saturating_add(size_of(entry.patches.as_slice()));
    }
    size.saturating_add(size / 2)
}

impl Record {
    /// The journal's bytes after its gate, in version 3 of the format.
    ///
    /// # Errors
    ///
    /// `AllocError`.
    pub fn encode(&self, alloc: Global) -> Result<Vec<u8>, AllocError>
        requires { IsWellFormed Three self.now }
        ensures bytes { IfOk result (λ bytes. bytes.items ≡ journal_bytes Three self.now) }
        // The record is read again from them, whatever follows.
        ensures read { IfOk result (λ bytes. (rest : List ℕ)
            → journal_at (bytes.items ++ rest) ≡ Some self.now) }
    {
        let entries = self.as_slice();
        let mut out = Vec::new(alloc);
        // Where there is no such room, the bytes take what they need.
        let _ = out.reserve(room_for(entries));
        out.extend_from_slice(b"ORGJ\x03\x00\x00")?;
        put_u64(&mut out, 0)?;
        put_u32(&mut out, entries.len() as u32)?;
        put_entries(&mut out, entries)?;
        let size = (out.len() - HEADER) as u64;
        set_size(&mut out, size);
        Ok(out)
    }
}
