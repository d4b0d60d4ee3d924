//! The headings of some files that a name means.
//!
//! A name means the headings that it fits in the first way in which it fits any. So a whole title
//! is one name, though others have it in them.
ghost use Rattle.std.specs.Prelude.{◌≡◌, ◌++◌, IfOk, OnOk};
ghost use Rattle.orgs_names.specs.Naming.{fitting, fitting_in, meant, or_else};

use crate::fitting::{Way, fits};
use crate::name::Name;
use orgs_entries::Entries;
use std::alloc::{AllocError, Global};

/// A heading of some files.
#[derive(Clone, Copy, Debug, PartialEq, Eq)]
pub struct Place {
    /// The number of its file, from 0 on.
    pub file: usize,
    /// Its number in document order, from 0 on.
    pub heading: usize,
}

// Puts the headings of a file that a name fits in a way after others.
fn push_fitting(
    places: &mut Vec<Place>,
    way: Way,
    name: &Name,
    file: usize,
    entries: &Entries<'_>,
) -> Result<(), AllocError>
    ensures { OnOk result (places.new.items
        ≡ places.old.items ++ fitting_in way name.now file entries.now) }
{
    let alloc = *places.allocator();
    for heading in 0..entries.count() {
        if fits(alloc, way, name, entries, heading)? {
            places.push(Place { file, heading })?;
        }
    }
    Ok(())
}

// The headings of all files that a name fits in a way, in the files' order and that of their texts.
fn fitting(
    alloc: Global,
    way: Way,
    name: &Name,
    files: &[Entries<'_>],
) -> Result<Vec<Place>, AllocError>
    ensures { IfOk result (λ places. places.items ≡ fitting way name.now files.now) }
{
    let mut places = Vec::new(alloc);
    for file in 0..files.len() {
        push_fitting(&mut places, way, name, file, &files[file])?;
    }
    Ok(places)
}

// The places, or where there are none the headings of all files that a name fits in a way.
fn or_fitting(
    places: Vec<Place>,
    way: Way,
    name: &Name,
    files: &[Entries<'_>],
) -> Result<Vec<Place>, AllocError>
    ensures { IfOk result (λ found. found.items
        ≡ or_else places.items (fitting way name.now files.now)) }
{
    if !places.is_empty() {
        return Ok(places);
    }
    fitting(*places.allocator(), way, name, files)
}

/// The headings that a name means, in the files' order and that of their texts.
///
/// # Errors
///
/// `AllocError`.
pub fn named(alloc: Global, name: &Name, files: &[Entries<'_>]) -> Result<Vec<Place>, AllocError>
    ensures { IfOk result (λ places. places.items ≡ meant name.now files.now) }
{
    let places = fitting(alloc, Way::Path, name, files)?;
    let places = or_fitting(places, Way::Title, name, files)?;
    let places = or_fitting(places, Way::Part, name, files)?;
    or_fitting(places, Way::End, name, files)
}
