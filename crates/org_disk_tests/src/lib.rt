//! Tests of the crates that know disks and no outlines: org_disk, org_folder, org_journal and
//! org_fileset. This crate has nothing else.
#![tactic(auto)]

#[cfg(test)]
mod disk;
#[cfg(test)]
mod fileset;
#[cfg(test)]
mod folder;
#[cfg(test)]
mod journal;
