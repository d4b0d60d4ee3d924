//! The folders and files that are read and written.
use crate::fault::Fault;
use org_disk::FileName;
use org_merge::{Made, Source};
use std::alloc::{AllocError, Global};
use std::{fs, io, str};

/// A file's name and its bytes.
#[derive(Drop)]
pub(crate) struct FileBytes {
    name: String,
    bytes: Vec<u8>,
}

/// That a path can't be read.
fn unread(alloc: Global, path: &str, why: io::Error) -> Fault {
    match String::from_str(alloc, path) {
        Ok(path) => Fault::Unread(path, why),
        Err(_) => Fault::Memory,
    }
}

/// That a path can't be written.
fn unwritten(alloc: Global, path: &str, why: io::Error) -> Fault {
    match String::from_str(alloc, path) {
        Ok(path) => Fault::Unwritten(path, why),
        Err(_) => Fault::Memory,
    }
}

/// The names of a folder's Org files.
fn org_names(rt: &HostRuntime, folder: &str) -> io::Result<Vec<String>> {
    let mut names = Vec::new(rt.alloc());
    for entry in fs::read_dir(rt, folder)? {
        let name = String::from_str(rt.alloc(), entry?.file_name())?;
        if FileName::accepts(name.as_str()) {
            names.push(name)?;
        }
    }
    names.sort()?;
    Ok(names)
}

/// Whether a folder holds nothing.
fn is_empty(rt: &HostRuntime, folder: &str) -> io::Result<bool> {
    Ok(fs::read_dir(rt, folder)?.next().is_none())
}

/// The bytes of a file.
pub(crate) fn read_file(rt: &HostRuntime, path: &str) -> Result<Vec<u8>, Fault> {
    match fs::read(rt, path) {
        Ok(bytes) => Ok(bytes),
        Err(why) => Err(unread(rt.alloc(), path, why)),
    }
}

/// The Org files of a folder.
pub(crate) fn read_folder(rt: &HostRuntime, folder: &str) -> Result<Vec<FileBytes>, Fault> {
    let alloc = rt.alloc();
    let names = match org_names(rt, folder) {
        Ok(names) => names,
        Err(why) => return Err(unread(alloc, folder, why)),
    };
    let mut files = Vec::with_capacity(alloc, names.len())?;
    for name in names {
        let path = format!(in alloc; "{folder}/{name}")?;
        let bytes = read_file(rt, path.as_str())?;
        files.push(FileBytes { name, bytes })?;
    }
    Ok(files)
}

/// Files, as they are merged.
pub(crate) fn names_and_texts<'f>(
    alloc: Global,
    files: &'f [FileBytes],
) -> Result<Vec<Source<'f>>, AllocError> {
    let mut out = Vec::with_capacity(alloc, files.len())?;
    for file in files {
        out.push(Source {
            name: file.name.as_bytes(),
            text: file.bytes.as_slice(),
        })?;
    }
    Ok(out)
}

/// Writes a file.
pub(crate) fn write_file(rt: &HostRuntime, path: &str, bytes: &[u8]) -> Result<(), Fault> {
    match fs::write(rt, path, bytes) {
        Ok(()) => Ok(()),
        Err(why) => Err(unwritten(rt.alloc(), path, why)),
    }
}

/// Makes a folder, or finds that it is empty.
fn make_folder(rt: &HostRuntime, folder: &str) -> Result<(), Fault> {
    let why = match fs::create_dir(rt, folder) {
        Ok(()) => return Ok(()),
        Err(why) => why,
    };
    match is_empty(rt, folder) {
        Ok(true) => Ok(()),
        Ok(false) => Err(Fault::NotEmpty(String::from_str(rt.alloc(), folder)?)),
        Err(_) => Err(unwritten(rt.alloc(), folder, why)),
    }
}

/// Writes the files of a merge into a folder, which is made, or is empty.
pub(crate) fn write_folder(rt: &HostRuntime, folder: &str, files: &[Made]) -> Result<(), Fault> {
    let alloc = rt.alloc();
    make_folder(rt, folder)?;
    for file in files {
        let name = str::from_utf8(file.name.as_slice()).unwrap_or("");
        let path = format!(in alloc; "{folder}/{name}")?;
        write_file(rt, path.as_str(), file.text.as_slice())?;
    }
    Ok(())
}
