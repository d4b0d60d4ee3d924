//! `orgmerge BASE OURS THEIRS [--out DIR] [--table FILE] [--todo LIST] [--done LIST]`: merges three
//! folders of Org files, and writes the result into a new folder. With `--check` it checks the
//! account of a merge. Standard output gets the report, a line an event.
#![tactic(auto)]

mod arguments;
mod fault;
mod folders;

use arguments::{Arguments, Task, given_words, read_words};
use fault::Fault;
use folders::{FileBytes, names_and_texts, read_file, read_folder, write_file, write_folder};
use org_merge::{Merged, check, merge};
use org_outline::States;
use std::alloc::{AllocError, Global};
use std::io::Write;
use std::process::ExitCode;

/// The status of a merge with marks in its result.
const MARKED: u8 = 1;

/// The status of a run that merged nothing.
const FAILED: u8 = 2;

fn main(rt: HostRuntime) -> ExitCode {
    match run(&rt) {
        Ok(status) => ExitCode::from(status),
        Err(fault) => {
            // Where standard error can't be written either, the status alone tells.
            let _ = eprintln!(rt; "{fault}");
            ExitCode::from(FAILED)
        }
    }
}

/// The words between the commas of a list.
fn between_commas(alloc: Global, list: &str) -> Result<Vec<&str>, AllocError> {
    list.split(',').collect(alloc)
}

fn states_of(alloc: Global, arguments: &Arguments) -> Result<States, Fault> {
    let todo = between_commas(alloc, &arguments.todo)?;
    let done = between_commas(alloc, &arguments.done)?;
    match States::new(alloc, todo.as_slice(), done.as_slice()) {
        Ok(states) => Ok(states),
        Err(org_fault::Fault::OutOfMemory) => Err(Fault::Memory),
        Err(org_fault::Fault::Refused(_)) => Err(Fault::BadStates),
    }
}

/// The files of the three folders.
#[derive(Drop)]
struct Sides {
    base: Vec<FileBytes>,
    ours: Vec<FileBytes>,
    theirs: Vec<FileBytes>,
}

fn run(rt: &HostRuntime) -> Result<u8, Fault> {
    let alloc = rt.alloc();
    let words = given_words(rt)?;
    let arguments = read_words(alloc, &words)?;
    let states = states_of(alloc, &arguments)?;
    let folders = Sides {
        base: read_folder(rt, &arguments.base)?,
        ours: read_folder(rt, &arguments.ours)?,
        theirs: read_folder(rt, &arguments.theirs)?,
    };
    match &arguments.task {
        Task::Merge { out, table } => {
            let merged = merge_folders(alloc, &folders, &states)?;
            write_merged(rt, &merged, out, table)
        }
        Task::Check {
            merged,
            table,
            report,
        } => {
            let merged = read_folder(rt, merged)?;
            let table = read_file(rt, table)?;
            let report = read_file(rt, report)?;
            check_folders(alloc, &folders, &merged, &table, &report, &states)
        }
    }
}

fn merge_folders(alloc: Global, folders: &Sides, states: &States) -> Result<Merged, Fault> {
    let base = names_and_texts(alloc, &folders.base)?;
    let ours = names_and_texts(alloc, &folders.ours)?;
    let theirs = names_and_texts(alloc, &folders.theirs)?;
    Ok(merge(
        alloc,
        base.as_slice(),
        ours.as_slice(),
        theirs.as_slice(),
        states,
    )?)
}

fn check_folders(
    alloc: Global,
    folders: &Sides,
    merged: &[FileBytes],
    table: &[u8],
    report: &[u8],
    states: &States,
) -> Result<u8, Fault> {
    let base = names_and_texts(alloc, &folders.base)?;
    let ours = names_and_texts(alloc, &folders.ours)?;
    let theirs = names_and_texts(alloc, &folders.theirs)?;
    let merged = names_and_texts(alloc, merged)?;
    check(
        alloc,
        base.as_slice(),
        ours.as_slice(),
        theirs.as_slice(),
        merged.as_slice(),
        table,
        report,
        states,
    )?;
    Ok(0)
}

/// Writes what was merged: the files, the table, and at last the report.
fn write_merged(
    rt: &HostRuntime,
    merged: &Merged,
    out: &Option<String>,
    table: &Option<String>,
) -> Result<u8, Fault> {
    if let Some(folder) = out {
        write_folder(rt, folder, &merged.files)?;
    }
    if let Some(name) = table {
        write_file(rt, name, &merged.table)?;
    }
    let mut output = rt.stdout();
    if output.write_all(&merged.report).is_err() || output.flush().is_err() {
        return Err(Fault::Output);
    }
    Ok(if merged.has_conflict { MARKED } else { 0 })
}
