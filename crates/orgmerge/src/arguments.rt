//! The command line, by clap.
use crate::fault::Fault;
use clap::error::ErrorKind;
use clap::{Arg, ArgAction, ArgMatches, Command, Error};
use std::alloc::{AllocError, Global};
use std::env;

const BASE: &str = "The folder that both sides began with";

const OURS: &str = "The folder of our side";

const THEIRS: &str = "The folder of their side";

const RESULT: &str = "With --check: the folder of the result";

const TABLE: &str = "With --check: the table of the merge";

const REPORT: &str = "With --check: its report";

const CHECK: &str = "Check the account of a merge, and merge nothing";

const OUT: &str = "The folder for the result, which is made, or is empty";

const TABLE_FILE: &str = "A file for the table of the merge";

const ACTIVE: &str = "The active states, with commas between them";

const DONE: &str = "The done states, with commas between them";

const INCOMPLETE: &str =
    "'--check' takes the folders BASE, OURS, THEIRS and RESULT, and the files TABLE and REPORT";

const TOO_MANY: &str = "RESULT, TABLE and REPORT are given with '--check' alone";

const OUT_AND_CHECK: &str = "the argument '--check' cannot be used with '--out' or '--table'";

/// What the program is to do.
#[derive(Drop)]
pub(crate) enum Task {
    Merge {
        out: Option<String>,
        table: Option<String>,
    },
    Check {
        merged: String,
        table: String,
        report: String,
    },
}

/// What the words of the command line say.
#[derive(Drop)]
pub(crate) struct Arguments {
    pub(crate) base: String,
    pub(crate) ours: String,
    pub(crate) theirs: String,
    pub(crate) task: Task,
    /// The active states, with a comma between each two.
    pub(crate) todo: String,
    /// The done states, likewise.
    pub(crate) done: String,
}

/// The words of the command line, the first being the program's name.
pub(crate) fn given_words(rt: &HostRuntime) -> Result<Vec<String>, Fault> {
    let alloc = rt.alloc();
    match env::args(rt) {
        Ok(words) => Ok(words.collect(alloc)?),
        Err(_) => Err(Fault::Usage(String::from_str(alloc, "error: an argument isn't UTF-8")?)),
    }
}

/// The arguments that these words are. Help is a fault too: standard output holds the report alone.
pub(crate) fn read_words(alloc: Global, words: &[String]) -> Result<Arguments, Fault> {
    match parse(alloc, words) {
        Ok(arguments) => Ok(arguments),
        Err(error) => Err(usage(alloc, &error)),
    }
}

fn parse(alloc: Global, words: &[String]) -> Result<Arguments, Error> {
    let mut command = command(alloc)?;
    let matches = command.try_get_matches_from_mut(words)?;
    let task = asked(alloc, &mut command, &matches)?;
    Ok(Arguments {
        base: text(alloc, &matches, "BASE")?,
        ours: text(alloc, &matches, "OURS")?,
        theirs: text(alloc, &matches, "THEIRS")?,
        task,
        todo: text(alloc, &matches, "todo")?,
        done: text(alloc, &matches, "done")?,
    })
}

/// The value of an argument.
fn text(alloc: Global, matches: &ArgMatches<'_>, name: &str) -> Result<String, AllocError> {
    String::from_str(alloc, matches.get_str(name).unwrap_or(""))
}

/// The value of an argument that may be left out.
fn option_text(
    alloc: Global,
    matches: &ArgMatches<'_>,
    name: &str,
) -> Result<Option<String>, AllocError> {
    match matches.get_str(name) {
        Some(value) => Ok(Some(String::from_str(alloc, value)?)),
        None => Ok(None),
    }
}

/// Whether an argument is there.
fn is_given(matches: &ArgMatches<'_>, name: &str) -> bool {
    matches.get_str(name).is_some()
}

/// What the program is to do, if the words say it well.
fn asked(
    alloc: Global,
    command: &mut Command<'_>,
    matches: &ArgMatches<'_>,
) -> Result<Task, Error> {
    let checks = matches.get_str("check").unwrap_or("false") == "true";
    if !checks && is_given(matches, "RESULT") {
        return Err(command.error(ErrorKind::ArgumentConflict, TOO_MANY)?);
    }
    if checks && !is_given(matches, "REPORT") {
        return Err(command.error(ErrorKind::MissingRequiredArgument, INCOMPLETE)?);
    }
    if checks && (is_given(matches, "out") || is_given(matches, "table")) {
        return Err(command.error(ErrorKind::ArgumentConflict, OUT_AND_CHECK)?);
    }
    if checks {
        return Ok(Task::Check {
            merged: text(alloc, matches, "RESULT")?,
            table: text(alloc, matches, "TABLE")?,
            report: text(alloc, matches, "REPORT")?,
        });
    }
    Ok(Task::Merge {
        out: option_text(alloc, matches, "out")?,
        table: option_text(alloc, matches, "table")?,
    })
}

/// A folder or a file, by its place.
fn place<'a>(alloc: Global, name: &'a str, help: &'a str) -> Arg<'a> {
    Arg::new(alloc, name).help(help)
}

/// An option, which takes no value as yet.
fn option<'a>(alloc: Global, name: &'a str, help: &'a str) -> Arg<'a> {
    Arg::new(alloc, name).long(name).help(help)
}

/// States, which are these where the option isn't there.
fn states<'a>(alloc: Global, name: &'a str, help: &'a str, default: &'a str) -> Arg<'a> {
    option(alloc, name, help)
        .value_name("LIST")
        .default_value(default)
}

/// The command line, for clap.
fn command<'a>(alloc: Global) -> Result<Command<'a>, AllocError> {
    Command::new(alloc, "orgmerge")
        .arg(place(alloc, "BASE", BASE).required(true))?
        .arg(place(alloc, "OURS", OURS).required(true))?
        .arg(place(alloc, "THEIRS", THEIRS).required(true))?
        .arg(place(alloc, "RESULT", RESULT))?
        .arg(place(alloc, "TABLE", TABLE))?
        .arg(place(alloc, "REPORT", REPORT))?
        .arg(option(alloc, "out", OUT).value_name("DIR"))?
        .arg(option(alloc, "table", TABLE_FILE).value_name("FILE"))?
        .arg(states(alloc, "todo", ACTIVE, "TODO"))?
        .arg(states(alloc, "done", DONE, "DONE"))?
        .arg(option(alloc, "check", CHECK).action(ArgAction::SetTrue))
}

fn usage(alloc: Global, error: &Error) -> Fault {
    if error.kind() == ErrorKind::OutOfMemory {
        return Fault::Memory;
    }
    match format!(in alloc; "{error}") {
        Ok(text) => Fault::Usage(unended(text)),
        Err(_) => Fault::Memory,
    }
}

/// A text without the newline at its end.
fn unended(mut text: String) -> String {
    if text.ends_with('\n') {
        text.pop();
    }
    text
}
