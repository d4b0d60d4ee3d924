//! Command lines: fields between tabs, read as one of the commands that FORMATS names.
//!
//! Nothing but the line decides which command it is: no file is looked at.
ghost use Rattle.std.specs.Prelude.{◌∷◌, map};
ghost use Rattle.std.specs.Option.{option_map, option_and_then};
ghost use Rattle.org_serve.specs.Grammar.{file_of, path_of, show_of, capture_of, refile_of, todo_of, clock_in_of, clock_out_of, clocked_of, archive_of, edit_of, command_of, command_of_fields, Parses};

use crate::fault::BadLine;
use crate::field::{file, is, path, place, position, target, text};
use crate::moment::moment;
use memchr::memchr;
use org_disk::FileName;
use org_fault::Fault;
use org_outline::Path;
use org_store::{Archive, Capture, Change, ClockIn, Command, Edit, Question, Refile, Todo};
use std::alloc::Global;

/// The most fields of a command, which a capture has.
const MOST_FIELDS: usize = 7;

/// The command that a line is, given without its newline.
///
/// # Errors
///
/// - `BadLine`: exactly where it is none.
/// - `OutOfMemory`.
///
/// # Examples
///
/// ```
/// let edit = read_command(alloc, b"edit\ta.org\t2\tA\tC")?;
/// assert!(rt; matches!(&edit, Command::Change(Change::Edit(Edit { at: 2, .. }))));
/// assert!(rt; read_command(alloc, b"edit\ta.org").is_err());
/// ```
pub fn read_command(alloc: Global, line: &[u8]) -> Result<Command<'_>, Fault<BadLine>>
    ensures { Parses result (command_of line.now) }
{
    let mut fields = [line; MOST_FIELDS];
    let mut rest = line;
    for i in 0..MOST_FIELDS {
        let Some(end) = memchr(b'\t', rest) else {
            fields[i] = rest;
            return command(alloc, &fields[..i + 1]);
        };
        let (field, behind) = rest.split_at(end);
        fields[i] = field;
        rest = &behind[1..];
    }
    Err(Fault::Refused(BadLine))
}

fn command<'a>(alloc: Global, fields: &[&'a [u8]]) -> Result<Command<'a>, Fault<BadLine>>
    ensures { Parses result (command_of_fields (map (λ s. s.now) fields.now)) }
{
    match *fields {
        [word] if is(word, "settle") => Ok(Command::Settle),
        [word, name] if is(word, "show") => show(alloc, name),
        [word, when] if is(word, "clock-out") => clock_out(when),
        [word, name, titles, ref more @ ..] => command_within(alloc, word, name, titles, more),
        _ => Err(Fault::Refused(BadLine)),
    }
}

// A command within a file: its fields are the name, titles or a target or a position, and more.
fn command_within<'a>(
    alloc: Global,
    word: &[u8],
    name: &[u8],
    titles: &[u8],
    more: &[&'a [u8]],
) -> Result<Command<'a>, Fault<BadLine>>
    ensures { Parses result
        (command_of_fields (word.now ∷ name.now ∷ titles.now ∷ map (λ s. s.now) more.now)) }
{
    match *more {
        [] if is(word, "time") => time(alloc, name, titles),
        [when] if is(word, "archive") => archive(alloc, name, titles, when),
        [when] if is(word, "clock-in") => clock_in(alloc, name, titles, when),
        [state, when] if is(word, "todo") => todo(alloc, name, titles, state, when),
        [old, new] if is(word, "edit") => edit(alloc, name, titles, old, new),
        [to_name, to_titles, at] if is(word, "refile") => {
            refile(alloc, name, titles, to_name, to_titles, at)
        }
        [at, when, template, initial] if is(word, "capture") => {
            capture(alloc, name, titles, at, when, template, initial)
        }
        _ => Err(Fault::Refused(BadLine)),
    }
}

// The node that fields FILE and PATH name.
fn node(alloc: Global, name: &[u8], titles: &[u8]) -> Result<(FileName, Path), Fault<BadLine>>
    ensures { Parses result (option_and_then (λ file. option_map (λ path. (file, path))
        (path_of titles.now)) (file_of name.now)) }
{
    let file = file(alloc, name)?;
    let path = path(alloc, titles)?;
    Ok((file, path))
}

#[tactic(auto, unfolding(crate::specs::Grammar::show_of))]
fn show<'a>(alloc: Global, name: &[u8]) -> Result<Command<'a>, Fault<BadLine>>
    ensures { Parses result (show_of name.now) }
{
    let file = file(alloc, name)?;
    Ok(Command::Ask(Question::Show { file }))
}

#[tactic(auto, unfolding(crate::specs::Grammar::capture_of))]
fn capture<'a>(
    alloc: Global,
    name: &[u8],
    to: &[u8],
    at: &[u8],
    when: &[u8],
    template: &'a [u8],
    initial: &'a [u8],
) -> Result<Command<'a>, Fault<BadLine>>
    ensures { Parses result (capture_of name.now to.now at.now when.now template.now initial.now) }
{
    let place = place(at).ok_or(Fault::Refused(BadLine))?;
    let moment = moment(when).ok_or(Fault::Refused(BadLine))?;
    let file = file(alloc, name)?;
    let target = target(alloc, to)?;
    let template = text(alloc, template)?;
    let initial = text(alloc, initial)?;
    Ok(Command::Change(Change::Capture(Capture {
        file,
        target,
        place,
        moment,
        template,
        initial,
    })))
}

#[tactic(auto, unfolding(crate::specs::Grammar::refile_of))]
fn refile<'a>(
    alloc: Global,
    name: &[u8],
    titles: &[u8],
    to_name: &[u8],
    to_titles: &[u8],
    at: &[u8],
) -> Result<Command<'a>, Fault<BadLine>>
    ensures { Parses result (refile_of name.now titles.now to_name.now to_titles.now at.now) }
{
    let place = place(at).ok_or(Fault::Refused(BadLine))?;
    let (file, path) = node(alloc, name, titles)?;
    let (to_file, to_path) = node(alloc, to_name, to_titles)?;
    Ok(Command::Change(Change::Refile(Refile {
        file,
        path,
        to_file,
        to_path,
        place,
    })))
}

#[tactic(auto, unfolding(crate::specs::Grammar::todo_of))]
fn todo<'a>(
    alloc: Global,
    name: &[u8],
    titles: &[u8],
    state: &'a [u8],
    when: &[u8],
) -> Result<Command<'a>, Fault<BadLine>>
    ensures { Parses result (todo_of name.now titles.now state.now when.now) }
{
    let moment = moment(when).ok_or(Fault::Refused(BadLine))?;
    let (file, path) = node(alloc, name, titles)?;
    let state = text(alloc, state)?;
    Ok(Command::Change(Change::Todo(Todo {
        file,
        path,
        state,
        moment,
    })))
}

#[tactic(auto, unfolding(crate::specs::Grammar::edit_of))]
fn edit<'a>(
    alloc: Global,
    name: &[u8],
    at: &[u8],
    old: &'a [u8],
    new: &'a [u8],
) -> Result<Command<'a>, Fault<BadLine>>
    ensures { Parses result (edit_of name.now at.now old.now new.now) }
{
    let at = position(at).ok_or(Fault::Refused(BadLine))?;
    let file = file(alloc, name)?;
    let old = text(alloc, old)?;
    let new = text(alloc, new)?;
    Ok(Command::Change(Change::Edit(Edit { file, at, old, new })))
}

#[tactic(auto, unfolding(crate::specs::Grammar::archive_of))]
fn archive<'a>(
    alloc: Global,
    name: &[u8],
    titles: &[u8],
    when: &[u8],
) -> Result<Command<'a>, Fault<BadLine>>
    ensures { Parses result (archive_of name.now titles.now when.now) }
{
    let moment = moment(when).ok_or(Fault::Refused(BadLine))?;
    let (file, path) = node(alloc, name, titles)?;
    Ok(Command::Change(Change::Archive(Archive { file, path, moment })))
}

#[tactic(auto, unfolding(crate::specs::Grammar::clock_in_of))]
fn clock_in<'a>(
    alloc: Global,
    name: &[u8],
    titles: &[u8],
    when: &[u8],
) -> Result<Command<'a>, Fault<BadLine>>
    ensures { Parses result (clock_in_of name.now titles.now when.now) }
{
    let moment = moment(when).ok_or(Fault::Refused(BadLine))?;
    let (file, path) = node(alloc, name, titles)?;
    Ok(Command::Change(Change::ClockIn(ClockIn { file, path, moment })))
}

#[tactic(auto, unfolding(crate::specs::Grammar::clock_out_of))]
fn clock_out<'a>(when: &[u8]) -> Result<Command<'a>, Fault<BadLine>>
    ensures { Parses result (clock_out_of when.now) }
{
    let moment = moment(when).ok_or(Fault::Refused(BadLine))?;
    Ok(Command::Change(Change::ClockOut { moment }))
}

#[tactic(auto, unfolding(crate::specs::Grammar::clocked_of))]
fn time<'a>(alloc: Global, name: &[u8], titles: &[u8]) -> Result<Command<'a>, Fault<BadLine>>
    ensures { Parses result (clocked_of name.now titles.now) }
{
    let (file, path) = node(alloc, name, titles)?;
    Ok(Command::Ask(Question::Time { file, path }))
}
