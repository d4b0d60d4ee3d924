//! The command line, by clap. Nothing else of the program knows how its words are read.
ghost use Rattle.std.specs.Prelude.{◌≡◌, ◌⊎◌, ℕ, List, [], ◌∷◌, Some, false, map, string_bytes, codes, IfOk, IfErr, SomeIff};
ghost use Rattle.std.specs.Str.Parse.{digits_value};
ghost use Rattle.clap.specs.Words.{kind_of, app_of, fault_of, found_of, new_rule, rows_of, rule_of};
ghost use Rattle.org_program.specs.Words.{command_line, folder_argument as folder_rule, given, group_in, group_of, names_argument as names_rule, adopt_in, adopts, forget_in, forgets, recovery_of, set_in, whole_in, AreTaken, IsRecoveryGiven, Say, IsGroupGiven, IsGroupText, IsFaultBy, IsFaultOfWords};

use crate::fault::Fault;
use clap::error::ErrorKind;
use clap::{Arg, ArgAction, ArgMatches, Command, Error};
use org_store::{Group, OpenFault};
use std::alloc::{AllocError, Global};
use std::{env, io};

const NEW: &str = "An Org file that the folder may lack";

const ONLY: &str = "An Org file to open, in the place of all in the folder";

const ACTIVE: &str = "The active states, with commas between them";

const DONE: &str = "The done states, with commas between them";

const GROUP: &str = "How many commands are settled together, from 1 to 1000 [default: 1]";

const WHOLE: &str = "Settle at the line settle alone, and stop at a line that isn't done";

const ADOPT: &str = "Finish what a crash cut short, also over files that were changed since";

const FORGET: &str = "Give up what a crash cut short, and run no command";

const ADOPT_AND_FORGET: &str = "the argument '--adopt' cannot be used with '--forget'";

const WHOLE_AND_GROUP: &str = "the argument '--whole' cannot be used with '--group <K>'";

const NO_GROUP: &str = "the value of '--group <K>' is a number from 1 to 1000";

/// What the words of the command line say.
#[derive(Drop)]
pub struct Arguments {
    /// The folder of the store's files.
    pub folder: String,
    /// Names of files that the folder may lack.
    pub new: Vec<String>,
    /// Names of the only other files of the store; where there are none, those of all Org files of
    /// the folder.
    pub only: Vec<String>,
    /// The active states, with a comma between each two.
    pub todo: String,
    /// The done states, likewise.
    pub done: String,
    /// How many accepted commands are settled together.
    pub group: Group,
    /// How the opening treats a command that a crash cut short.
    pub recovery: Recovery,
}

/// How an opening treats a command that a crash cut short.
#[derive(Clone, Copy, Debug)]
pub enum Recovery {
    /// It is finished if its files stand as a crash may have left them.
    Checked,
    /// It is finished, however its files stand.
    Adopted,
    /// It isn't finished: its files stay as they are, and no line is served.
    Forgotten,
}

impl Recovery {
    /// Whether files are taken as they are.
    pub fn adopts(self) -> bool
        ensures { result ≡ adopts self }
    {
        match self {
            Recovery::Adopted => true,
            Recovery::Checked | Recovery::Forgotten => false,
        }
    }

    /// Whether what a crash cut short is given up.
    pub fn forgets(self) -> bool
        ensures { result ≡ forgets self }
    {
        match self {
            Recovery::Forgotten => true,
            Recovery::Checked | Recovery::Adopted => false,
        }
    }
}

/// The words of the command line, the first being the program's name.
///
/// # Errors
///
/// `Usage` where one of them isn't UTF-8.
pub fn given_words(rt: &HostRuntime) -> Result<Vec<String>, Fault>
    ensures { IfErr result IsFaultOfWords }
{
    match env::args(rt) {
        Ok(words) => Ok(words.collect(rt.alloc())?),
        Err(error) => Err(unreadable(rt.alloc(), &error)),
    }
}

/// The arguments that these words are, the first being the program's name. Help is a fault too:
/// standard output holds replies alone.
///
/// # Errors
///
/// - `Usage`: the words aren't taken.
/// - `Open(OutOfMemory)`.
pub fn read_words(alloc: Global, words: &[String]) -> Result<Arguments, Fault>
    ensures said { IfOk result (Say (map string_bytes words.now)) }
    ensures fault { IfErr result (IsFaultBy (AreTaken (map string_bytes words.now) → ⊥)) }
{
    match parse(alloc, words) {
        Ok(arguments) => Ok(arguments),
        Err(error) => Err(usage(alloc, &error)),
    }
}

fn parse(alloc: Global, words: &[String]) -> Result<Arguments, Error>
    ensures said { IfOk result (Say (map string_bytes words.now)) }
    ensures fault { IfErr result (λ error. (kind_of error ≡ ErrorKind.OutOfMemory)
        ⊎ (AreTaken (map string_bytes words.now) → ⊥)) }
{
    let mut command = command(alloc)?;
    let matches = command.try_get_matches_from_mut(words)?;
    arguments_of(alloc, &mut command, &matches)
}

// What the words are that clap took, where their group is one.
fn arguments_of(
    alloc: Global,
    command: &mut Command<'_>,
    matches: &ArgMatches<'_>,
) -> Result<Arguments, Error>
    ensures said { IfOk result (λ arguments. (words : List (List ℕ))
        → rows_of (found_of matches.now) ≡ given words → fault_of command_line words ≡ []
        → Say words arguments) }
    ensures fault { IfErr result (λ error. (kind_of error ≡ ErrorKind.OutOfMemory)
        ⊎ ((words : List (List ℕ)) → rows_of (found_of matches.now) ≡ given words
        → AreTaken words → ⊥)) }
{
    let group = group(command, matches)?;
    let recovery = read_recovery(command, matches)?;
    Ok(Arguments {
        folder: String::from_str(alloc, matches.get_str("DIR").unwrap_or(""))?,
        new: owned(alloc, matches.get_strs("new").unwrap_or(&[]))?,
        only: owned(alloc, matches.get_strs("only").unwrap_or(&[]))?,
        todo: String::from_str(alloc, matches.get_str("todo").unwrap_or("TODO"))?,
        done: String::from_str(alloc, matches.get_str("done").unwrap_or("DONE"))?,
        group,
        recovery,
    })
}

// How the opening treats a command that a crash cut short, if the words say it well.
fn read_recovery(command: &mut Command<'_>, matches: &ArgMatches<'_>) -> Result<Recovery, Error>
    ensures recovery { IfOk result (λ recovery. (words : List (List ℕ))
        → rows_of (found_of matches.now) ≡ given words
        → IsRecoveryGiven (adopt_in words) (forget_in words)
        × (recovery ≡ recovery_of (adopt_in words) (forget_in words))) }
    ensures fault { IfErr result (λ error. (kind_of error ≡ ErrorKind.OutOfMemory)
        ⊎ ((words : List (List ℕ)) → rows_of (found_of matches.now) ≡ given words
        → IsRecoveryGiven (adopt_in words) (forget_in words) → ⊥)) }
{
    let adopts = is_set(matches, "adopt");
    let forgets = is_set(matches, "forget");
    match (adopts, forgets) {
        (false, false) => Ok(Recovery::Checked),
        (true, false) => Ok(Recovery::Adopted),
        (false, true) => Ok(Recovery::Forgotten),
        (true, true) => Err(command.error(ErrorKind::ArgumentConflict, ADOPT_AND_FORGET)?),
    }
}

// An option without a value is there.
fn is_set(matches: &ArgMatches<'_>, name: &str) -> bool
    ensures { (words : List (List ℕ)) → rows_of (found_of matches.now) ≡ given words
        → result ≡ set_in name.now words }
{
    matches.get_str(name).unwrap_or("false") == "true"
}

// How many commands are settled together, where the words say it well.
fn group(command: &mut Command<'_>, matches: &ArgMatches<'_>) -> Result<Group, Error>
    ensures group { IfOk result (λ group. (words : List (List ℕ))
        → rows_of (found_of matches.now) ≡ given words
        → IsGroupGiven (whole_in words) (group_in words)
        × (group ≡ group_of (whole_in words) (group_in words))) }
    ensures fault { IfErr result (λ error. (kind_of error ≡ ErrorKind.OutOfMemory)
        ⊎ ((words : List (List ℕ)) → rows_of (found_of matches.now) ≡ given words
        → IsGroupGiven (whole_in words) (group_in words) → ⊥)) }
{
    let text = matches.get_str("group");
    if is_set(matches, "whole") {
        return match text {
            None => Ok(Group::Whole),
            Some(_) => Err(command.error(ErrorKind::ArgumentConflict, WHOLE_AND_GROUP)?),
        };
    }
    match size_of(text.unwrap_or("1")) {
        Some(size) => Ok(Group::Of(size)),
        None => Err(command.error(ErrorKind::ValueValidation, NO_GROUP)?),
    }
}

// The folder, which has to be there.
fn folder_argument<'a>(alloc: Global) -> Arg<'a>
    ensures rule { rule_of result ≡ folder_rule }
    ensures own { result.global ≡ false }
{
    Arg::new(alloc, "DIR")
        .required(true)
        .help("The folder of Org files")
}

// An option, which takes no value as yet.
fn option<'a>(alloc: Global, name: &'a str, help: &'a str) -> Arg<'a>
    ensures rule { rule_of result ≡ record (new_rule name.now) { long = Some name.now } }
    ensures own { result.global ≡ false }
{
    Arg::new(alloc, name).long(name).help(help)
}

// Any number of names.
fn names_argument<'a>(alloc: Global, name: &'a str, help: &'a str) -> Arg<'a>
    ensures rule { rule_of result ≡ names_rule name.now }
    ensures own { result.global ≡ false }
{
    option(alloc, name, help)
        .value_name("NAME")
        .action(ArgAction::Append)
}

// States, which are these where the option isn't there.
fn states_argument<'a>(alloc: Global, name: &'a str, help: &'a str, default: &'a str) -> Arg<'a>
    ensures rule { rule_of result ≡ record (new_rule name.now)
        { long = Some name.now; value_names = 1; defaults = default.now ∷ [] } }
    ensures own { result.global ≡ false }
{
    option(alloc, name, help)
        .value_name("LIST")
        .default_value(default)
}

// The command line, for clap. It knows no default of the group, so it says whether one was given.
fn command<'a>(alloc: Global) -> Result<Command<'a>, AllocError>
    ensures { IfOk result (λ command. app_of command ≡ command_line) }
{
    Command::new(alloc, "orgstore")
        .arg(folder_argument(alloc))?
        .arg(names_argument(alloc, "new", NEW))?
        .arg(names_argument(alloc, "only", ONLY))?
        .arg(states_argument(alloc, "todo", ACTIVE, "TODO"))?
        .arg(states_argument(alloc, "done", DONE, "DONE"))?
        .arg(option(alloc, "group", GROUP).value_name("K"))?
        .arg(option(alloc, "whole", WHOLE).action(ArgAction::SetTrue))?
        .arg(option(alloc, "adopt", ADOPT).action(ArgAction::SetTrue))?
        .arg(option(alloc, "forget", FORGET).action(ArgAction::SetTrue))
}

fn owned(alloc: Global, words: &[&str]) -> Result<Vec<String>, AllocError>
    ensures { IfOk result (λ owned. map string_bytes owned.items
        ≡ map (λ word. word.now) words.now) }
{
    let mut owned = Vec::new(alloc);
    for word in words {
        owned.push(String::from_str(alloc, word)?)?;
    }
    Ok(owned)
}

// The size of a group that a decimal number is. It has no sign.
fn size_of(text: &str) -> Option<u32>
    ensures { SomeIff result (IsGroupText text.now) (digits_value 10 text.now) }
{
    if let [b'+', ..] = text.as_bytes() {
        return None;
    }
    match text.parse::<u32>() {
        Ok(size) if 1 <= size && size <= 1000 => Some(size),
        _ => None,
    }
}

fn usage(alloc: Global, error: &Error) -> Fault
    ensures { IsFaultBy (kind_of error.now ≡ ErrorKind.OutOfMemory → ⊥) result }
{
    if error.kind() == ErrorKind::OutOfMemory {
        return Fault::Open(OpenFault::OutOfMemory);
    }
    match format!(in alloc; "{error}") {
        Ok(text) => Fault::Usage(unended(text)),
        Err(_) => Fault::Open(OpenFault::OutOfMemory),
    }
}

// A text without the newline at its end.
fn unended(mut text: String) -> String {
    if text.ends_with('\n') {
        text.pop();
    }
    text
}

// The words can't be read at all: one of them isn't UTF-8.
fn unreadable(alloc: Global, error: &io::Error) -> Fault
    ensures { IsFaultOfWords result }
{
    if error.kind() == io::ErrorKind::OutOfMemory {
        return Fault::Open(OpenFault::OutOfMemory);
    }
    match String::from_str(alloc, "error: an argument isn't UTF-8") {
        Ok(text) => Fault::Usage(text),
        Err(_) => Fault::Open(OpenFault::OutOfMemory),
    }
}
