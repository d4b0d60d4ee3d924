//! What a merge tells.
use std::alloc::{AllocError, Global};

/// What an event is about.
#[derive(Clone, Copy)]
pub(crate) enum What {
    AddedAtOnePlace,
    BothAddedTitle,
    ClosedTwice,
    Heading,
    Kept,
    KnownByPlace,
    KnownByTitle,
    LaterMoment,
    MovedBelowItself,
    MovedToTwoPlaces,
    Planning,
    Property,
    SortedInTwoWays,
    Text,
    TwoLevels,
}

impl What {
    /// The field of the report.
    pub(crate) fn text(self) -> &'static [u8] {
        match self {
            What::AddedAtOnePlace => b"added at one place on both sides",
            What::BothAddedTitle => b"both sides added an entry of this title",
            What::ClosedTwice => b"closed twice, the earlier end taken",
            What::Heading => b"heading",
            What::Kept => b"kept against a deletion",
            What::KnownByPlace => b"known by its place alone",
            What::KnownByTitle => b"known by its title alone",
            What::LaterMoment => b"later moment",
            What::MovedBelowItself => b"moved below itself, ours taken",
            What::MovedToTwoPlaces => b"moved to two places, ours taken",
            What::Planning => b"planning",
            What::Property => b"property",
            What::SortedInTwoWays => b"sorted in two ways, ours taken",
            What::Text => b"text",
            What::TwoLevels => b"two levels, ours taken",
        }
    }
}

/// An event of a unit.
#[derive(Drop)]
pub(crate) struct Event {
    pub(crate) what: What,
    /// It asks for an answer, and the text has the mark of a conflict.
    pub(crate) is_conflict: bool,
    /// The mark stands already.
    pub(crate) is_quoted: bool,
    /// What gave way.
    pub(crate) text: Vec<u8>,
}

/// The events of a unit, in order.
pub(crate) type Events = Vec<Event>;

/// Adds a note, which needs no answer.
pub(crate) fn note(
    alloc: Global,
    events: &mut Events,
    what: What,
    text: &[u8],
) -> Result<(), AllocError> {
    events.push(Event {
        what,
        is_conflict: false,
        is_quoted: true,
        text: Vec::from_slice(alloc, text)?,
    })?;
    Ok(())
}

/// Adds a conflict, whose line is to be quoted.
pub(crate) fn conflict(
    alloc: Global,
    events: &mut Events,
    what: What,
    text: &[u8],
) -> Result<(), AllocError> {
    events.push(Event {
        what,
        is_conflict: true,
        is_quoted: false,
        text: Vec::from_slice(alloc, text)?,
    })?;
    Ok(())
}

/// Adds a conflict, whose line is quoted already.
pub(crate) fn quoted_conflict(
    alloc: Global,
    events: &mut Events,
    what: What,
    text: &[u8],
) -> Result<(), AllocError> {
    events.push(Event {
        what,
        is_conflict: true,
        is_quoted: true,
        text: Vec::from_slice(alloc, text)?,
    })?;
    Ok(())
}

/// Whether one of the events is a conflict.
pub(crate) fn has_conflict(events: &[Event]) -> bool {
    events.iter().any(|event| event.is_conflict)
}

/// What a line begins with that quotes another one.
pub(crate) const QUOTE: &[u8] = b": CONFLICT: ";

/// The quotes of the conflicts that aren't quoted yet.
pub(crate) fn quotes_of(alloc: Global, events: &[Event]) -> Result<Vec<u8>, AllocError> {
    let mut out = Vec::new(alloc);
    for event in events {
        if !event.is_quoted {
            out.extend_from_slice(QUOTE)?;
            out.extend_from_slice(event.text.as_slice())?;
            out.push(b'\n')?;
        }
    }
    Ok(out)
}

/// Moves events to the end of others; their quotes stand now.
pub(crate) fn append_quoted(events: &mut Events, more: Events) -> Result<(), AllocError> {
    for event in more {
        events.push(Event {
            is_quoted: true,
            ..event
        })?;
    }
    Ok(())
}
