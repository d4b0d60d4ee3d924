//! Clocks of a text: which one runs, clocking in and out, and the time clocked.
//!
//! One clock runs in a text, the first open line of a heading's section. Other texts aren't known
//! here.
ghost use Rattle.std.specs.Prelude.{◌≡◌, ◌<◌, ◌≤◌, [], ◌∷◌, ℕ, false, length, Some, IfOk};
ghost use Rattle.org_splice.specs.Edits.{AreEdits};
ghost use Rattle.org_splice.specs.Lines.{terminated, print_lines};
ghost use Rattle.org_splice.specs.Searched.{IsSearched};
ghost use Rattle.org_outline.specs.Tree.{node_at, node_count, print, tree};
ghost use Rattle.org_state.specs.Clock.{has_clock, span_from, running_in, runs_at, opened_section, with_opened, clocked_minutes, clocked_at};
ghost use Rattle.org_state.specs.Clock.{AnswersClosing, ClosesSection, AnswersSwitch};
ghost use Rattle.org_state.specs.Edits.{section_start, EditsSection};
ghost use Rattle.org_state.specs.OwnLines.{document_of, own_of};

use crate::own::OwnLines;
use crate::run::Running;
use org_fault::{Fault, Refusal};
use org_meta::{Lines, close_clock, find_open, open_clock, total};
use org_outline::{Node, Outline, PathFault, Step};
use org_splice::{Edit, Searched, Span};
use org_stamp::Moment;
use std::alloc::{AllocError, Global};

/// A part of the heading's section, as a part of the text.
fn span_in_section(own: &OwnLines<'_, '_>, span: Span) -> Span
    requires ordered { span.start ≤ span.end }
    requires within { span.end ≤ length (print_lines (own_of own.now).section) }
    ensures { result ≡ span_from (section_start (document_of own.now) own.now.node) span }
{
    let section = own.outline.section(own.node);
    Span {
        start: section.start + span.start,
        end: section.start + span.end,
    }
}

/// The clock that runs in the text: the first open clock line in the section of a heading (Org
/// Syntax, "Clocks"). Takes no memory.
pub fn running(outline: &Outline<'_>) -> Option<Running>
    ensures { result ≡ running_in (tree outline.now.text) }
{
    running_among(outline, 0, outline.count())
}

/// The same, where none runs in the headings before `first`, nor in those from `last` on.
fn running_among(outline: &Outline<'_>, first: usize, last: usize) -> Option<Running>
    requires before { (k : ℕ) → k < first → runs_at (node_at (tree outline.now.text) k) ≡ false }
    requires behind { (k : ℕ) → last ≤ k → k < node_count (tree outline.now.text)
        → runs_at (node_at (tree outline.now.text) k) ≡ false }
    requires within { last ≤ node_count (tree outline.now.text) }
    ensures { result ≡ running_in (tree outline.now.text) }
{
    for index in first..last {
        let heading = outline.node(index);
        let own = OwnLines {
            outline,
            node: heading,
        };
        if let Some(line) = find_open(own.section()) {
            return Some(Running {
                heading,
                line: span_in_section(&own, line),
            });
        }
    }
    None
}

/// The clock that runs in the text, and what is known after the search. Only the headings of which
/// nothing was known are read, and one before them. Takes no memory.
pub fn search(outline: &Outline<'_>, searched: Searched) -> (Option<Running>, Searched)
    requires { IsSearched has_clock searched outline.now.text }
    ensures running { result.0 ≡ running_in (tree outline.now.text) }
    ensures searched { IsSearched has_clock result.1 outline.now.text }
{
    let (front, back) = match searched {
        Searched::Nowhere => return (None, Searched::Nowhere),
        Searched::Ends { front, back } => (front, back),
    };
    let first = outline.count_before(front).saturating_sub(1);
    let last = outline.count_before((outline.text().len() + 1).saturating_sub(back));
    match running_among(outline, first, last) {
        None => (None, Searched::Nowhere),
        Some(running) => {
            let front = outline.start(running.heading);
            (Some(running), Searched::Ends { front, back })
        }
    }
}

/// The edit that opens a clock at a heading.
fn opening(alloc: Global, own: &OwnLines<'_, '_>, now: Moment) -> Result<Edit, AllocError>
    ensures edits { let d = document_of own.now in IfOk result (λ edit.
        EditsSection edit d own.now.node (opened_section now d own.now.node)) }
    ensures terminated { terminated own.now.outline.now.text ≡ own.now.outline.now.text }
{
    let edit = open_clock(alloc, own.section(), now)?;
    Ok(own.in_section(edit))
}

/// The edit that clocks in at a heading (Org manual, "Clocking commands"): an open clock line with
/// the moment first in its LOGBOOK drawer, or in a new one before the rest of its section. A clock
/// that runs elsewhere, or there already, isn't closed by it. `AllocError` comes where memory ran
/// out.
pub fn clock_in(
    alloc: Global,
    outline: &Outline<'_>,
    node: Node,
    now: Moment,
) -> Result<Edit, AllocError>
    requires { node < node_count (tree outline.now.text) }
    ensures { let d = tree outline.now.text in
        IfOk result (λ edit. AreEdits (edit ∷ []) outline.now.text
        (print (with_opened now node d))) }
{
    opening(alloc, &OwnLines { outline, node }, now)
}

/// The edit that closes the clock that runs in the text.
fn closing(
    alloc: Global,
    text: Lines<'_>,
    running: Running,
    now: Moment,
) -> Result<Edit, Fault<Refusal>>
    requires { running_in (tree text.bytes.now) ≡ Some running }
    ensures { ClosesSection now (tree text.entry.bytes.now) running.heading result }
{
    let bytes = &text.bytes[running.line.start..running.line.end];
    let whole = Span {
        start: 0,
        end: bytes.len(),
    };
    let edit = close_clock(alloc, Lines { bytes }, whole, now)?;
    Ok(Edit {
        at: running.line.start + edit.at,
        removed: edit.removed,
        bytes: edit.bytes,
    })
}

/// The edit that clocks out of the clock that runs in the text, as `running` answers it (Org
/// manual, "Clocking commands"): `--`, the moment and the time clocked take the place of what
/// follows the timestamp in its line.
///
/// # Errors
///
/// In this order: `ClockBackwards` where the moment is before the clock's start, and `OutOfMemory`.
pub fn clock_out(
    alloc: Global,
    text: &[u8],
    running: Running,
    now: Moment,
) -> Result<Edit, Fault<Refusal>>
    requires terminated { terminated text.now ≡ text.now }
    requires runs { running_in (tree text.now) ≡ Some running }
    ensures { AnswersClosing now text.now running.heading result }
{
    closing(alloc, Lines { bytes: text }, running, now)
}

/// The edits, to be made in this order, that clock in at a heading of a text in which a clock runs,
/// as `running` answers it (Org manual, "Clocking commands"): that clock is closed at the same
/// moment. No edits where it runs at that heading, and then nothing changes, whatever the moment.
///
/// # Errors
///
/// In this order: `ClockBackwards` where the moment is before the start of the clock that is to be
/// closed, and `OutOfMemory`.
pub fn switch_clock(
    alloc: Global,
    outline: &Outline<'_>,
    node: Node,
    running: Running,
    now: Moment,
) -> Result<Vec<Edit>, Fault<Refusal>>
    requires node { node < node_count (tree outline.now.text) }
    requires runs { running_in (tree outline.now.text) ≡ Some running }
    ensures { AnswersSwitch now outline.now.text running.heading node result }
{
    if node.number() == running.heading.number() {
        return Ok(Vec::new(alloc));
    }
    let text = Lines {
        bytes: outline.text(),
    };
    let stop = closing(alloc, text, running, now)?;
    let own = OwnLines { outline, node };
    let start = opening(alloc, &own, now)?;
    // The later first, so that each stands where it does in the text as it was.
    let edits = if running.heading.number() < node.number() {
        [start, stop]
    } else {
        [stop, start]
    };
    Ok(Vec::from_array(alloc, edits)?)
}

/// The minutes clocked at a heading and below it, at most 2^64 - 1.
fn clocked_below(own: &OwnLines<'_, '_>) -> u64
    ensures { result ≡ clocked_minutes (document_of own.now) own.now.node }
{
    let outline = own.outline;
    let first = own.node.number();
    let count = outline.count();
    prove!(first < count);
    let mut minutes: u64 = 0;
    for index in first..first + outline.size(own.node) {
        let node = outline.node(index);
        minutes = minutes.saturating_add(total(OwnLines { outline, node }.section()));
    }
    minutes
}

/// The minutes of all closed clock lines of the heading at `path` and of the headings below it, at
/// most 2^64 - 1 (Org manual, "The clock table"): from their first timestamps to their second ones;
/// the written durations aren't read. Takes no memory.
///
/// # Errors
///
/// `NotFound` or `NotUnique` of `path`.
pub fn clocked(outline: &Outline<'_>, path: &[Step]) -> Result<u64, PathFault>
    ensures { result
        ≡ clocked_at outline.now.states path.now (tree outline.now.text) }
{
    let node = outline.find(path)?;
    Ok(clocked_below(&OwnLines { outline, node }))
}
