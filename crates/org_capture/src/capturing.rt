//! Entries put into a text: one insertion for each target, which removes nothing.
//!
//! The entry is one that `entry` answered, so it is one tree. The text isn't changed here.
ghost use Rattle.std.specs.Prelude.{◌≡◌, ◌<◌, IfOk};
ghost use Rattle.std.specs.Option.{ForSome};
ghost use Rattle.org_outline.specs.Tree.{Node as NodeOf, node_count, tree};
ghost use Rattle.org_outline.specs.Paths.{find_headed};
ghost use Rattle.org_capture.specs.Entry.{IsEntry};
ghost use Rattle.org_capture.specs.Capture.{below_head, captured, date_base};
ghost use Rattle.org_capture.specs.Answers.{AnswersEdit};

use crate::date_trees::dated_insertion;
use crate::dates::DateKind;
use crate::inserting::insertion;
use crate::made_heads::{can_be_title, made_head};
use crate::target::Target;
use org_fault::{Fault, Refusal};
use org_outline::{Node, Outline, PathFault, Place, Step};
use org_splice::Edit;
use org_stamp::Moment;
use std::alloc::Global;

/// The heading below which a date tree stands; none at top level.
fn date_base(outline: &Outline<'_>, path: &[Step]) -> Result<Option<Node>, PathFault>
    ensures value { result
        ≡ date_base outline.now.states (tree outline.now.text) path.now }
    ensures within { IfOk result (λ base.
        ForSome base (λ node. node < node_count (tree outline.now.text))) }
{
    if path.is_empty() {
        return Ok(None);
    }
    Ok(Some(outline.find(path)?))
}

/// The edit that puts an entry below the heading that a step means, at any level. Without a number
/// it is made at level 1 at the end where there is none.
fn below_head(
    alloc: Global,
    outline: &Outline<'_>,
    head: &Step,
    place: Place,
    entry: Vec<u8>,
) -> Result<Edit, Fault<Refusal>>
    requires { (node : NodeOf) × IsEntry entry.items node }
    ensures { let states = outline.now.states in
        let d = tree outline.now.text in
        (node : NodeOf) → IsEntry entry.items node
        → AnswersEdit (below_head states head.now.title place node d
        (find_headed states d head.now)) outline.now.text result }
{
    if let Some(node) = outline.headed(head)? {
        return insertion(alloc, outline, Some(node), place, entry);
    }
    let title = head.title.as_slice();
    if !can_be_title(alloc, title, outline.states())? {
        return Err(Fault::Refused(Refusal::NotFound));
    }
    Ok(made_head(alloc, outline, title, place, &entry)?)
}

/// The one edit of a text that puts an entry below its target, with the headings that are made for
/// it: it removes nothing (Org manual, "Template elements"). The entry is one that `entry` answers;
/// it goes one level below the target, and its descendants move with it.
///
/// # Errors
///
/// - `NotFound`: no heading is at the path, or fewer than a step's number have its title, or a
///   heading made with the title would read back with another title, a keyword, a priority or tags.
/// - `NotUnique`: several headings have the title of a step without a number.
/// - `OutOfMemory`.
///
/// # Examples
///
/// `now` is 2026-07-01 10:00, and the headings of its day are made:
///
/// ```
/// let outline = Outline::read(alloc, b"* 2027\n", &states)?;
/// let day = Target::Date(Path::new(Vec::new(alloc)));
/// let entry = entry(b"* N".to_vec(alloc)?)?;
/// let edit = capture(alloc, &outline, &day, Place::Last, now, entry)?;
/// let made = b"* 2026\n** 2026-07 July\n*** 2026-07-01 Wednesday\n**** N\n";
/// assert_eq!(rt; edit.at, 0);
/// assert_eq!(rt; edit.bytes.as_slice(), made.as_slice());
/// ```
pub fn capture(
    alloc: Global,
    outline: &Outline<'_>,
    target: &Target,
    place: Place,
    moment: Moment,
    entry: Vec<u8>,
) -> Result<Edit, Fault<Refusal>>
    requires { (node : NodeOf) × IsEntry entry.items node }
    ensures { (node : NodeOf) → IsEntry entry.items node
        → AnswersEdit (captured outline.now.states target.now place moment node
        (tree outline.now.text)) outline.now.text result }
{
    match target {
        Target::Top => insertion(alloc, outline, None, place, entry),
        Target::Head(head) => below_head(alloc, outline, head, place, entry),
        Target::Path(path) => {
            let node = outline.find(path.as_slice())?;
            insertion(alloc, outline, Some(node), place, entry)
        }
        Target::Date(path) => {
            let base = date_base(outline, path.as_slice())?;
            let kinds = [DateKind::Year, DateKind::Month, DateKind::Day];
            dated_insertion(alloc, outline, &base, &kinds, place, moment, entry)
        }
    }
}
