//! What the definitions of templates and of captures say, for all values.
//!
//! Each law is the contract of a function with nothing to do.
ghost use Rattle.std.specs.Prelude.{◌≡◌, ℕ, ◌<◌, ◌+◌, List, [], ◌∷◌, ◌++◌, Option, Some, IsTrue, not, ◌==◌, Ok, slice_get, slice_set};
ghost use Rattle.std.specs.List.{list_all, sum_by};
ghost use Rattle.std.specs.Option.{ForSome};
ghost use Rattle.std.specs.declared.cmp.Ordering.TheVariants.{Greater};
ghost use Rattle.org_outline.specs.declared.moves.Place.{Place};
ghost use Rattle.org_outline.specs.Moves.{IsNode, heading_alone, level_below};
ghost use Rattle.org_outline.specs.Numbers.{weigh};
ghost use Rattle.org_outline.specs.States.{Keywords};
ghost use Rattle.org_outline.specs.Tree.{Document, IsValid, Node, node_at, node_count, print, tree};
ghost use Rattle.org_stamp.specs.Calendar.{CivilDay, Moment};
ghost use Rattle.org_capture.specs.declared.dates.DateKind.{DateKind};
ghost use Rattle.org_capture.specs.declared.piece.Piece.{Piece};
ghost use Rattle.org_capture.specs.declared.target.Target.{Target};
ghost use Rattle.org_capture.specs.Template.{expanded, filled, pieces_of};
ghost use Rattle.org_capture.specs.Entry.{entry_in};
ghost use Rattle.org_capture.specs.Capture.{captured};
ghost use Rattle.org_capture.specs.Dates.{dated, first_dated, put_dated};
ghost use Rattle.org_capture.specs.Made.{added, dated_one_by_one, missing, number_put};

/// A template without a percent sign stands for itself.
pub fn plain_templates_stay()
    ensures { (template : List ℕ) (moment : Moment) (initial : List ℕ)
        → IsTrue (list_all (λ b. not (b == 37)) template)
        → expanded template moment initial ≡ Ok template }
{}

/// What was put in isn't read for escapes.
pub fn fillings_stay()
    // An initial text alone is what it is, whatever bytes it has.
    ensures alone { (moment : Moment) (initial : List ℕ)
        → expanded (37 ∷ 105 ∷ []) moment initial ≡ Ok initial }
    // Bytes without a percent sign stay, and the template goes on after them.
    ensures behind { (plain template : List ℕ) (moment : Moment) (initial : List ℕ)
        → IsTrue (list_all (λ b. not (b == 37)) plain)
        → expanded (plain ++ template) moment initial
        ≡ filled moment initial plain (pieces_of template) }
    // Whatever pieces follow, a text stays in front of what they put in.
    ensures kept { (moment : Moment) (initial text whole : List ℕ) (pieces : List Piece)
        → filled moment initial text pieces ≡ Ok whole
        → (more : List ℕ) × (whole ≡ text ++ more) }
{}

/// A capture keeps a document valid, so that it is the tree of its print: no section has a heading
/// line in it, and each heading lies deeper than the one above it.
pub fn captures_are_valid()
    ensures captured { (states : Keywords) (target : Target) (place : Place) (moment : Moment)
        (node : Node) (d new : Document)
        → captured states target place moment node d ≡ Ok new → IsNode node → IsValid d
        → IsValid new }
    // An entry is a valid tree.
    ensures entry { (text : List ℕ) (node : Node) → entry_in text ≡ Some node → IsNode node }
    // So the tree of the new text is the captured one.
    ensures text { (states : Keywords) (target : Target) (place : Place) (moment : Moment)
        (node : Node) (text bytes : List ℕ) (new : Document) → entry_in bytes ≡ Some node
        → captured states target place moment node (tree text) ≡ Ok new → tree (print new) ≡ new }
{}

/// A capture adds its entry's nodes and the headings that were missing, and keeps all others:
/// whatever number a node is given by its rest and its section, as 1 where it is one that is
/// counted and else 0, the sum over all nodes grows by theirs.
pub fn captures_add_nodes()
    ensures document { (states : Keywords) (target : Target) (place : Place) (moment : Moment)
        (node : Node) (d new : Document)
        → captured states target place moment node d ≡ Ok new
        → (w : List ℕ → List (List ℕ) → ℕ)
        → weigh w new.forest ≡ weigh w d.forest + added w node (missing states target moment d) }
    // So over all files, where these are their texts.
    ensures file { (states : Keywords) (target : Target) (place : Place) (moment : Moment)
        (node : Node) (texts : List (List ℕ)) (i : ℕ) (text bytes : List ℕ) (new : Document)
        → slice_get texts i ≡ Some text → entry_in bytes ≡ Some node
        → captured states target place moment node (tree text) ≡ Ok new
        → (w : List ℕ → List (List ℕ) → ℕ)
        → let over : List (List ℕ) → ℕ = (λ all. sum_by (λ t. weigh w (tree t).forest) all) in
        over (slice_set texts i (print new))
        ≡ over texts + added w node (missing states target moment (tree text)) }
{}

/// Date headings made one at a time, each looked for below the last and made alone where it is
/// missing, are the one chain of headings that a capture puts in.
pub fn dates_one_by_one()
    // A heading that is made stands alone, exactly one level below its parent.
    ensures alone { (states : Keywords) (kind : DateKind) (key rest : List ℕ) (l : ℕ)
        (up : Option ℕ) (d : Document) → ForSome up (λ i. i < node_count d)
        → let later = first_dated states d up kind key Greater in
        (node_at (put_dated later up (heading_alone l rest) d) (number_put later up d)).node
        ≡ heading_alone (level_below up d) rest }
    ensures chain { (states : Keywords) (place : Place) (day : CivilDay) (node : Node)
        (d : Document) (kinds : List DateKind) (up : Option ℕ)
        → ForSome up (λ i. i < node_count d)
        → dated_one_by_one states place day node d kinds up
        ≡ dated states place day node d kinds up }
{}
