//! The laws of applying records to files, for all values.
//!
//! Each is the contract of a function with nothing to do.
ghost use Rattle.std.specs.Prelude.{◌≡◌, ◌≤◌, ◌+◌, ◌⊎◌, List, ℕ, Some, false, length, drop, slice_get, IsSomeAnd, IsFalse, IsTrue};
ghost use Rattle.std.specs.List.{Contains};
ghost use Rattle.org_disk.specs.CountsFailures.{LeavesOver};
ghost use Rattle.org_disk.specs.Disk.{FileState, IsImage, IsStable, AreImages, write, cut, sync};
ghost use Rattle.org_splice.specs.Patches.{AreWellFormed, Fit, PatchedTo, IsPartlyPatched, last_end, patched};
ghost use Rattle.org_splice.specs.Texts.{EditedText, IsEditOf, pairs_of};
ghost use Rattle.org_journal.specs.declared.record.Before.{Before};
ghost use Rattle.org_journal.specs.declared.record.Entry.{Entry};
ghost use Rattle.org_splice.specs.declared.patch.Patch.{Patch};
ghost use Rattle.org_journal.specs.Recovered.{Image, RecoversTo, SameFiles, recovered, contents, made_by, may_cut};
ghost use Rattle.org_journal.specs.Left.{is_left};
ghost use Rattle.org_fileset.specs.Entries.{IsEntryOf, changed};
ghost use Rattle.org_fileset.specs.Left.{EachIsLeft, IsLeft, StaysLeftBy};
ghost use Rattle.org_fileset.specs.Recovery.{IsReopened, RecoversAsBefore};
ghost use Rattle.org_fileset.specs.Replay.{IsAtRest, IsBeforeOrAfter, IsCommitted, IsMadeBy, RestsOn, files_on};
ghost use Rattle.org_fileset.specs.Laws.{AllStable, AreAtRest, AreOtherFiles, IsOpenFor, IsBetween, IsFound, KeepsTexts, IsEachOldOrNew};

use org_disk::Disk;

/// Applying twice is applying once: patches that fit a text fit what they make of it, and make the
/// same of that again.
pub fn applied_twice_as_once()
    ensures twice { (patches : List (ℕ × List ℕ)) (final : ℕ) (text : List ℕ)
        → AreWellFormed patches final → Fit patches final (length text)
        → PatchedTo patches final (patched patches final text) (patched patches final text) }
    // So do they over each text on which a part of the work may have been done.
    ensures partly { (patches : List (ℕ × List ℕ)) (final : ℕ) (text part : List ℕ)
        → AreWellFormed patches final → Fit patches final (length text)
        → IsPartlyPatched patches final text part
        → PatchedTo patches final part (patched patches final text) }
    // The same of an entry, whether or not it may cut its file.
    ensures entry { (entry : Entry) (text : List ℕ)
        → AreWellFormed (pairs_of entry.patches) entry.length
        → Fit (pairs_of entry.patches) entry.length (length text)
        → IsMadeBy false entry (made_by entry text) (made_by entry text) }
{}

/// An entry that may not cut its file leaves all that the file has past the final length.
pub fn longer_files_keep_their_end()
    ensures { (entry : Entry) (text : List ℕ)
        → AreWellFormed (pairs_of entry.patches) entry.length
        → Fit (pairs_of entry.patches) entry.length (length text)
        → IsFalse (may_cut entry.before entry.length)
        → drop entry.length (made_by entry text) ≡ drop entry.length text }
{}

/// Each of the calls that apply an entry to its file, made while the journal stands open with the
/// entry's record, keeps what every image recovers to, at every moment and also where the call
/// fails.
pub fn calls_keep_texts()
    // a write of one of the entry's patches
    ensures write { (entries : List Entry) (texts : Image) (files : List ℕ → FileState)
        (entry : Entry) (patch : Patch) → IsOpenFor entries texts files
        → AreImages files (contents files)
        → Contains entries entry → Contains entry.patches patch
        → patch.from ≤ length (contents files entry.name)
        → KeepsTexts (write patch.from patch.bytes) entry.name entries texts files }
    // a cut of the entry's file to the entry's length, where the entry may cut it
    ensures cut { (entries : List Entry) (texts : Image) (files : List ℕ → FileState)
        (entry : Entry) → IsOpenFor entries texts files → AreImages files (contents files)
        → Contains entries entry → IsTrue (may_cut entry.before entry.length)
        → entry.length ≤ length (contents files entry.name)
        → KeepsTexts (cut entry.length) entry.name entries texts files }
    // a sync of the entry's file
    ensures sync { (entries : List Entry) (texts : Image) (files : List ℕ → FileState)
        (entry : Entry) → IsOpenFor entries texts files → AreImages files (contents files)
        → Contains entries entry → KeepsTexts sync entry.name entries texts files }
{}

/// No file that a crash leaves of a commit is found to be changed, as far as its bytes go, nor one
/// that a crash leaves of an opening which goes on with it. The entry that a commit makes of a file
/// says what it was; and the calls that apply the entry, a write of a patch, a cut to the final
/// length and a sync, leave nothing of it but what the entry allows. After a call that failed, or
/// within one, a crash leaves what it leaves before or after the call.
pub fn crashed_files_are_left()
    ensures begin { (change : List ℕ × EditedText) (entry : Entry) (file : FileState)
        → IsEntryOf change entry → IsStable file → IsEditOf file.content change.1
        → IsSomeAnd entry.before (λ before. before.length ≡ length file.content)
        → StaysLeftBy entry file }
    // what an opening begins with: each image of the file is as a crash may have left it
    ensures found { (entry : Entry) (before : Before) (file : FileState)
        → entry.before ≡ Some before
        → last_end 0 (pairs_of entry.patches) + length before.trailing ≤ entry.length
        → IsImage file file.content
        → ((text : List ℕ) → IsImage file text → IsTrue (is_left entry text))
        → StaysLeftBy entry file }
    ensures write { (entry : Entry) (file : FileState) (k from : ℕ) (bytes : List ℕ)
        → AreWellFormed (pairs_of entry.patches) entry.length
        → slice_get (pairs_of entry.patches) k ≡ Some (from, bytes)
        → from ≤ length file.content → StaysLeftBy entry file
        → StaysLeftBy entry (write from bytes file) }
    ensures cut { (entry : Entry) (file : FileState)
        → AreWellFormed (pairs_of entry.patches) entry.length → StaysLeftBy entry file
        → StaysLeftBy entry (cut entry.length file) }
    ensures sync { (entry : Entry) (file : FileState) → IsImage file file.content
        → StaysLeftBy entry file → StaysLeftBy entry (sync file) }
    ensures left { (entry : Entry) (file : FileState) (text : List ℕ) → StaysLeftBy entry file
        → IsImage file text → IsTrue (is_left entry text) }
{}

/// At every moment of a commit each file by itself is old or new, in what an image recovers to.
pub fn each_file_old_or_new()
    ensures { (changes : List (List ℕ × EditedText)) (files image : Image)
        → IsBeforeOrAfter files (changed changes files) image
        → IsSomeAnd (recovered image) (IsEachOldOrNew changes files) }
{}

/// From crashed to opened again. A disk that is found after a crash holds one image, and all of it
/// is on the disk. It is fit; and where that image recovers to files, so does whatever a crash
/// leaves of it from then on. So `FileSet::open` promises of it that each image since recovers to
/// what the first crash left (`again`), however often the opening is crashed and begun anew, and
/// that an opening that is done leaves these files at rest (`opened`).
pub fn crashed_disk_opens_again()
    // whatever image it is, as long as it recovers to files
    ensures image { (texts : Image) (files : List ℕ → FileState) → AllStable files
        → RecoversTo texts (contents files) → IsFound (RecoversTo texts) files }
    // one image of a disk at rest: it is at rest
    ensures rest { (old files : List ℕ → FileState) → IsAtRest old → AllStable files
        → AreImages old (contents files)
        → AreAtRest (contents old) files × IsFound (RecoversTo (contents old)) files }
    // what a crash at any moment of a commit left (`Commits`)
    ensures commit { (before after : Image) (files : List ℕ → FileState) → AllStable files
        → IsBeforeOrAfter before after (contents files)
        → IsFound (IsBeforeOrAfter before after) files }
    // what a crash at any moment of an opening left (`Reopens`)
    ensures opening { (old files : List ℕ → FileState) → AllStable files
        → RecoversAsBefore old (contents files) → IsFound (RecoversAsBefore old) files }
    // what a crash within the opening of such a disk leaves recovers to the same files
    ensures again { (texts image : Image) (files : List ℕ → FileState) → AllStable files
        → RecoversTo texts (contents files) → RecoversAsBefore files image
        → RecoversTo texts image }
    // Where that image has no file that is changed by its bytes, no image has one from then on.
    ensures left { (files : List ℕ → FileState) → AllStable files → IsLeft (contents files)
        → EachIsLeft files }
    // and where it is done, they are all there
    ensures opened { (texts : Image) (old new : List ℕ → FileState) → AllStable old
        → RecoversTo texts (contents old) → IsReopened old new → AreAtRest texts new }
{}

/// The middle of a commit counts. What a commit promises of a crash at any moment since it began it
/// promises of every disk that it passes through: one that is at rest there has all files as they
/// were, or all with the changed texts.
pub fn middle_of_a_commit_counts<D: Disk>()
    ensures middle { (old mid new : D) (after : Image) → D.honest mid → RestsOn D.Disk mid
        → IsBetween D.Disk old mid new
        → LeavesOver D.Disk old new (IsBeforeOrAfter (files_on D.Disk old) after)
        → SameFiles (files_on D.Disk mid) (files_on D.Disk old)
        ⊎ SameFiles (files_on D.Disk mid) after }
    // So the promise is false of a body that commits other files on its way: a part of the changed
    // ones by a record of their own, or a file without what it had, which is put back later.
    ensures apart { (old mid new : D) (half after : Image) → D.honest mid
        → RestsOn D.Disk old → IsCommitted half (D.files old) (D.files mid)
        → AreOtherFiles half (files_on D.Disk old) → AreOtherFiles half after
        → IsBetween D.Disk old mid new
        → LeavesOver D.Disk old new (IsBeforeOrAfter (files_on D.Disk old) after)
        → ⊥ }
    // So it is of two commits, one after the other, of which the first is done.
    ensures two { (old mid new : D) (half last after : Image) → D.honest mid
        → RestsOn D.Disk old → IsCommitted half (D.files old) (D.files mid)
        → LeavesOver D.Disk old mid (IsBeforeOrAfter (files_on D.Disk old) half)
        → LeavesOver D.Disk mid new (IsBeforeOrAfter (files_on D.Disk mid) last)
        → AreOtherFiles half (files_on D.Disk old) → AreOtherFiles half after
        → LeavesOver D.Disk old new (IsBeforeOrAfter (files_on D.Disk old) after)
        → ⊥ }
{}
