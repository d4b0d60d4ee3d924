//! The laws of the journal's bytes, for all values.
//!
//! Each is the contract of a function with nothing to do.
ghost use Rattle.std.specs.Prelude.{◌≡◌, ◌++◌, ◌∷◌, List, ℕ, Some, length, IsTrue, IsFalse};
ghost use Rattle.org_disk.specs.Names.{journal_name};
ghost use Rattle.org_splice.specs.Patches.{patched};
ghost use Rattle.org_splice.specs.Texts.{pairs_of};
ghost use Rattle.org_journal.specs.Gate.{is_open};
ghost use Rattle.org_journal.specs.Left.{is_left};
ghost use Rattle.org_journal.specs.Reading.{journal_at};
ghost use Rattle.org_journal.specs.Record.{BeginsWith, IsWellFormed, journal_bytes};
ghost use Rattle.org_journal.specs.Recovered.{Image, all_fit, kept_by, made_by, recovered, replayed};
ghost use Rattle.org_journal.specs.declared.record.Entry.{Entry};
ghost use Rattle.org_journal.specs.declared.record.Version.{Version};

/// The bytes of a well-formed record are read back as that record, in each version and whatever
/// stands after them. No bytes begin with two records.
pub fn records_read_back()
    ensures read { (version : Version) (entries : List Entry) (rest : List ℕ)
        → IsWellFormed version entries
        → journal_at (journal_bytes version entries ++ rest) ≡ Some entries }
    ensures one { (bytes : List ℕ) (a b : List Entry) → BeginsWith bytes a → BeginsWith bytes b
        → a ≡ b }
{}

/// After an open gate a record that was written recovers to what its entries make of the files;
/// after a closed one the files recover to themselves, whatever the journal holds.
pub fn written_records_recover()
    ensures opened { (version : Version) (entries : List Entry) (rest : List ℕ) (image : Image)
        → IsWellFormed version entries → IsTrue (all_fit entries image)
        → image journal_name ≡ 1 ∷ (journal_bytes version entries ++ rest)
        → recovered image ≡ Some (replayed entries image) }
    ensures closed { (image : Image) → IsFalse (is_open (image journal_name))
        → recovered image ≡ Some image }
{}

/// A replay makes of a file that a crash of this store left what its patches make of it, cut to the
/// final length: it cuts no such file but one that was longer, since a file that wasn't is no longer
/// than the final length. Only a file that another program made longer keeps what it has past that.
pub fn left_files_are_cut()
    ensures kept { (entry : Entry) (text : List ℕ) → IsTrue (is_left entry text)
        → kept_by entry.before entry.length (length text) ≡ entry.length }
    ensures made { (entry : Entry) (text : List ℕ) → IsTrue (is_left entry text)
        → made_by entry text ≡ patched (pairs_of entry.patches) entry.length text }
{}
