//! The pieces that templates are read as: bytes, escapes, and escapes that aren't served.
ghost use Rattle.std.specs.Prelude.{◌≡◌, ◌∷◌, ◌<◌, [], length, MatchOption};
ghost use Rattle.org_capture.specs.Template.{escape_of, pieces_of};

/// A byte or an escape of a template.
#[derive(Clone, Copy)]
pub(crate) enum Piece {
    /// A byte that stands for itself.
    Byte(u8),
    /// The moment's timestamp: active or not, with the time or without.
    Stamp { active: bool, timed: bool },
    /// The initial text.
    Initial,
    /// The place of the cursor, which leaves no byte.
    Cursor,
    /// An escape that isn't served.
    Unknown,
}

/// What a percent sign with this byte after it is, unless the sign stands for itself.
fn escape_of(byte: u8) -> Option<Piece>
    ensures { result ≡ escape_of byte }
{
    let (active, timed) = match byte {
        b't' => (true, false),
        b'T' => (true, true),
        b'u' => (false, false),
        b'U' => (false, true),
        b'i' => return Some(Piece::Initial),
        b'?' => return Some(Piece::Cursor),
        b'(' | b'[' | b'<' | b'^' | b':' | b'*' | b'\\' => return Some(Piece::Unknown),
        _ if byte.is_ascii_alphabetic() => return Some(Piece::Unknown),
        _ => return None,
    };
    Some(Piece::Stamp { active, timed })
}

/// The first piece of a template, and what stands after it.
pub(crate) fn first_piece(template: &[u8]) -> Option<(Piece, &[u8])>
    ensures value { MatchOption result (template.now ≡ [])
        (λ found. pieces_of template.now ≡ found.0 ∷ pieces_of found.1.now) }
    ensures shorter { MatchOption result (template.now ≡ [])
        (λ found. length found.1.now < length template.now) }
{
    match template {
        [] => None,
        [b'%', byte, rest @ ..] => match escape_of(*byte) {
            Some(piece) => Some((piece, rest)),
            None => Some((Piece::Byte(b'%'), template.split_at(1).1)),
        },
        [byte, rest @ ..] => Some((Piece::Byte(*byte), rest)),
    }
}
