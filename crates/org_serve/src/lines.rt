//! The lines of an input.
ghost use Rattle.std.specs.Prelude.{◌≡◌, ◌++◌, ◌∷◌, [], MatchOption};
ghost use Rattle.org_serve.specs.Lines.{cut};

use memchr::memchr;

/// The first line, without its newline, and what follows the newline.
pub fn first_line(bytes: &[u8]) -> Option<(&[u8], &[u8])>
    ensures free { MatchOption result ((cut bytes.now).lines ≡ []) (λ r. (cut r.0.now).lines ≡ []) }
    ensures whole { MatchOption result ((cut bytes.now).rest ≡ bytes.now)
        (λ r. bytes.now ≡ r.0.now ++ 10 ∷ r.1.now) }
{
    match memchr(b'\n', bytes) {
        None => None,
        Some(at) => {
            let (line, rest) = bytes.split_at(at);
            Some((line, &rest[1..]))
        }
    }
}
