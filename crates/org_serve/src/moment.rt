//! MOMENT: a civil minute as `YYYY-MM-DD HH:MM`.
ghost use Rattle.std.specs.Prelude.{◌≡◌};
ghost use Rattle.std.specs.Option.{option_map};
ghost use Rattle.org_serve.specs.Grammar.{digit_of, pair_of, year_of, date_of, time_of, moment_of};

use org_stamp::Moment;

fn digit(b: u8) -> Option<u8>
    ensures { result ≡ digit_of b }
{
    if b'0' <= b && b <= b'9' {
        Some(b - b'0')
    } else {
        None
    }
}

fn pair(a: u8, b: u8) -> Option<u8>
    ensures { result ≡ pair_of a b }
{
    Some(10 * digit(a)? + digit(b)?)
}

fn year(a: u8, b: u8, c: u8, d: u8) -> Option<u16>
    ensures { result ≡ year_of a b c d }
{
    Some(100 * u16::from(pair(a, b)?) + u16::from(pair(c, d)?))
}

fn date(field: &[u8]) -> Option<(u16, (u8, u8))>
    ensures { option_map (λ date. (date.0, date.1.0, date.1.1)) result ≡ date_of field.now }
{
    match *field {
        [a, b, c, d, b'-', e, f, b'-', g, h] => year(a, b, c, d).zip(pair(e, f).zip(pair(g, h))),
        _ => None,
    }
}

fn time(field: &[u8]) -> Option<(u8, u8)>
    ensures { result ≡ time_of field.now }
{
    match *field {
        [b' ', a, b, b':', c, d] => pair(a, b).zip(pair(c, d)),
        _ => None,
    }
}

/// The moment that a field MOMENT is, if it is one.
#[tactic(auto, unfolding(crate::specs::Grammar::moment_of))]
pub fn moment(field: &[u8]) -> Option<Moment>
    ensures { result ≡ moment_of field.now }
{
    let (front, back) = field.split_at_checked(10)?;
    let (year, (month, day)) = date(front)?;
    let (hour, minute) = time(back)?;
    Moment::new(year, month, day, hour, minute)
}
