// A number in decimal digits, and digits by themselves.
ghost use Rattle.std.specs.Prelude.{◌≡◌, true};
ghost use Rattle.std.specs.List.{list_all};
ghost use Rattle.std.specs.Char.{is_ascii_digit};
ghost use Rattle.files.specs.Number.{values_of, number_in};

use std::str;

// Larger numbers are told as this one.
const LARGEST: u64 = 1 << 32;

// The number that a text is, if it is digits and nothing else.
#[tactic(auto, using(crate::proofs::Laws::Numbers::readings))]
pub fn number_in(text: &[u8]) -> Option<u64>
    ensures { result ≡ number_in text.now }
{
    if text.is_empty() || !all_digits(text) {
        return None;
    }
    let digits = str::from_utf8(text).ok()?;
    Some(digits.parse::<u64>().unwrap_or(LARGEST).min(LARGEST))
}

// Whether a text is digits and nothing else.
pub fn all_digits(text: &[u8]) -> bool
    ensures { result ≡ list_all is_ascii_digit text.now }
{
    text.iter().all(|c| c.is_ascii_digit())
}

// Turns digits into their values.
#[tactic(auto, using(crate::proofs::Laws::Digits::turning))]
pub fn to_values(text: &mut [u8])
    requires { list_all is_ascii_digit text.old ≡ true }
    ensures { text.new ≡ values_of text.old }
{
    for c in text.iter_mut() {
        *c -= b'0';
    }
}
