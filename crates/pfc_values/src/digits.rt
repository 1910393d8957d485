//! Blanks and digits at the front of bytes.
ghost use Rattle.std.specs.Prelude.{◌≡◌, ◌≤◌, length, take, drop, min};
ghost use Rattle.pfc_values.specs.Inputs.{is_blank, behind_blanks, digits, behind_digits, number_behind};

/// A number that is too large for an integer, with either sign. A number above it is taken as this one.
pub(crate) const TOO_LARGE: u64 = 4_294_967_296;

/// How many blanks, tabs and line ends stand at the front.
pub(crate) fn blanks_length(bytes: &[u8]) -> usize
    ensures behind { drop result bytes.now ≡ behind_blanks bytes.now }
    ensures within { result ≤ length bytes.now }
{
    for (at, b) in bytes.iter().enumerate() {
        if !is_blank(*b) {
            return at;
        }
    }
    bytes.len()
}

fn is_blank(b: u8) -> bool
    ensures { result ≡ is_blank b }
{
    matches!(b, b'\t' | b'\n' | b' ')
}

/// How many digits stand at the front.
pub(crate) fn digits_length(bytes: &[u8]) -> usize
    ensures digits { take result bytes.now ≡ digits bytes.now }
    ensures behind { drop result bytes.now ≡ behind_digits bytes.now }
    ensures within { result ≤ length bytes.now }
{
    for (at, b) in bytes.iter().enumerate() {
        if !b.is_ascii_digit() {
            return at;
        }
    }
    bytes.len()
}

/// The number that digits write, or `TOO_LARGE` where it is larger.
pub(crate) fn number(digits: &[u8]) -> u64
    ensures { result ≡ min (number_behind 0 digits.now) TOO_LARGE }
{
    let mut value = 0;
    for b in digits {
        value = (value * 10 + u64::from(b.saturating_sub(b'0'))).min(TOO_LARGE);
    }
    value
}
