//! Texts that are numbers.

ghost use Rattle.std.specs.Prelude.{◌≡◌, ◌<◌, ◌^◌, true};
ghost use Rattle.std.specs.Char.{is_ascii_digit};
ghost use Rattle.std.specs.List.{list_all};
ghost use Rattle.std.specs.Str.Parse.{digits_value};
ghost use Rattle.esi_expr.specs.Numbers.{is_digit_count, are_digits, is_negative, after_minus, number_of};

/// The most digits of a number.
///
/// Our profile.
pub const DIGIT_LIMIT: usize = 18;

/// The number that a text is: an optional `-` and 1 to 18 digits. `None` if it isn't a number.
#[tactic(auto, unfolding(crate::specs::Numbers::number_of))]
pub(crate) fn number_of(text: &[u8]) -> Option<i64>
    ensures { result ≡ number_of text.now }
{
    let digits = after_minus(text);
    if !are_digits(digits) {
        return None;
    }
    let magnitude = magnitude(digits) as i64;
    if is_negative(text) {
        Some(-magnitude)
    } else {
        Some(magnitude)
    }
}

// Whether the text begins with a minus.
fn is_negative(text: &[u8]) -> bool
    ensures { result ≡ is_negative text.now }
{
    matches!(text, [b'-', ..])
}

// What follows the minus, if the text begins with one.
fn after_minus(text: &[u8]) -> &[u8]
    ensures { result.now ≡ after_minus text.now }
{
    match text {
        [b'-', digits @ ..] => digits,
        _ => text,
    }
}

// Whether the text consists of digits, as many as a number may have.
fn are_digits(text: &[u8]) -> bool
    ensures { result ≡ are_digits text.now }
{
    is_digit_count(text.len()) && all_digits(text)
}

fn all_digits(text: &[u8]) -> bool
    ensures { result ≡ list_all is_ascii_digit text.now }
{
    text.iter().all(|byte| byte.is_ascii_digit())
}

/// Whether a number may have this many digits.
pub(crate) fn is_digit_count(len: usize) -> bool
    ensures { result ≡ is_digit_count len }
{
    0 < len && len <= DIGIT_LIMIT
}

// The value of digits.
fn magnitude(digits: &[u8]) -> u64
    requires { are_digits digits.now ≡ true }
    ensures value { result ≡ digits_value 10 digits.now }
    ensures small { result < 10 ^ 18 }
{
    let mut magnitude = 0;
    for digit in digits {
        magnitude = 10 * magnitude + u64::from(*digit - b'0');
    }
    magnitude
}
