//! How long answers are good for, in whole seconds of the cache's clock.

ghost use Rattle.std.specs.Prelude.{◌≡◌, ℕ, is_some};
ghost use Rattle.fragment_cache.specs.Times.{expiry_of, fresh_until, extension_of, is_failing};

use edge_types::{Answer, Control, Reply};

/// Whether an answer is to be stored, whenever it lands: a success with a `max-age` of at least 1 and without `no-store`.
///
/// Our profile.
pub fn is_to_be_stored(answer: &Answer) -> bool
    ensures { (now : ℕ) → result ≡ is_some (expiry_of answer.now now) }
{
    expiry(answer, 0).is_some()
}

// Until when an answer that landed now is fresh; `None` if it isn't to be stored.
pub(crate) fn expiry(answer: &Answer, now: u64) -> Option<u64>
    ensures { result ≡ expiry_of answer.now now }
{
    if !answer.succeeded() {
        return None;
    }
    match answer.reply() {
        Reply::Failed => None,
        Reply::Got { control, .. } => control_expiry(control, now),
    }
}

ghost use Rattle.std.specs.Prelude.{None, if◌then◌else◌};

// Until when a success with this control is fresh; `None` if it isn't to be stored.
fn control_expiry(control: &Control, now: u64) -> Option<u64>
    ensures { result ≡ (if control.now.no_store then None else fresh_until now control.now.max_age) }
{
    match control.max_age {
        Some(age) if age >= 1 && !control.no_store => Some(now.saturating_add(u64::from(age))),
        _ => None,
    }
}

// For how many seconds past its expiry an answer may bridge a failing origin.
pub(crate) fn extension(answer: &Answer) -> u32
    ensures { result ≡ extension_of answer.now.reply }
{
    match answer.reply() {
        Reply::Failed => 0,
        Reply::Got { control, .. } => control.extension,
    }
}

/// Whether the origin fails with an answer, so that a stored one may bridge it: nothing could be fetched, or the status is
/// 500 to 599.
///
/// Our profile.
pub fn is_failing(answer: &Answer) -> bool
    ensures { result ≡ is_failing answer.now.reply }
{
    match answer.reply() {
        Reply::Failed => true,
        Reply::Got { head, .. } => 500 <= head.status && head.status <= 599,
    }
}
