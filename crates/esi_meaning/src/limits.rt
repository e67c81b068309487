//! How far a page may go.

ghost use Rattle.std.specs.Prelude.{◌↔◌, IsTrue};
ghost use Rattle.esi_meaning.specs.Meaning.{AreLevels};

/// The most legs that a page may try: one `src` or one `alt` each.
///
/// Our profile.
pub const MAX_LEGS: u16 = 1000;

/// The fewest levels under a page.
///
/// Our profile.
pub const MIN_LEVELS: u8 = 1;

/// The most levels under a page.
///
/// Our profile.
pub const MAX_LEVELS: u8 = 8;

/// Whether a page may have this many levels under it: `MIN_LEVELS` to `MAX_LEVELS`. Takes no
/// memory.
///
/// Our profile.
pub fn are_levels(levels: u8) -> bool
    ensures { IsTrue result ↔ AreLevels levels }
{
    MIN_LEVELS <= levels && levels <= MAX_LEVELS
}
