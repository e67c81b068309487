//! Which URLs are private, and what is told of a reader for them.

ghost use Rattle.std.specs.Prelude.{◌≡◌, nat_eq};
ghost use Rattle.std.specs.List.{starts_with};
ghost use Rattle.origin_http.specs.Private as spec;

use edge_types::{HeadField, HeadFields, PageUrl};

/// Whether a URL begins with one of these. Takes no memory.
///
/// Our profile.
pub fn is_private(prefixes: &[PageUrl], url: &PageUrl) -> bool
    ensures { result ≡ spec.is_private prefixes.now url.now }
{
    prefixes.iter().any(|prefix| begins_with(url, prefix))
}

fn begins_with(url: &PageUrl, prefix: &PageUrl) -> bool
    ensures { result ≡ starts_with nat_eq url.now prefix.now }
{
    url.as_bytes().starts_with(prefix.as_bytes())
}

/// Which of a reader's own fields an origin is told for a URL: none, where it isn't private. Takes no memory.
///
/// Our profile.
pub fn told_for(is_private: bool, own: &HeadFields) -> &[HeadField]
    ensures { result.now ≡ spec.told_for is_private own.now }
{
    if is_private { own.as_slice() } else { &[] }
}
