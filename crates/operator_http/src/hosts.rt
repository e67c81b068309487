//! The names of hosts by which the operator may ask.

ghost use Rattle.std.specs.Prelude.{◌≡◌};
ghost use Rattle.operator_http.specs.Foreign as spec;

/// Names of hosts, as they were written: with commas between.
#[derive(Drop)]
pub struct HostNames {
    text: Vec<u8>,
}

impl HostNames {
    /// The names in this text, between which commas stand: none in an empty one.
    pub fn of(text: Vec<u8>) -> HostNames
        ensures { spec.names_of result ≡ text.items }
    {
        HostNames { text }
    }

    /// Whether a host is one of them, whatever the case of its letters.
    ///
    /// Source: RFC 3986, "Host".
    pub fn has(&self, host: &[u8]) -> bool
        ensures { result ≡ spec.is_among (spec.names_of self.now) host.now }
    {
        is_among(self.text.as_slice(), host)
    }
}

fn is_comma(byte: u8) -> bool
    ensures { result ≡ spec.is_comma byte }
{
    byte == b','
}

// Whether a host is one of the names.
fn is_among(names: &[u8], host: &[u8]) -> bool
    ensures { result ≡ spec.is_among names.now host.now }
{
    names
        .split(|byte| is_comma(*byte))
        .any(|name| is_named(host, name))
}

/// Whether a host has this name, whatever the case of its letters.
#[tactic(auto, unfolding(crate::specs::Foreign::is_named))]
pub(crate) fn is_named(host: &[u8], name: &[u8]) -> bool
    ensures { result ≡ spec.is_named host.now name.now }
{
    !name.is_empty() && host.eq_ignore_ascii_case(name)
}
