//! How long the bodies of answers may be.

ghost use Rattle.std.specs.Prelude.{◌≡◌, max};
ghost use Rattle.origin_http.specs.Lengths as spec;

use edge_types::{Answer, MAX_BODY};

/// How long the bodies of answers may be, in bytes, each at most `edge_types::LARGEST_BODY`.
///
/// Our profile.
#[derive(Clone, Copy, Debug)]
pub struct BodyLimits {
    /// Where the body is no template.
    pub body: usize,
    /// Where it is one.
    pub template: usize,
}

impl BodyLimits {
    /// The limits where none are set.
    pub fn unset() -> BodyLimits
        ensures { result ≡ record { body = 262144; template = 262144 } }
    {
        BodyLimits {
            body: MAX_BODY,
            template: MAX_BODY,
        }
    }

    /// How much of a body is gathered, before its head tells whether it is a template.
    pub fn most(self) -> usize
        ensures { result ≡ max self.body self.template }
    {
        self.body.max(self.template)
    }

    /// Whether the body of the answer is no longer than it may be. Takes no memory.
    pub(crate) fn allow(self, answer: &Answer) -> bool
        ensures { result ≡ spec.allow self answer.now.reply }
    {
        answer.body().len() <= self.most_of(answer.processed())
    }

    // How long a body may be that is a template, or isn't.
    fn most_of(self, is_template: bool) -> usize
        ensures { result ≡ spec.most_bytes self is_template }
    {
        if is_template {
            self.template
        } else {
            self.body
        }
    }
}
