//! How many requests had which status.

ghost use Rattle.std.specs.Prelude.{◌≡◌};
ghost use Rattle.edge_metrics.specs.Counts as spec;

use crate::counts::one_more_if;

/// How many requests were answered, by the class of the status.
///
/// Source: RFC 9110, "Status Codes".
#[derive(Clone, Copy, Debug, Drop, PartialEq, Eq)]
pub struct Statuses {
    /// Below 200.
    pub informational: u64,
    /// From 200 to 299.
    pub successful: u64,
    /// From 300 to 399.
    pub redirection: u64,
    /// From 400 to 499.
    pub client_error: u64,
    /// From 500 on.
    pub server_error: u64,
}

impl Statuses {
    pub(crate) fn new() -> Statuses
        ensures { result ≡ spec.no_statuses }
    {
        Statuses {
            informational: 0,
            successful: 0,
            redirection: 0,
            client_error: 0,
            server_error: 0,
        }
    }

    /// Counts a status.
    pub(crate) fn count(&mut self, status: u16)
        ensures { self.new ≡ spec.counted_status status self.old }
    {
        *self = Statuses {
            informational: one_more_if(status < 200, self.informational),
            successful: one_more_if(200 <= status && status < 300, self.successful),
            redirection: one_more_if(300 <= status && status < 400, self.redirection),
            client_error: one_more_if(400 <= status && status < 500, self.client_error),
            server_error: one_more_if(500 <= status, self.server_error),
        };
    }

    pub(crate) fn plus(&self, other: &Statuses) -> Statuses
        ensures { result ≡ spec.sum_of_statuses self.now other.now }
    {
        Statuses {
            informational: self.informational.saturating_add(other.informational),
            successful: self.successful.saturating_add(other.successful),
            redirection: self.redirection.saturating_add(other.redirection),
            client_error: self.client_error.saturating_add(other.client_error),
            server_error: self.server_error.saturating_add(other.server_error),
        }
    }
}
