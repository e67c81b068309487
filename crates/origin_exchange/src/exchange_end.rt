//! How an exchange with an origin ends.

ghost use Rattle.std.specs.Prelude.{IfOk};
ghost use Rattle.origin_exchange.specs.Behind.{FollowsHead};

use crate::behind::Behind;
use fetch_outcomes::{FetchFault, Lost};
use origin_http::Response;

/// How an exchange has ended.
#[derive(Drop)]
pub struct ExchangeEnd<I> {
    /// What has come.
    pub came: Response,
    /// What is left of the connection behind it.
    pub behind: Behind<I>,
}

impl<I: Drop> ExchangeEnd<I> {
    /// This has come, over a connection of which the HTTP library leaves so much.
    pub(crate) fn of(came: Response, left: Behind<I>) -> ExchangeEnd<I>
        ensures { IfOk result.came (λ page. FollowsHead page.0 result.behind) }
    {
        let behind = left.after(&came);
        ExchangeEnd { came, behind }
    }

    /// Nothing has come, for this reason; the connection is closed.
    pub fn lost(lost: Lost) -> ExchangeEnd<I>
        ensures { IfOk result.came (λ page. FollowsHead page.0 result.behind) }
    {
        ExchangeEnd {
            came: Err(lost),
            behind: Behind::End,
        }
    }

    /// The connection was cut before anything had come.
    pub fn cut() -> ExchangeEnd<I>
        ensures { IfOk result.came (λ page. FollowsHead page.0 result.behind) }
    {
        ExchangeEnd::lost(Lost::Fault(FetchFault::Cut))
    }
}
