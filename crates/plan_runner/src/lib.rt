//! Pages that any scheduler may drive, in any order of answers. `Page` is the one type;
//! `specs/Headline.antt` is what it promises, `specs/Page.antt` and `Calls.antt` say what clauses see
//! of it and what each call does.
#![tactic(auto)]

mod advance;
mod ahead;
mod answers;
mod course;
mod events;
mod frames;
mod hand;
mod handlers;
pub mod laws;
mod leg;
mod machine;
mod outcome;
mod page;
mod step;

pub use events::{Event, Running, run_events, run_to_end};
pub use page::{MAX_AHEAD, Page, PageError, PostFault, State};
