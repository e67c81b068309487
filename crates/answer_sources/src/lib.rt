//! Where answers come from: a `Source` gives one after another, and a `ConcurrentSource` several at once to one page.
#![tactic(auto)]

mod alone;
mod answers;
mod clock;
mod concurrent_source;
mod gate;
mod given;
mod on_behalf;
mod one_by_one;
mod same;
mod source;
mod table_source;

pub use alone::{fetch_alone, fetch_or_fail, let_go};
pub use answers::{Answers, Found};
pub use clock::Clock;
pub use concurrent_source::{Arrival, Awaited, ConcurrentSource};
pub use gate::{Gate, OpenGate};
pub use given::{Given, Way, WayCounts};
pub use on_behalf::{Behalf, OnBehalf};
pub use one_by_one::OneByOne;
pub use same::same_answer;
pub use source::Source;
pub use table_source::TableSource;
