//! Pages that several threads assemble. A `Source` is asked for answers, from which `assemble` makes
//! the page that one thread would make.
#![tactic(auto)]

mod assembler;
mod concurrent_worker;
mod crew;
mod desk;
mod fault;
pub mod laws;
mod log;
mod owed_fetches;
mod page_in_progress;
mod shared_desk;
mod wanted_page;
mod worker;

pub use assembler::{Assembled, Assembling, MAX_FETCHES, MAX_WORKERS, assemble, assemble_gated};
pub use fault::AssembleFault;
pub use owed_fetches::OwedFetches;
pub use page_in_progress::{Ended, Made, PageInProgress};
