//! The tests of `shared_cache`, `fetch_workers` and `hyper_edge`: of what no client or origin of a server can show.
#![tactic(auto)]

#[cfg(test)]
mod tests;
