//! The tests of `edge_metrics`: of its texts as a whole.
#![tactic(auto)]

#[cfg(test)]
mod page;
#[cfg(test)]
mod text;
