//! The tests of the libraries up to `edge_case`: of what neither a row of `rows` nor a case can show.
#![tactic(auto)]

#[cfg(test)]
mod tests;
