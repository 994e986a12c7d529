//! The tests of the libraries.
//!
//! A test says what no clause says; what each command prints and leaves is data (`ee_cases`). What
//! tests need beside the product is in `ee_fakes`. Nothing stands on this crate.
#![tactic(auto)]

#[cfg(test)]
mod tests;
