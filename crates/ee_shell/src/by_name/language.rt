//! The languages that a header is written in.

/// What a header is written in.
///
/// Source: ours.
#[derive(Clone, Copy, Debug, PartialEq, Eq)]
pub enum Language {
    /// C, from C99 on.
    C,
    /// Rust, from the edition of 2021 on.
    Rust,
}
