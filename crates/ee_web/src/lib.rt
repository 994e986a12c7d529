//! The module of the web page: the store's calls over a mirror of the flash, each with the list of
//! steps that it takes. A static library with a C interface, without a heap, which `web/build`
//! links as WebAssembly.
//!
//! The caller lends the mirror: words, a flag for each, wears (`specs/Mirror.antt`). A call makes a
//! draft of the device, which lists a step in place of taking it (`specs/Draft.antt`), and plays
//! the list at its end. A list that is too short, or words that are no store, write nothing.
//!
//! # What a contract sees
//!
//! `specs/Calls.antt`, `Looks.antt` and `Judging.antt`: what each call leaves and finds;
//! `specs/Answers.antt`: which number stands for which answer; `specs/Exports.antt`: the lent
//! memory.
//!
//! # What is proved
//!
//! Each call says its answer and what the mirror means afterwards by the relations of `ee_core`:
//! each listed step can be taken when it comes, and in order they lead from what the mirror meant
//! to what it means (`MakesCall`). Each refusal has its cause, a list that is too short among them.
//! `ee_read`, `ee_next`, `ee_counts` and `ee_bad_words` find exactly what the mirror says (`Looks`,
//! `CountsIn`, `Judges`).
//!
//! # What is only tested
//!
//! What a front of a list leaves, and that a list with a place for each step is never refused
//! (`web/test`).
//!
//! # Read first
//!
//! `specs/Exports.antt`.
#![tactic(auto)]

mod answer;
mod draft;
mod drafting;
mod exports;
mod judging;
mod listing;
mod looking;
mod looks;
mod mirror;
mod playing;
mod request;
