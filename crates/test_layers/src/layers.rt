//! Tests of the pure layers.
//!
//! The worked examples are scripts of calls, and `memory` tries each call that can answer want of
//! memory with each amount of it.
//! A line of a script is a call, an arrow and its whole answer: `index-path Abc -> 3/a/abc`.

mod body;
mod bytes;
mod convert_calls;
mod converting;
mod counted;
mod line_calls;
mod lines;
mod manifest_text;
mod manifests;
mod memory;
mod name_calls;
mod names;
mod part_calls;
mod patterns;
mod refusal_calls;
mod refusals;
mod routing;
mod script;
mod versions;
mod wire;
