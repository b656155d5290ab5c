//! Rows of a table in pages: more room copies no row, but those of a first page that is not whole yet.
#![tactic(auto)]

mod rows;

pub use rows::Rows;
