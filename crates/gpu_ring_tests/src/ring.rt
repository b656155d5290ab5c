//! Rings of few bytes.

mod refused;
mod rows;
