//! Metal.

pub mod laws;
#[cfg(test)]
mod refused;
#[cfg(test)]
mod tests;
