//! DirectX 12.

pub mod laws;
#[cfg(test)]
mod refused;
#[cfg(test)]
mod tests;
