//! Tests of what reports and pictures print: that another reader of JSON reads them back, and single texts.
#![tactic(auto)]

#[cfg(test)]
mod printed;
