//! What the crates above read and write parts of texts with: numbers in decimal digits, texts that are cut at a
//! separator, codes as numbers, and how often something is done.
#![tactic(auto)]

pub mod code_numbers;
pub mod decimal;
pub mod period;
pub mod separators;
