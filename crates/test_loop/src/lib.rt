//! Tests of the loop over ports in memory: each call that fails, and random ports beside a plain loop. Nothing but
//! tests.
#![tactic(auto)]

#[cfg(test)]
mod failures;
#[cfg(test)]
mod random;
#[cfg(test)]
mod runs;
