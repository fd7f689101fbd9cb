//! Tests of the whole core that look inside it: marks of a crowd, what one call fills, and slots that are used again.
//! Nothing but tests.
#![tactic(auto)]

#[cfg(test)]
mod clients;
#[cfg(test)]
mod fills;
#[cfg(test)]
mod marks;
#[cfg(test)]
mod slots;
