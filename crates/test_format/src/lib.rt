//! Tests of readers and writers that fail or give little: of packets, feeds and listings in pieces, and of an archive
//! whose readers are stopped at each pair of points. Nothing but tests.
#![tactic(auto)]

#[cfg(test)]
mod devices;
#[cfg(test)]
mod failures;
#[cfg(test)]
mod feeds;
#[cfg(test)]
mod listings;
#[cfg(test)]
mod packets;
#[cfg(test)]
mod runs;
#[cfg(test)]
mod worked;
