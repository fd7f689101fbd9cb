//! Tests of the reader: beside a server, and with each read and write that fails. Nothing but tests.
#![tactic(auto)]

#[cfg(test)]
mod beside_a_server;
#[cfg(test)]
mod failures;
#[cfg(test)]
mod pieces;
