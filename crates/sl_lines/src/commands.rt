//! The commands that a line can be.
use crate::actions::Action;

/// What a line asks (SeedLink 3, commands). Codes and patterns are the line's own bytes, 1 to 256 of them and none a
/// space: whether a station, a network or a pattern is meant by them is not judged here.
#[derive(Clone, Copy)]
pub enum Command<'a> {
    /// Spaces alone.
    Blank,
    /// `HELLO`: who the server is.
    Hello,
    /// `CAT`: the list of stations.
    Cat,
    /// `BYE`: the end of the connection.
    Bye,
    /// `END`: the end of the negotiation, with which the transfer begins.
    End,
    /// `STATION station [network]`: the station that the commands behind it are for.
    Station {
        station: &'a [u8],
        network: Option<&'a [u8]>,
    },
    /// `SELECT [pattern]`: one more pattern of the records that are wanted, or none any more.
    Select {
        pattern: Option<&'a [u8]>,
    },
    /// `DATA`, `FETCH` or `TIME`: what is asked of the station.
    Act(Action),
    /// Anything else: an unknown name, too few words or too many, a word that is no number or no time, or a line of
    /// more than 256 bytes.
    Bad,
}
