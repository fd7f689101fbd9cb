//! What a terminal and a watchdog read: plain text.
use crate::place::Place;
use crate::template::Piece::{self, Text, Value};
use crate::template::{Chosen, Section, StationRows};

/// The title, the counts, and the head of the table of stations.
const TOTALS: &[Piece] = &[
    Value(Place::Title),
    Text(b"\n"),
    Value(Place::Version),
    Text(b"\nlooks since "),
    Value(Place::Since),
    Text(b"\nseconds "),
    Value(Place::Passed),
    Text(b", clients "),
    Value(Place::OpenClients),
    Text(b", feeds "),
    Value(Place::OpenFeeds),
    Text(b", records "),
    Value(Place::Records),
    Text(b", refused "),
    Value(Place::Refused),
    Text(b", bytes sent "),
    Value(Place::SentBytes),
    Text(b"\nstations ok "),
    Value(Place::HeardCount),
    Text(b", waiting "),
    Value(Place::WaitingCount),
    Text(b", silent "),
    Value(Place::SilentCount),
    Text(
        b"\n\nNET\tSTATION\tSTATE\tAGE s\tLIMIT s\tHELD\tOF\tNEXT\tFOLLOW\tLAST RECORD\tOPEN TO\n",
    ),
];

/// The line of a station.
const STATION: &[Piece] = &[
    Value(Place::Network),
    Text(b"\t"),
    Value(Place::Code),
    Text(b"\t"),
    Value(Place::State),
    Text(b"\t"),
    Value(Place::Silence),
    Text(b"\t"),
    Value(Place::Limit),
    Text(b"\t"),
    Value(Place::Held),
    Text(b"\t"),
    Value(Place::Capacity),
    Text(b"\t"),
    Value(Place::NextNumber),
    Text(b"\t"),
    Value(Place::Followers),
    Text(b"\t"),
    Value(Place::Last),
    Text(b"\t"),
    Value(Place::Users),
    Text(b"\n"),
];

/// The line of a client.
const CLIENT: &[Piece] = &[
    Value(Place::Number),
    Text(b"\t"),
    Value(Place::Here),
    Text(b"\t"),
    Value(Place::Named),
    Text(b"\t"),
    Value(Place::Ahead),
    Text(b"\t"),
    Value(Place::Lost),
    Text(b"\t"),
    Value(Place::Bytes),
    Text(b"\t"),
    Value(Place::Address),
    Text(b"\n"),
];

/// The two tables, of stations and of clients.
static PLAIN: [Section; 4] = [
    Section::Once(TOTALS),
    Section::Stations(StationRows {
        chosen: Chosen::All,
        pieces: STATION,
    }),
    Section::Once(&[Text(b"\nNUMBER\tHERE s\tNAMED\tAHEAD\tLOST\tBYTES\tADDRESS\n")]),
    Section::Clients(CLIENT),
];

/// The two tables, of stations and of clients.
pub fn plain() -> &'static [Section] {
    &PLAIN
}

/// The counts, and the table of the stations that are silent.
static PLAIN_SILENT: [Section; 2] = [
    Section::Once(TOTALS),
    Section::Stations(StationRows {
        chosen: Chosen::Silent,
        pieces: STATION,
    }),
];

/// The counts, and the table of the stations that are silent.
pub fn plain_silent() -> &'static [Section] {
    &PLAIN_SILENT
}

/// The line of a silent station.
const SILENT_STATION: &[Piece] = &[
    Text(b"silent "),
    Value(Place::Network),
    Text(b" "),
    Value(Place::Code),
    Text(b" "),
    Value(Place::Silence),
    Text(b" s\n"),
];

/// How many stations are ok, waiting and silent, and which are silent.
static HEALTH: [Section; 2] = [
    Section::Once(&[
        Text(b"ok "),
        Value(Place::HeardCount),
        Text(b", waiting "),
        Value(Place::WaitingCount),
        Text(b", silent "),
        Value(Place::SilentCount),
        Text(b"\n"),
    ]),
    Section::Stations(StationRows {
        chosen: Chosen::Silent,
        pieces: SILENT_STATION,
    }),
];

/// How many stations are ok, waiting and silent, and which are silent.
pub fn health() -> &'static [Section] {
    &HEALTH
}
