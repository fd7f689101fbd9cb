//! What a program reads: JSON (RFC 8259).
use crate::place::Place;
use crate::template::Piece::{self, Text, TextOrNull, Value};
use crate::template::Section;

/// What stands before the stations.
const TOTALS: &[Piece] = &[
    Text(b"{\"title\":\""),
    Value(Place::Title),
    Text(b"\",\"version\":\""),
    Value(Place::Version),
    Text(b"\",\"looks_since\":"),
    TextOrNull(Place::SinceKnown),
    Text(b",\"seconds\":"),
    Value(Place::Passed),
    Text(b",\n\"counts\":{\"clients\":"),
    Value(Place::OpenClients),
    Text(b",\"feeds\":"),
    Value(Place::OpenFeeds),
    Text(b",\"records\":"),
    Value(Place::Records),
    Text(b",\"refused\":"),
    Value(Place::Refused),
    Text(b",\"bytes_sent\":"),
    Value(Place::SentBytes),
    Text(b",\"ok\":"),
    Value(Place::HeardCount),
    Text(b",\"waiting\":"),
    Value(Place::WaitingCount),
    Text(b",\"silent\":"),
    Value(Place::SilentCount),
    Text(b"},\n\"stations\":["),
];

/// A station.
const STATION: &[Piece] = &[
    Text(b"\n{\"network\":\""),
    Value(Place::Network),
    Text(b"\",\"station\":\""),
    Value(Place::Code),
    Text(b"\",\"description\":\""),
    Value(Place::Description),
    Text(b"\",\"state\":\""),
    Value(Place::State),
    Text(b"\",\"age\":"),
    Value(Place::Silence),
    Text(b",\"limit\":"),
    Value(Place::LimitOrNull),
    Text(b",\"held\":"),
    Value(Place::Held),
    Text(b",\"capacity\":"),
    Value(Place::Capacity),
    Text(b",\"next\":\""),
    Value(Place::NextNumber),
    Text(b"\",\"followers\":"),
    Value(Place::Followers),
    Text(b",\"last_start\":"),
    TextOrNull(Place::StartKnown),
    Text(b",\"last_end\":"),
    TextOrNull(Place::Stop),
    Text(b",\"open_to\":\""),
    Value(Place::Users),
    Text(b"\"}"),
];

/// A client.
const CLIENT: &[Piece] = &[
    Text(b"\n{\"number\":"),
    Value(Place::Number),
    Text(b",\"address\":\""),
    Value(Place::Address),
    Text(b"\",\"here\":"),
    Value(Place::Here),
    Text(b",\"named\":"),
    Value(Place::Named),
    Text(b",\"ahead\":"),
    Value(Place::Ahead),
    Text(b",\"lost\":"),
    Value(Place::Lost),
    Text(b",\"bytes\":"),
    Value(Place::Bytes),
    Text(b"}"),
];

/// What the two plain tables tell, and the descriptions.
static JSON: [Section; 5] = [
    Section::Once(TOTALS),
    Section::StationList(STATION),
    Section::Once(&[Text(b"],\n\"clients\":[")]),
    Section::ClientList(CLIENT),
    Section::Once(&[Text(b"]}\n")]),
];

/// What the two plain tables tell, and the descriptions.
pub fn json() -> &'static [Section] {
    &JSON
}
