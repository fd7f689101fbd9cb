//! What stands at a place of a template.
ghost use Rattle.std.specs.Prelude.{◌≡◌, ◌++◌, OnOk, decimal};
ghost use Rattle.status_page.specs.Places.{bucket_text, client_text, count_text, head_text};
ghost use Rattle.status_page.specs.Places.{server_text, state_count_text, state_text};
ghost use Rattle.status_page.specs.Places.{flag_text, limit_text, station_text, value_text};

use crate::texts::{
    put_address, put_age, put_bars, put_known, put_last, put_micros, put_number, put_since,
    put_start, put_start_known, put_stop, put_stop_seconds,
};
use crate::value::{
    ClientStatus, NamedCount, StationState, StationStatus, StatusValue, TurnBucket, count_in,
};
use std::alloc::AllocError;

/// A place of a template. Each is a value of one kind of row, and empty in another.
#[derive(Clone, Copy)]
pub enum Place {
    /// Of a server: its title, the program with its version, how long it serves in seconds and in a unit that suits
    /// it, since when (`-` if that is not known), and the same with nothing if it is not.
    Title,
    Version,
    Passed,
    PassedAge,
    Since,
    SinceKnown,
    /// After how many seconds without a record a station is silent of which the configuration says nothing else.
    SilentAfter,
    /// How many stations are heard, wait and are silent.
    HeardCount,
    WaitingCount,
    SilentCount,
    /// How many clients and feeds are connected, records taken and refused, bytes sent, and records that clients lost.
    OpenClients,
    OpenFeeds,
    Records,
    Refused,
    SentBytes,
    LostRecords,
    /// How long turns took together, in seconds, and how many there were.
    TurnSeconds,
    Turns,
    /// Of a station: its codes, its description and who may use it.
    Network,
    Code,
    Description,
    Users,
    /// `ok`, `waiting` or `silent`; and 1 if it is silent, else 0.
    State,
    IsSilent,
    /// After how many seconds without a record it is silent; `-` if never, and `null` if never.
    Limit,
    LimitOrNull,
    /// How many of its records are held, how many are at most, the next number, and how many came.
    Held,
    Capacity,
    NextNumber,
    Came,
    /// From when to when its last record goes; when it begins, `-` without one, and nothing without one; when it ends,
    /// also in seconds since 1970.
    Last,
    Start,
    StartKnown,
    Stop,
    StopSeconds,
    /// How long ago its last record came, in seconds and in a unit that suits it.
    Silence,
    SilenceAge,
    /// The records of each of the last minutes, as steps of a path.
    Bars,
    Followers,
    /// Of a client: its number, its address, for how many seconds it is here, how many stations it named, how many
    /// bytes it was sent, how many records are ahead of it, and how many it lost.
    Number,
    Address,
    Here,
    Named,
    Bytes,
    Ahead,
    Lost,
    /// Of a count, also of turns: its name or its bound, and the count.
    Name,
    Count,
    /// Of an answer: its code, what its body is, and how long that is.
    StatusCode,
    Kind,
    Length,
}

/// What the head of an answer says.
#[derive(Clone, Copy)]
pub struct HeadValue<'a> {
    pub code: &'a [u8],
    pub kind: &'a [u8],
    pub length: u64,
}

/// What a row is of.
#[derive(Clone, Copy)]
pub enum Row<'a> {
    Server(&'a StatusValue<'a>),
    Station(&'a StationStatus<'a>),
    Client(&'a ClientStatus),
    Count(&'a NamedCount<'a>),
    Bucket(&'a TurnBucket<'a>),
    Head(&'a HeadValue<'a>),
}

/// How many stations stand so.
fn put_count_in(
    text: &mut Vec<u8>,
    stations: &[StationStatus<'_>],
    state: StationState,
) -> Result<(), AllocError>
    ensures { OnOk result (text.new.items ≡ text.old.items ++ state_count_text state stations.now) }
{
    put_number(text, count_in(stations, state))
}

/// A value of a server.
fn put_server(text: &mut Vec<u8>, status: &StatusValue<'_>, place: Place) -> Result<(), AllocError>
    ensures { OnOk result (text.new.items ≡ text.old.items ++ server_text status.now place) }
{
    match place {
        Place::Title => text.extend_from_slice(status.title),
        Place::Version => text.extend_from_slice(status.version),
        Place::Passed => put_number(text, status.passed),
        Place::PassedAge => put_age(text, status.passed),
        Place::Since => put_since(text, status.began),
        Place::SinceKnown => put_known(text, status.began),
        Place::SilentAfter => put_number(text, status.silent_after),
        Place::HeardCount => put_count_in(text, status.stations, StationState::Heard),
        Place::WaitingCount => put_count_in(text, status.stations, StationState::Waiting),
        Place::SilentCount => put_count_in(text, status.stations, StationState::Silent),
        Place::OpenClients => put_number(text, status.open_clients),
        Place::OpenFeeds => put_number(text, status.open_feeds),
        Place::Records => put_number(text, status.records),
        Place::Refused => put_number(text, status.refused),
        Place::SentBytes => put_number(text, status.client_bytes),
        Place::LostRecords => put_number(text, status.client_lost),
        Place::TurnSeconds => put_micros(text, status.turns.micros),
        Place::Turns => put_number(text, status.turns.count),
        _ => Ok(()),
    }
}

/// The word for how a station stands.
fn word_of(state: StationState) -> &'static [u8]
    ensures { result.now ≡ state_text state }
{
    match state {
        StationState::Heard => b"ok",
        StationState::Waiting => b"waiting",
        StationState::Silent => b"silent",
    }
}

/// The digit for whether something is so.
fn flag_of(is_so: bool) -> &'static [u8]
    ensures { result.now ≡ flag_text is_so }
{
    if is_so { b"1" } else { b"0" }
}

/// A number of seconds, or what stands there without one.
fn put_limit(text: &mut Vec<u8>, limit: Option<u64>, without: &[u8]) -> Result<(), AllocError>
    ensures { OnOk result (text.new.items ≡ text.old.items ++ limit_text without.now limit) }
{
    match limit {
        Some(seconds) => put_number(text, seconds),
        None => text.extend_from_slice(without),
    }
}

/// A value of a station.
fn put_station(
    text: &mut Vec<u8>,
    station: &StationStatus<'_>,
    place: Place,
) -> Result<(), AllocError>
    ensures { OnOk result (text.new.items ≡ text.old.items ++ station_text station.now place) }
{
    match place {
        Place::Network => text.extend_from_slice(station.network),
        Place::Code => text.extend_from_slice(station.code),
        Place::Description => text.extend_from_slice(station.description),
        Place::Users => text.extend_from_slice(station.users),
        Place::State => text.extend_from_slice(word_of(station.state())),
        Place::IsSilent => text.extend_from_slice(flag_of(station.is_silent())),
        Place::Limit => put_limit(text, station.silent_after, b"-"),
        Place::LimitOrNull => put_limit(text, station.silent_after, b"null"),
        Place::Held => put_number(text, station.held),
        Place::Capacity => put_number(text, station.capacity),
        Place::NextNumber => text.extend_from_slice(&station.next_number),
        Place::Came => put_number(text, station.records),
        Place::Last => put_last(text, station.last),
        Place::Start => put_start(text, station.last),
        Place::StartKnown => put_start_known(text, station.last),
        Place::Stop => put_stop(text, station.last),
        Place::StopSeconds => put_stop_seconds(text, station.last),
        Place::Silence => put_number(text, station.age),
        Place::SilenceAge => put_age(text, station.age),
        Place::Bars => put_bars(text, station.minutes),
        Place::Followers => put_number(text, station.followers),
        _ => Ok(()),
    }
}

/// A value of a client.
fn put_client(text: &mut Vec<u8>, client: &ClientStatus, place: Place) -> Result<(), AllocError>
    ensures { OnOk result (text.new.items ≡ text.old.items ++ client_text client.now place) }
{
    match place {
        Place::Number => put_number(text, client.number),
        Place::Address => put_address(text, &client.address),
        Place::Here => put_number(text, client.seconds),
        Place::Named => put_number(text, client.named),
        Place::Bytes => put_number(text, client.bytes),
        Place::Ahead => put_number(text, client.behind),
        Place::Lost => put_number(text, client.lost),
        _ => Ok(()),
    }
}

/// A value of a count.
fn put_count(text: &mut Vec<u8>, one: &NamedCount<'_>, place: Place) -> Result<(), AllocError>
    ensures { OnOk result (text.new.items ≡ text.old.items ++ count_text one.now place) }
{
    match place {
        Place::Name => text.extend_from_slice(one.name),
        Place::Count => put_number(text, one.count),
        _ => Ok(()),
    }
}

/// A value of a count of turns.
fn put_bucket(text: &mut Vec<u8>, bucket: &TurnBucket<'_>, place: Place) -> Result<(), AllocError>
    ensures { OnOk result (text.new.items ≡ text.old.items ++ bucket_text bucket.now place) }
{
    match place {
        Place::Name => text.extend_from_slice(bucket.bound),
        Place::Count => put_number(text, bucket.count),
        _ => Ok(()),
    }
}

/// A value of the head of an answer.
fn put_head(text: &mut Vec<u8>, head: &HeadValue<'_>, place: Place) -> Result<(), AllocError>
    ensures { OnOk result (text.new.items ≡ text.old.items ++ head_text head.now place) }
{
    match place {
        Place::StatusCode => text.extend_from_slice(head.code),
        Place::Kind => text.extend_from_slice(head.kind),
        Place::Length => put_number(text, head.length),
        _ => Ok(()),
    }
}

/// The value at a place of a row. Only memory can lack.
pub fn put_value(text: &mut Vec<u8>, row: &Row<'_>, place: Place) -> Result<(), AllocError>
    ensures { OnOk result (text.new.items ≡ text.old.items ++ value_text row.now place) }
{
    match row {
        Row::Server(status) => put_server(text, status, place),
        Row::Station(station) => put_station(text, station, place),
        Row::Client(client) => put_client(text, client, place),
        Row::Count(one) => put_count(text, one, place),
        Row::Bucket(bucket) => put_bucket(text, bucket, place),
        Row::Head(head) => put_head(text, head, place),
    }
}
