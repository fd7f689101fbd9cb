//! Templates: texts with places for values. The template's own text stands as it is, and each value is escaped.
ghost use Rattle.std.specs.Prelude.{◌≡◌, ◌++◌, OnOk, flat_map};
ghost use Rattle.status_page.specs.Places.{value_text};
ghost use Rattle.status_page.specs.Templates.{bucket_row, bucket_rows, client_list, client_row, client_rows};
ghost use Rattle.status_page.specs.Templates.{count_row, count_rows, counted_row, counted_rows, filled, is_chosen};
ghost use Rattle.status_page.specs.Templates.{later_client, later_station, piece_text, row_text, section_text};
ghost use Rattle.status_page.specs.Templates.{station_list, station_row, station_rows, text_or_null};

use crate::escape::{Language, put_escaped};
use crate::place::{Place, Row, put_value};
use crate::value::{ClientStatus, NamedCount, StationStatus, StatusValue, TurnBucket};
use std::alloc::AllocError;

/// A piece of a template.
#[derive(Clone, Copy)]
pub enum Piece {
    /// A text of the template, as it stands.
    Text(&'static [u8]),
    /// A value, escaped.
    Value(Place),
    /// A value of JSON: the value in double quotes, escaped, or `null` if it is empty.
    TextOrNull(Place),
}

/// Which stations have a row.
#[derive(Clone, Copy)]
pub enum Chosen {
    All,
    /// Those that are silent.
    Silent,
    /// Those of which a record is held.
    Holding,
}

/// The row of a station, and which stations have one.
#[derive(Clone, Copy)]
pub struct StationRows {
    pub chosen: Chosen,
    pub pieces: &'static [Piece],
}

/// A section of a template: once for the server, or a row for each of a list.
#[derive(Clone, Copy)]
pub enum Section {
    Once(&'static [Piece]),
    Stations(StationRows),
    Clients(&'static [Piece]),
    /// All stations, and all clients, with a comma between two of them.
    StationList(&'static [Piece]),
    ClientList(&'static [Piece]),
    /// For each reason for which records are refused.
    Refusals(&'static [Piece]),
    /// For each reason for which connections are turned away.
    Away(&'static [Piece]),
    /// For each of these for which some were.
    AwayAtAll(&'static [Piece]),
    /// For each bound of turns.
    Buckets(&'static [Piece]),
}

/// A value of JSON that may be missing.
fn put_text_or_null(text: &mut Vec<u8>, language: Language, bytes: &[u8]) -> Result<(), AllocError>
    ensures { OnOk result (text.new.items ≡ text.old.items ++ text_or_null language bytes.now) }
{
    if bytes.len() == 0 {
        return text.extend_from_slice(b"null");
    }
    text.extend_from_slice(b"\"")?;
    put_escaped(text, language, bytes)?;
    text.extend_from_slice(b"\"")
}

/// A piece of a row. The value is written into a buffer of its own first.
fn put_piece(
    text: &mut Vec<u8>,
    value: &mut Vec<u8>,
    language: Language,
    row: &Row<'_>,
    piece: &Piece,
) -> Result<(), AllocError>
    ensures { OnOk result (text.new.items ≡ text.old.items ++ piece_text language (value_text row.now) piece.now) }
{
    match piece {
        Piece::Text(bytes) => text.extend_from_slice(bytes),
        Piece::Value(place) => {
            value.clear();
            put_value(value, row, *place)?;
            put_escaped(text, language, value.as_slice())
        }
        Piece::TextOrNull(place) => {
            value.clear();
            put_value(value, row, *place)?;
            put_text_or_null(text, language, value.as_slice())
        }
    }
}

/// A row. Only memory can lack, and then some of its pieces were put.
pub fn put_row(
    text: &mut Vec<u8>,
    value: &mut Vec<u8>,
    language: Language,
    row: &Row<'_>,
    pieces: &[Piece],
) -> Result<(), AllocError>
    ensures { OnOk result (text.new.items ≡ text.old.items ++ row_text language pieces.now (value_text row.now)) }
{
    for piece in pieces {
        put_piece(text, value, language, row, piece)?;
    }
    Ok(())
}

/// Whether a station has a row.
fn is_chosen(chosen: Chosen, station: &StationStatus<'_>) -> bool
    ensures { result ≡ is_chosen chosen station.now }
{
    match chosen {
        Chosen::All => true,
        Chosen::Silent => station.is_silent(),
        Chosen::Holding => station.last.is_some(),
    }
}

/// The row of a station, if it has one.
fn put_station(
    text: &mut Vec<u8>,
    value: &mut Vec<u8>,
    language: Language,
    rows: &StationRows,
    station: &StationStatus<'_>,
) -> Result<(), AllocError>
    ensures { OnOk result
        (text.new.items ≡ text.old.items ++ station_row language rows.now station.now) }
{
    if is_chosen(rows.chosen, station) {
        put_row(text, value, language, &Row::Station(station), rows.pieces)
    } else {
        Ok(())
    }
}

/// The rows of stations.
fn put_stations(
    text: &mut Vec<u8>,
    value: &mut Vec<u8>,
    language: Language,
    rows: &StationRows,
    stations: &[StationStatus<'_>],
) -> Result<(), AllocError>
    ensures { OnOk result
        (text.new.items ≡ text.old.items ++ station_rows language rows.now stations.now) }
{
    for station in stations {
        put_station(text, value, language, rows, station)?;
    }
    Ok(())
}

/// The row of a client.
#[tactic(auto, unfolding(crate::specs::Templates::client_row))]
fn put_client(
    text: &mut Vec<u8>,
    value: &mut Vec<u8>,
    language: Language,
    pieces: &[Piece],
    client: &ClientStatus,
) -> Result<(), AllocError>
    ensures { OnOk result (text.new.items ≡ text.old.items ++ client_row language pieces.now client.now) }
{
    put_row(text, value, language, &Row::Client(client), pieces)
}

/// The rows of clients.
fn put_clients(
    text: &mut Vec<u8>,
    value: &mut Vec<u8>,
    language: Language,
    pieces: &[Piece],
    clients: &[ClientStatus],
) -> Result<(), AllocError>
    ensures { OnOk result (text.new.items ≡ text.old.items ++ client_rows language pieces.now clients.now) }
{
    for client in clients {
        put_client(text, value, language, pieces, client)?;
    }
    Ok(())
}

/// The row of a station after the first, with a comma before it.
#[tactic(auto, unfolding(crate::specs::Templates::later_station))]
fn put_later_station(
    text: &mut Vec<u8>,
    value: &mut Vec<u8>,
    language: Language,
    pieces: &[Piece],
    station: &StationStatus<'_>,
) -> Result<(), AllocError>
    ensures { OnOk result (text.new.items ≡ text.old.items ++ later_station language pieces.now station.now) }
{
    text.extend_from_slice(b",")?;
    put_row(text, value, language, &Row::Station(station), pieces)
}

/// The rows of stations after the first.
fn put_later_stations(
    text: &mut Vec<u8>,
    value: &mut Vec<u8>,
    language: Language,
    pieces: &[Piece],
    stations: &[StationStatus<'_>],
) -> Result<(), AllocError>
    ensures { OnOk result
        (text.new.items ≡ text.old.items ++ flat_map (later_station language pieces.now) stations.now) }
{
    for station in stations {
        put_later_station(text, value, language, pieces, station)?;
    }
    Ok(())
}

/// The rows of all stations, with a comma between two of them.
fn put_station_list(
    text: &mut Vec<u8>,
    value: &mut Vec<u8>,
    language: Language,
    pieces: &[Piece],
    stations: &[StationStatus<'_>],
) -> Result<(), AllocError>
    ensures { OnOk result (text.new.items ≡ text.old.items ++ station_list language pieces.now stations.now) }
{
    let Some((first, others)) = stations.split_first() else {
        return Ok(());
    };
    put_row(text, value, language, &Row::Station(first), pieces)?;
    put_later_stations(text, value, language, pieces, others)
}

/// The row of a client after the first, with a comma before it.
#[tactic(auto, unfolding(crate::specs::Templates::later_client))]
fn put_later_client(
    text: &mut Vec<u8>,
    value: &mut Vec<u8>,
    language: Language,
    pieces: &[Piece],
    client: &ClientStatus,
) -> Result<(), AllocError>
    ensures { OnOk result (text.new.items ≡ text.old.items ++ later_client language pieces.now client.now) }
{
    text.extend_from_slice(b",")?;
    put_client(text, value, language, pieces, client)
}

/// The rows of clients after the first.
fn put_later_clients(
    text: &mut Vec<u8>,
    value: &mut Vec<u8>,
    language: Language,
    pieces: &[Piece],
    clients: &[ClientStatus],
) -> Result<(), AllocError>
    ensures { OnOk result
        (text.new.items ≡ text.old.items ++ flat_map (later_client language pieces.now) clients.now) }
{
    for client in clients {
        put_later_client(text, value, language, pieces, client)?;
    }
    Ok(())
}

/// The rows of all clients, with a comma between two of them.
fn put_client_list(
    text: &mut Vec<u8>,
    value: &mut Vec<u8>,
    language: Language,
    pieces: &[Piece],
    clients: &[ClientStatus],
) -> Result<(), AllocError>
    ensures { OnOk result (text.new.items ≡ text.old.items ++ client_list language pieces.now clients.now) }
{
    let Some((first, others)) = clients.split_first() else {
        return Ok(());
    };
    put_client(text, value, language, pieces, first)?;
    put_later_clients(text, value, language, pieces, others)
}

/// The row of a count.
#[tactic(auto, unfolding(crate::specs::Templates::count_row))]
fn put_count(
    text: &mut Vec<u8>,
    value: &mut Vec<u8>,
    language: Language,
    pieces: &[Piece],
    one: &NamedCount<'_>,
) -> Result<(), AllocError>
    ensures { OnOk result (text.new.items ≡ text.old.items ++ count_row language pieces.now one.now) }
{
    put_row(text, value, language, &Row::Count(one), pieces)
}

/// The rows of counts.
fn put_counts(
    text: &mut Vec<u8>,
    value: &mut Vec<u8>,
    language: Language,
    pieces: &[Piece],
    counts: &[NamedCount<'_>],
) -> Result<(), AllocError>
    ensures { OnOk result (text.new.items ≡ text.old.items ++ count_rows language pieces.now counts.now) }
{
    for one in counts {
        put_count(text, value, language, pieces, one)?;
    }
    Ok(())
}

/// The row of a count that is not 0.
fn put_count_at_all(
    text: &mut Vec<u8>,
    value: &mut Vec<u8>,
    language: Language,
    pieces: &[Piece],
    one: &NamedCount<'_>,
) -> Result<(), AllocError>
    ensures { OnOk result (text.new.items ≡ text.old.items ++ counted_row language pieces.now one.now) }
{
    if one.count > 0 {
        put_count(text, value, language, pieces, one)
    } else {
        Ok(())
    }
}

/// The rows of counts that are not 0.
fn put_counted(
    text: &mut Vec<u8>,
    value: &mut Vec<u8>,
    language: Language,
    pieces: &[Piece],
    counts: &[NamedCount<'_>],
) -> Result<(), AllocError>
    ensures { OnOk result (text.new.items ≡ text.old.items ++ counted_rows language pieces.now counts.now) }
{
    for one in counts {
        put_count_at_all(text, value, language, pieces, one)?;
    }
    Ok(())
}

/// The row of a count of turns.
#[tactic(auto, unfolding(crate::specs::Templates::bucket_row))]
fn put_bucket(
    text: &mut Vec<u8>,
    value: &mut Vec<u8>,
    language: Language,
    pieces: &[Piece],
    bucket: &TurnBucket<'_>,
) -> Result<(), AllocError>
    ensures { OnOk result (text.new.items ≡ text.old.items ++ bucket_row language pieces.now bucket.now) }
{
    put_row(text, value, language, &Row::Bucket(bucket), pieces)
}

/// The rows of counts of turns.
fn put_buckets(
    text: &mut Vec<u8>,
    value: &mut Vec<u8>,
    language: Language,
    pieces: &[Piece],
    buckets: &[TurnBucket<'_>],
) -> Result<(), AllocError>
    ensures { OnOk result (text.new.items ≡ text.old.items ++ bucket_rows language pieces.now buckets.now) }
{
    for bucket in buckets {
        put_bucket(text, value, language, pieces, bucket)?;
    }
    Ok(())
}

/// A section.
fn put_section(
    text: &mut Vec<u8>,
    value: &mut Vec<u8>,
    language: Language,
    status: &StatusValue<'_>,
    section: &Section,
) -> Result<(), AllocError>
    ensures { OnOk result (text.new.items ≡ text.old.items ++ section_text language status.now section.now) }
{
    match section {
        Section::Once(pieces) => put_row(text, value, language, &Row::Server(status), pieces),
        Section::Stations(rows) => put_stations(text, value, language, rows, status.stations),
        Section::Clients(pieces) => put_clients(text, value, language, pieces, status.clients),
        Section::StationList(pieces) => {
            put_station_list(text, value, language, pieces, status.stations)
        }
        Section::ClientList(pieces) => put_client_list(
            text,
            value,
            language,
            pieces,
            status.clients,
        ),
        Section::Refusals(pieces) => put_counts(text, value, language, pieces, status.refusals),
        Section::Away(pieces) => put_counts(text, value, language, pieces, status.away),
        Section::AwayAtAll(pieces) => put_counted(text, value, language, pieces, status.away),
        Section::Buckets(pieces) => {
            put_buckets(text, value, language, pieces, status.turns.buckets)
        }
    }
}

/// A template, filled by what is told of a server: its own text as it stands, and each value escaped. A single value is
/// written into a buffer of its own first. Only memory can lack, and then some of it was put.
pub fn put_template(
    text: &mut Vec<u8>,
    value: &mut Vec<u8>,
    language: Language,
    status: &StatusValue<'_>,
    template: &[Section],
) -> Result<(), AllocError>
    ensures { OnOk result (text.new.items ≡ text.old.items ++ filled language status.now template.now) }
{
    for section in template {
        put_section(text, value, language, status, section)?;
    }
    Ok(())
}
