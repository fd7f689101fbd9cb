//! What Prometheus reads: its text format 0.0.4. A family has its help, its type, and a line for each value.
use crate::place::Place;
use crate::template::Piece::{self, Text, Value};
use crate::template::{Chosen, Section, StationRows};

/// What is counted of the whole server, and the head of the turns.
const SERVER: &[Piece] = &[
    Text(b"# HELP seedlinkd_uptime_seconds Seconds since the server began.\n"),
    Text(b"# TYPE seedlinkd_uptime_seconds gauge\nseedlinkd_uptime_seconds "),
    Value(Place::Passed),
    Text(b"\n# HELP seedlinkd_clients Clients that are connected.\n"),
    Text(b"# TYPE seedlinkd_clients gauge\nseedlinkd_clients "),
    Value(Place::OpenClients),
    Text(b"\n# HELP seedlinkd_feeds Feeds that are connected.\n"),
    Text(b"# TYPE seedlinkd_feeds gauge\nseedlinkd_feeds "),
    Value(Place::OpenFeeds),
    Text(b"\n# HELP seedlinkd_records_total Records that were taken.\n"),
    Text(b"# TYPE seedlinkd_records_total counter\nseedlinkd_records_total "),
    Value(Place::Records),
    Text(
        b"\n# HELP seedlinkd_client_bytes_total Bytes of answers and packets that clients were sent.\n",
    ),
    Text(b"# TYPE seedlinkd_client_bytes_total counter\nseedlinkd_client_bytes_total "),
    Value(Place::SentBytes),
    Text(
        b"\n# HELP seedlinkd_client_lost_records_total Records that clients lost to overruns.\n\
        # TYPE seedlinkd_client_lost_records_total counter\nseedlinkd_client_lost_records_total ",
    ),
    Value(Place::LostRecords),
    Text(b"\n# HELP seedlinkd_turn_seconds How long the server worked between two waits.\n"),
    Text(b"# TYPE seedlinkd_turn_seconds histogram\n"),
];

/// How many turns took no longer than a bound.
const BUCKET: &[Piece] = &[
    Text(b"seedlinkd_turn_seconds_bucket{le=\""),
    Value(Place::Name),
    Text(b"\"} "),
    Value(Place::Count),
    Text(b"\n"),
];

/// How long all turns took together, how many there were, and the head of the records that were refused.
const TURNS: &[Piece] = &[
    Text(b"seedlinkd_turn_seconds_sum "),
    Value(Place::TurnSeconds),
    Text(b"\nseedlinkd_turn_seconds_count "),
    Value(Place::Turns),
    Text(b"\n# HELP seedlinkd_refused_total Records that were refused.\n"),
    Text(b"# TYPE seedlinkd_refused_total counter\n"),
];

/// How many records were refused for a reason.
const REFUSED: &[Piece] = &[
    Text(b"seedlinkd_refused_total{reason=\""),
    Value(Place::Name),
    Text(b"\"} "),
    Value(Place::Count),
    Text(b"\n"),
];

/// How many connections were turned away for a reason.
const AWAY: &[Piece] = &[
    Text(b"seedlinkd_turned_away_total{reason=\""),
    Value(Place::Name),
    Text(b"\"} "),
    Value(Place::Count),
    Text(b"\n"),
];

/// How many stations stand how, and the head of the counts of records.
const STATES: &[Piece] = &[
    Text(b"# HELP seedlinkd_stations Stations, by how they stand.\n"),
    Text(b"# TYPE seedlinkd_stations gauge\nseedlinkd_stations{state=\"ok\"} "),
    Value(Place::HeardCount),
    Text(b"\nseedlinkd_stations{state=\"waiting\"} "),
    Value(Place::WaitingCount),
    Text(b"\nseedlinkd_stations{state=\"silent\"} "),
    Value(Place::SilentCount),
    Text(b"\n# HELP seedlinkd_station_silent Whether a station is silent.\n"),
    Text(b"# TYPE seedlinkd_station_silent gauge\n"),
];

/// Whether a station is silent.
const SILENT: &[Piece] = &[
    Text(b"seedlinkd_station_silent{network=\""),
    Value(Place::Network),
    Text(b"\",station=\""),
    Value(Place::Code),
    Text(b"\"} "),
    Value(Place::IsSilent),
    Text(b"\n"),
];

/// How many records came of a station.
const RECORDS: &[Piece] = &[
    Text(b"seedlinkd_station_records_total{network=\""),
    Value(Place::Network),
    Text(b"\",station=\""),
    Value(Place::Code),
    Text(b"\"} "),
    Value(Place::Came),
    Text(b"\n"),
];

/// How long ago the last record of a station came.
const AGE: &[Piece] = &[
    Text(b"seedlinkd_station_last_arrival_seconds{network=\""),
    Value(Place::Network),
    Text(b"\",station=\""),
    Value(Place::Code),
    Text(b"\"} "),
    Value(Place::Silence),
    Text(b"\n"),
];

/// When the last record of a station ends.
const END: &[Piece] = &[
    Text(b"seedlinkd_station_last_record_end_seconds{network=\""),
    Value(Place::Network),
    Text(b"\",station=\""),
    Value(Place::Code),
    Text(b"\"} "),
    Value(Place::StopSeconds),
    Text(b"\n"),
];

/// How many clients named a station.
const FOLLOWERS: &[Piece] = &[
    Text(b"seedlinkd_station_followers{network=\""),
    Value(Place::Network),
    Text(b"\",station=\""),
    Value(Place::Code),
    Text(b"\"} "),
    Value(Place::Followers),
    Text(b"\n"),
];

/// All metrics.
static METRICS: [Section; 16] = [
    Section::Once(SERVER),
    Section::Buckets(BUCKET),
    Section::Once(TURNS),
    Section::Refusals(REFUSED),
    Section::Once(&[
        Text(b"# HELP seedlinkd_turned_away_total Connections that were turned away.\n"),
        Text(b"# TYPE seedlinkd_turned_away_total counter\n"),
    ]),
    Section::Away(AWAY),
    Section::Once(STATES),
    Section::Stations(StationRows {
        chosen: Chosen::All,
        pieces: SILENT,
    }),
    Section::Once(&[
        Text(b"# HELP seedlinkd_station_records_total Records of a station that were taken.\n"),
        Text(b"# TYPE seedlinkd_station_records_total counter\n"),
    ]),
    Section::Stations(StationRows {
        chosen: Chosen::All,
        pieces: RECORDS,
    }),
    Section::Once(&[
        Text(
            b"# HELP seedlinkd_station_last_arrival_seconds Seconds since the last record of a station came.\n",
        ),
        Text(b"# TYPE seedlinkd_station_last_arrival_seconds gauge\n"),
    ]),
    Section::Stations(StationRows {
        chosen: Chosen::All,
        pieces: AGE,
    }),
    Section::Once(&[
        Text(
            b"# HELP seedlinkd_station_last_record_end_seconds End of the last record of a station, since 1970.\n",
        ),
        Text(b"# TYPE seedlinkd_station_last_record_end_seconds gauge\n"),
    ]),
    Section::Stations(StationRows {
        chosen: Chosen::Holding,
        pieces: END,
    }),
    Section::Once(&[
        Text(b"# HELP seedlinkd_station_followers Clients that named a station.\n"),
        Text(b"# TYPE seedlinkd_station_followers gauge\n"),
    ]),
    Section::Stations(StationRows {
        chosen: Chosen::All,
        pieces: FOLLOWERS,
    }),
];

/// All metrics.
pub fn metrics() -> &'static [Section] {
    &METRICS
}
