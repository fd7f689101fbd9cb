//! What a reader wants, and whether it can be asked for.

use sl_packet::Seq;
use std::marker::Model;

/// Which records of a station are wanted (SeedLink 3: DATA, FETCH and TIME). Moments are texts that `sl_time::parse`
/// accepts; they are sent as they stand.
#[derive(Clone, Copy)]
pub enum WantedAction<'a> {
    /// Records as they come, from that number on, and none that ended before that moment.
    Data {
        number: Option<Seq>,
        begin: Option<&'a [u8]>,
    },
    /// The same of the records that the server holds, and then the end.
    Fetch {
        number: Option<Seq>,
        begin: Option<&'a [u8]>,
    },
    /// The records between two moments.
    Time {
        begin: Option<&'a [u8]>,
        last: Option<&'a [u8]>,
    },
}

/// The records of one station that are wanted. In a contract a want is its texts.
#[derive(Drop)]
pub struct Want<'a> {
    /// 1 or 2 bytes, `A` to `Z` and `0` to `9`.
    pub network: &'a [u8],
    /// 1 to 5 such bytes.
    pub station: &'a [u8],
    /// At most 64 patterns over location, channel and type (SeedLink 3, SELECT), as `BH?` and `!E`.
    pub patterns: Vec<&'a [u8]>,
    /// From where on, and until when.
    pub action: WantedAction<'a>,
}

impl<'a> Model for Want<'a> {
    ghost use Rattle.slreader.specs.Wants.{WantValue};
    ghost use Rattle.slreader.specs.WantTexts.{want_value};

    ghost Value = { WantValue };

    ghost view = { λ w. want_value w.network.now w.station.now w.patterns.items w.action };
}

/// What a reader asks of one server.
#[derive(Drop)]
pub enum Plan<'a> {
    /// One want that is asked for without STATION, at the first station that the server has.
    Uni(Want<'a>),
    /// 1 to 255 wants, each of which begins with STATION, with at most 1,024 patterns together.
    Multi(Vec<Want<'a>>),
}
