//! Records made of fields.
//!
//! A made record is laid out in an `ArrayVec` of 512 bytes and read back by the crate's own reader.
ghost use Rattle.std.specs.Prelude.{◌≡◌, IsTrue, codes};
ghost use Rattle.std.specs.Ordering.{int_eq};
ghost use Rattle.std.specs.Result.{result_ok};
ghost use Rattle.protocol.specs.Made.{has_codes_in_range, has_fields as spec_has_fields, has_start_in_range};
ghost use Rattle.protocol.specs.Made.{is_in_range, made, reads_back as spec_reads_back};
ghost use Rattle.protocol.specs.Made.{start_asked as spec_start_asked};
ghost use Rattle.protocol.specs.Record.{header_of};
ghost use Rattle.mseed_header.specs.Fields.{fields_value, has_codes_of};

use crate::fields::Fields;
use crate::header::{Header, read};
use crate::layout::{layout_of, padded};
use protocol::reason::Reason;
use sl_time::{Tick, of_btime};

/// Why no record is made of fields.
#[derive(Clone, Copy, Debug, PartialEq, Eq, Drop)]
pub enum FieldFault {
    /// A field is out of its range, or the record would not be read as the fields.
    Field,
}

impl FieldFault {
    /// The reason by which the program reports it: 8 Field.
    pub fn reason(self) -> Reason
        ensures { result ≡ Reason.Field }
    {
        match self {
            FieldFault::Field => Reason::Field,
        }
    }
}

fn start_asked(fields: &Fields<'_>) -> Tick
    requires { IsTrue (has_start_in_range (fields_value fields.now)) }
    ensures { result ≡ spec_start_asked (fields_value fields.now) }
{
    let start = of_btime(
        fields.year,
        fields.day,
        fields.hour,
        fields.minute,
        fields.second,
        fields.fraction,
    );
    start.unwrap()
}

fn has_start(fields: &Fields<'_>, header: &Header<'_>) -> bool
    requires { IsTrue (has_start_in_range (fields_value fields.now)) }
    ensures { result ≡ int_eq header.now.start (spec_start_asked (fields_value fields.now)) }
{
    header.start() == start_asked(fields)
}

fn has_codes(fields: &Fields<'_>, header: &Header<'_>) -> bool
    requires { IsTrue (has_codes_in_range (fields_value fields.now)) }
    ensures { result ≡ has_codes_of (fields_value fields.now) header.now }
{
    header.network() == fields.network
        && header.station() == fields.station
        && *header.location() == padded::<2>(b' ', fields.location)
        && *header.channel() == padded::<3>(b' ', fields.channel)
}

fn has_fields(fields: &Fields<'_>, header: &Header<'_>) -> bool
    requires { IsTrue (is_in_range (fields_value fields.now)) }
    ensures { result ≡ spec_has_fields (fields_value fields.now) header.now }
{
    has_codes(fields, header) && has_start(fields, header) && header.samples() == fields.samples
}

// Whether the record is read as the fields.
fn reads_back(fields: &Fields<'_>, record: &[u8; 512]) -> bool
    requires { IsTrue (is_in_range (fields_value fields.now)) }
    ensures { result ≡ spec_reads_back (fields_value fields.now) (header_of «record».now) }
{
    match read(record) {
        Ok(header) => has_fields(fields, &header),
        Err(_) => false,
    }
}

/// Makes the record of fields, or answers that they spell none: one is out of its range, or the record would not be
/// read as the fields (in little-endian order on the days 1, 256 and 257 of 2056, whose bytes are a date in big-endian
/// order too).
///
/// The record is a header of 48 bytes, a blockette 1000, the extra blockette, and from 64 on the contents; other bytes
/// are 0 (SEED Reference Manual 2.4, chapter 8).
pub fn make(fields: &Fields<'_>) -> Result<[u8; 512], FieldFault>
    ensures { result_ok result ≡ made (fields_value fields.now) }
{
    if !fields.is_in_range() {
        return Err(FieldFault::Field);
    }
    let record = layout_of(fields);
    if !reads_back(fields, &record) {
        return Err(FieldFault::Field);
    }
    Ok(record)
}
