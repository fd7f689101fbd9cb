//! The fields of a record to be made.
ghost use Rattle.std.specs.Prelude.{◌≡◌, ◌&&◌, length, nat_le, nat_lt};
ghost use Rattle.std.specs.List.{list_all};
ghost use Rattle.protocol.specs.Made.{has_codes_in_range as spec_has_codes_in_range};
ghost use Rattle.protocol.specs.Made.{has_start_in_range as spec_has_start_in_range, is_code as spec_is_code};
ghost use Rattle.protocol.specs.Made.{is_code_byte as spec_is_code_byte, is_extra as spec_is_extra};
ghost use Rattle.protocol.specs.Made.{is_in_range as spec_is_in_range};
ghost use Rattle.mseed_header.specs.Fields.{fields_value, head_in_range, rest_in_range};

use crate::chain::kind_of_type;
use crate::codes::is_quality;
use protocol::record::ByteOrder;

/// What a made record says. Codes are of the letters `A` to `Z` and the digits.
#[derive(Clone, Copy)]
pub struct Fields<'a> {
    /// The sequence number, 0 to 999999.
    pub sequence: u32,
    /// `D`, `R`, `Q` or `M`.
    pub quality: u8,
    /// The station's code, of 1 to 5 bytes.
    pub station: &'a [u8],
    /// The location's code, of 0 to 2 bytes.
    pub location: &'a [u8],
    /// The channel's code, of 1 to 3 bytes.
    pub channel: &'a [u8],
    /// The network's code, of 1 or 2 bytes.
    pub network: &'a [u8],
    /// The start's year, 1900 to 2100.
    pub year: u16,
    /// The start's day of the year, 1 to 366.
    pub day: u16,
    /// The start's hour, to 23.
    pub hour: u8,
    /// The start's minute, to 59.
    pub minute: u8,
    /// The start's second, to 60.
    pub second: u8,
    /// The rest of the start in units of 0.0001 s, to 9999.
    pub fraction: u16,
    /// How many samples the record has.
    pub samples: u16,
    /// The sample rate factor: above 0 samples a second, below 0 seconds a sample.
    pub factor: i16,
    /// The sample rate multiplier: above 0 it multiplies the rate, below 0 it divides it.
    pub multiplier: i16,
    /// The encoding format in blockette 1000.
    pub encoding: u8,
    /// The order of the bytes of the record's numbers.
    pub order: ByteOrder,
    /// The type of a blockette behind the blockette 1000: one that gives a record without samples its type.
    pub extra: Option<u16>,
    /// The bytes from offset 64 on, at most 448.
    pub contents: &'a [u8],
}

fn is_code_byte(byte: u8) -> bool
    ensures { result ≡ spec_is_code_byte byte }
{
    matches!(byte, b'A'..=b'Z' | b'0'..=b'9')
}

fn are_code_bytes(code: &[u8]) -> bool
    ensures { result ≡ list_all spec_is_code_byte code.now }
{
    code.iter().all(|byte| is_code_byte(*byte))
}

fn is_code(least: usize, most: usize, code: &[u8]) -> bool
    ensures { result ≡ spec_is_code least most code.now }
{
    (least..=most).contains(&code.len()) && are_code_bytes(code)
}

fn is_extra(extra: Option<u16>) -> bool
    ensures { result ≡ spec_is_extra extra }
{
    match extra {
        None => true,
        Some(blockette) => kind_of_type(blockette).is_some(),
    }
}

fn is_contents(contents: &[u8]) -> bool
    ensures { result ≡ (nat_le (length contents.now) 448 && list_all (λ b. nat_lt b 256) contents.now) }
{
    contents.len() <= 448
}

impl<'a> Fields<'a> {
    fn has_codes_in_range(&self) -> bool
        ensures { result ≡ spec_has_codes_in_range (fields_value self.now) }
    {
        is_code(1, 5, self.station)
            && is_code(0, 2, self.location)
            && is_code(1, 3, self.channel)
            && is_code(1, 2, self.network)
    }

    fn has_start_in_range(&self) -> bool
        ensures { result ≡ spec_has_start_in_range (fields_value self.now) }
    {
        (1900..=2100).contains(&self.year)
            && (1..=366).contains(&self.day)
            && self.hour <= 23
            && self.minute <= 59
            && self.second <= 60
            && self.fraction <= 9999
    }

    fn has_head_in_range(&self) -> bool
        ensures { result ≡ head_in_range (fields_value self.now) }
    {
        self.sequence < 1_000_000
            && is_quality(self.quality)
            && self.has_codes_in_range()
            && self.has_start_in_range()
    }

    fn has_rest_in_range(&self) -> bool
        ensures { result ≡ rest_in_range (fields_value self.now) }
    {
        is_extra(self.extra) && is_contents(self.contents)
    }

    // Whether each field is in its range.
    pub(crate) fn is_in_range(&self) -> bool
        ensures { result ≡ spec_is_in_range (fields_value self.now) }
    {
        // These are in range by their types, which is known of what is read.
        let _in_range_by_their_types = (self.samples, self.factor, self.multiplier, self.encoding);
        self.has_head_in_range() && self.has_rest_in_range()
    }
}
