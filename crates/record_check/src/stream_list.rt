//! The streams of a file of records, each found by what it is known by.
//!
//! The streams of a check are a list with an index of their codes. A file may have as many streams as records, and a
//! list that is walked over for each record would take the square of that. The index is a `HashMap`, as that of the
//! stations of a configuration: the codes are spelled as numbers, so a record takes one look-up, whatever the number of
//! streams. The list keeps the order of the first records. What is kept grows by streams and by their gaps,
//! and a check without `--summary` and `--gaps` keeps none.
ghost use Rattle.std.specs.Prelude.{◌≡◌, ◌++◌, ◌∷◌, [], None, OnOk, OnErr};
ghost use Rattle.record_check.specs.Index.{name_of, place_in, AreCodes, Finds};
ghost use Rattle.record_check.specs.Streams.{begun};

use crate::stream_name::StreamName;
use crate::streams::{CheckedStream, put_all_in_order};
use mseed_header::Header;
use std::alloc::{AllocError, Global};
use std::collections::HashMap;
use std::marker::Model;

/// Streams in the order in which they began, with the place of each by its name.
#[derive(Drop)]
pub(crate) struct StreamList {
    alloc: Global,
    streams: Vec<CheckedStream>,
    places: HashMap<StreamName, usize>,
}

impl Model for StreamList {
    ghost use Rattle.std.specs.Prelude.{List};
    ghost use Rattle.record_check.specs.Index.{Finds};
    ghost use Rattle.record_check.specs.Streams.{StreamValue};

    ghost Value = { List StreamValue };

    ghost view = { λ s. s.streams.items };

    ghost invariant = { λ s. Finds s.places s.streams.items };
}

/// A stream more, which begins with a record of no other stream. It fails only if memory can't be allocated, and then
/// nothing changes.
fn begin(
    alloc: Global,
    streams: &mut Vec<CheckedStream>,
    places: &mut HashMap<StreamName, usize>,
    name: StreamName,
    header: &Header<'_>,
) -> Result<(), AllocError>
    requires name { name ≡ name_of header.now }
    requires codes { AreCodes header.now }
    requires none { place_in places.old header.now ≡ None }
    requires finds { Finds places.old streams.old.items }
    ensures begun { OnOk result (streams.new.items ≡ streams.old.items ++ begun header.now ∷ []) }
    ensures same { OnErr result (streams.new.items ≡ streams.old.items) }
    ensures finds { Finds places.new streams.new.items }
{
    let stream = CheckedStream::new(alloc, header)?;
    streams.reserve(1)?;
    places.insert(name, streams.len())?;
    streams.push(stream)?;
    Ok(())
}

impl StreamList {
    ghost use Rattle.std.specs.Prelude.{◌≡◌, [], OnOk};
    ghost use Rattle.record_check.specs.Streams.{streams_with, AreInOrder};

    /// There is none.
    pub(crate) fn new(alloc: Global) -> StreamList
        ensures { result ≡ [] }
    {
        StreamList {
            alloc,
            streams: Vec::new(alloc),
            places: HashMap::new(alloc),
        }
    }

    /// The streams.
    pub(crate) fn as_slice(&self) -> &[CheckedStream]
        ensures { result.now ≡ self.now }
    {
        self.streams.as_slice()
    }

    /// One record more: it belongs to one of the streams, or begins one. It is found by its name, and no other stream
    /// is looked at.
    pub(crate) fn put(&mut self, header: &Header<'_>) -> Result<(), AllocError>
        ensures { OnOk result (self.new ≡ streams_with self.old header.now) }
    {
        let name = StreamName::of(header);
        match self.places.get(&name) {
            Some(place) => {
                let stream = &mut self.streams[*place];
                stream.go_on(header)
            }
            None => begin(
                self.alloc,
                &mut self.streams,
                &mut self.places,
                name,
                header,
            ),
        }
    }

    /// Puts the runs of each stream in the order of their starts.
    pub(crate) fn put_in_order(&mut self)
        ensures { AreInOrder self.old self.new }
    {
        put_all_in_order(&mut self.streams);
    }
}
