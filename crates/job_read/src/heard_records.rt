//! Records on their way to where they are put, of which it is told what a reader meets: a station that is refused, or
//! that was not asked for, one that begins with another record than the one that was asked for, and a jump in its
//! numbers.
ghost use Rattle.std.specs.Prelude.{◌≡◌};

use crate::begins::{Begins, is_of};
use crate::hearing::Listener;
use crate::lasting::Lasting;
use crate::notices::{ErrorTeller, Notice, Teller};
use crate::reading::Reading;
use continued_files::FileLength;
use disk_files::FileFailure;
use job_base::Progress;
use protocol::limits::RECORD;
use reader_run::{RecordSink, SinkFault};
use sl_io::WriteFault;
use slreader::GivenPacket;

/// Where records are put. What is met is told if somebody listens.
#[derive(Drop)]
pub struct HeardRecords<'r, 'a, 'w, P> {
    inner: P,
    rt: &'r HostRuntime,
    reading: &'r Reading<'a, 'w>,
    teller: ErrorTeller<'r>,
    listener: Option<Listener>,
    /// The stations whose first packet is still to come.
    begins: Begins,
    /// Whether it was told, or is not to be, that a packet came of a station that no want names.
    is_unasked_told: bool,
    /// How far the reading is.
    progress: Progress<'r>,
    /// Whether a packet came.
    has_some: bool,
}

impl<'r, 'a, 'w, P> HeardRecords<'r, 'a, 'w, P> {
    /// Records that are put into `inner`.
    pub fn new(
        rt: &'r HostRuntime,
        reading: &'r Reading<'a, 'w>,
        inner: P,
    ) -> HeardRecords<'r, 'a, 'w, P>
        ensures { result.inner ≡ inner }
    {
        HeardRecords {
            inner,
            rt,
            reading,
            teller: ErrorTeller::new(rt),
            listener: None,
            begins: Begins::none(rt.alloc()),
            is_unasked_told: reading.is_archived,
            progress: Progress::new(rt, None, reading.is_measured),
            has_some: false,
        }
    }

    /// The reading is over. If nothing came, though it was to, and somebody is shown that, it is told.
    pub fn finish(&self, is_awaited: bool) {
        self.progress.clear();
        if is_awaited && !self.has_some && self.reading.is_shown() {
            let _ = eprintln!(self.rt; "seedlinkd: nothing came of what was asked for");
        }
    }

    /// What is met is told from now on.
    pub fn listen(&mut self, listener: Listener)
        ensures { self.new.inner ≡ self.old.inner }
    {
        self.listener = Some(listener);
    }

    /// It is told from now on which station begins with another number than the one that is asked for.
    pub fn await_begins(&mut self, begins: Begins)
        ensures { self.new.inner ≡ self.old.inner }
    {
        self.begins = begins;
    }

    /// Where they are put.
    pub fn inner_mut(&mut self) -> &mut P {
        &mut self.inner
    }

    /// Where they were put, once no more come.
    pub fn into_inner(self) -> P
        ensures { result ≡ self.entry.inner }
    {
        self.inner
    }

    /// Tells that a want is refused, by its place, and has it asked again after a while.
    fn tell_refused(&mut self, want: usize)
        ensures { self.new.inner ≡ self.old.inner }
    {
        if self.listener.is_none() {
            return;
        }
        self.reading.renewal.refuse(self.rt);
        if let Some(want) = self.reading.wants.get(want) {
            self.teller.tell(&Notice::Refused {
                network: want.network,
                station: want.station,
            });
        }
    }

    /// Tells once that a packet came of a station that no want names.
    fn tell_unasked(&mut self, packet: &GivenPacket<'_>)
        ensures { self.new.inner ≡ self.old.inner }
    {
        if self.is_unasked_told {
            return;
        }
        let Some(header) = packet.header() else {
            return;
        };
        let (network, station) = (header.network(), header.station());
        let wants = &self.reading.wants;
        if !wants.iter().any(|want| is_of(want, network, station)) {
            self.is_unasked_told = true;
            self.teller.tell(&Notice::Unasked { network, station });
        }
    }

    /// Tells what is met with a packet.
    fn tell_packet(&mut self, packet: &GivenPacket<'_>)
        ensures { self.new.inner ≡ self.old.inner }
    {
        self.begins
            .hear(&self.reading.wants, packet, &mut self.teller);
        self.tell_unasked(packet);
        if let Some(listener) = &mut self.listener {
            listener.hear(self.rt, packet, &mut self.teller);
        }
    }
}

impl<P: RecordSink> RecordSink for HeardRecords<'_, '_, '_, P> {
    ghost written = { λ h. P.written h.inner };

    ghost Waits = { λ h records. P.Waits h.inner records };

    ghost failures = { λ h. P.failures h.inner };

    ghost empty_writes = { λ h. P.empty_writes h.inner };

    fn begin(&mut self) {
        self.inner.begin();
    }

    fn refuse(&mut self, want: usize) {
        self.inner.refuse(want);
        self.tell_refused(want);
    }

    fn put(&mut self, packet: &GivenPacket<'_>) -> Result<(), SinkFault> {
        self.inner.put(packet)?;
        self.has_some = true;
        self.progress.add_bytes(RECORD);
        self.tell_packet(packet);
        Ok(())
    }

    fn hand_on(&mut self) -> Result<(), WriteFault> {
        self.inner.hand_on()
    }
}

impl<P: Lasting> Lasting for HeardRecords<'_, '_, '_, P> {
    ghost Lasts = { λ h lengths. P.Lasts h.inner lengths };

    fn make_last(&self) -> Result<Option<Vec<FileLength>>, FileFailure> {
        self.inner.make_last()
    }
}
