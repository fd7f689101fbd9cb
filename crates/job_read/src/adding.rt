//! Records that are read into one file.
ghost use Rattle.std.specs.Prelude.{◌≡◌, List, None};
ghost use Rattle.std.specs.declared.option.Option.{Option};
ghost use Rattle.continued_files.specs.Lengths.{LengthValue};

use crate::archiving::files_at;
use crate::lasting::{Lasting, unlasting};
use crate::locks::{HeldLock, LookTime};
use crate::moment::Moment;
use crate::returns::{LastNumbers, Noted};
use crate::torn::{tell_short, tell_torn};
use continued_files::{FileLength, FolderFault, RecordFiles, Unnamed};
use disk_files::{ContinuedOutput, DiskFiles, FileFailure, FilePlace, ONE_FILE};
use files::milliseconds;
use incidents::Incident;
use job_base::unopened;
use reader_run::{RecordSink, SinkFault};
use sl_io::WriteFault;
use slreader::GivenPacket;
use std::cell::RefCell;
use std::fs::File;
use std::io::{self, Write};
use std::num::NonZeroUsize;

/// One file to which a reader adds each record once, of which it is told if it had a torn end.
#[derive(Drop)]
pub struct ToldOutput<'r> {
    rt: &'r HostRuntime,
    path: &'r str,
    output: RefCell<ContinuedOutput<DiskFiles<'r>>>,
    numbers: LastNumbers,
    moment: &'r Moment,
    lock: HeldLock,
    /// When it was looked last whether the path of the lock still names it.
    looked: LookTime,
    /// Why the file is not locked any more.
    unlocked: Option<io::Error>,
    failures: u64,
}

/// The file at a path, in which a reader goes on after what a state says of it. If that says nothing, what stands there
/// is not handed again.
pub fn output_at<'r, 'a: 'r>(
    rt: &'r HostRuntime,
    path: &'a str,
    named: Vec<FileLength>,
    numbers: LastNumbers,
    moment: &'r Moment,
    lock: HeldLock,
) -> ToldOutput<'r> {
    let files = files_at(rt, FilePlace::At(path), 0, Some(named), Unnamed::Kept);
    ToldOutput {
        rt,
        path,
        output: RefCell::new(ContinuedOutput::new(files)),
        numbers,
        moment,
        lock,
        looked: LookTime::new(milliseconds(rt)),
        unlocked: None,
        failures: 0,
    }
}

impl ToldOutput<'_> {
    /// What the system says of the last call that failed.
    pub fn take_reason(&mut self) -> Option<io::Error> {
        let files = self.output.get_mut().files_mut().files_mut();
        let failure = files.take_failure()?;
        Some(failure.reason)
    }

    /// Why the file is not locked any more, if that ended the reading.
    pub fn take_unlocked(&mut self) -> Option<io::Error> {
        self.unlocked.take()
    }

    /// Looks once a second whether the lock still holds.
    fn renew_lock(&mut self)
        ensures { self.new.failures ≡ self.old.failures }
    {
        if self.looked.is_due(milliseconds(self.rt)) {
            if let Err(reason) = self.lock.renew(self.rt) {
                self.unlocked = Some(reason);
            }
        }
    }
}

/// Puts the end of a file aside that is no whole record, before records are added to it, and tells that.
pub fn mend_end<'a>(rt: &HostRuntime, path: &'a str) -> Result<(), Incident<'a>> {
    let place = FilePlace::At(path);
    let mut files = DiskFiles::new(rt, rt.alloc(), place, NonZeroUsize::MIN, false);
    if files.count(ONE_FILE).is_err() {
        return Err(unopened(path, unlasting(files.take_failure()).reason));
    }
    if let Some(path) = files.take_torn() {
        tell_torn(rt, path.as_str());
    }
    Ok(())
}

/// A file to which records are added. After a write that failed it is cut to whole records.
#[derive(Drop)]
pub struct WholeFile {
    file: File,
}

impl WholeFile {
    /// A file that ends with a whole record.
    pub fn new(file: File) -> WholeFile {
        WholeFile { file }
    }

    /// Cuts off what is no whole record, if it is a plain file and the system can.
    fn cut_to_whole(&self) {
        if let Ok(metadata) = self.file.metadata() {
            let length = metadata.len();
            if metadata.is_file() {
                let _ = self.file.set_len(length - length % 512);
            }
        }
    }
}

impl Write for WholeFile {
    fn write(&mut self, bytes: &[u8]) -> io::Result<usize> {
        match self.file.write(bytes) {
            Ok(count) => Ok(count),
            Err(reason) => {
                self.cut_to_whole();
                Err(reason)
            }
        }
    }

    fn flush(&mut self) -> io::Result<()> {
        self.file.flush()
    }
}

impl ToldOutput<'_> {
    /// Tells what was found at the last record: a torn end, and a file that is shorter than was counted. After that a
    /// state is to be kept at once.
    fn tell(&mut self)
        ensures { self.new.failures ≡ self.old.failures }
    {
        let output = self.output.get_mut();
        let short = output.take_short();
        let torn = output.files_mut().files_mut().take_torn();
        if let Some(file) = short {
            tell_short(self.rt, FilePlace::At(self.path), &file);
            self.moment.hurry();
        }
        if let Some(path) = torn {
            tell_torn(self.rt, path.as_str());
        }
    }

    /// Puts a record. If the numbers of its station don't follow, all of the file is tail from then on. If so many
    /// records were added one after the other that none comes any more that stands in the tail, what is left of that is
    /// given up.
    fn put_noted(
        &mut self,
        packet: &GivenPacket<'_>,
        noted: &Option<Noted>,
    ) -> Result<(), FolderFault>
        ensures { self.new.failures ≡ self.old.failures }
    {
        let output = self.output.get_mut();
        if let Some(
            Noted {
                is_return: true,
                ..
            },
        ) = noted
        {
            output.return_to_begin();
        }
        output.put(packet.record())?;
        if let Some(noted) = noted {
            if self.numbers.count(noted.at, output.is_passed()) {
                output.give_up();
            }
        }
        Ok(())
    }
}

impl RecordSink for ToldOutput<'_> {
    ghost written = { λ _. None };

    ghost Waits = { λ _ _. Unit {0} };

    ghost failures = { λ o. o.failures };

    ghost empty_writes = { λ _. 0 };

    fn begin(&mut self) {
        self.renew_lock();
        self.output.get_mut().files_mut().files_mut().begin();
    }

    fn refuse(&mut self, _want: usize) {}

    fn put(&mut self, packet: &GivenPacket<'_>) -> Result<(), SinkFault> {
        if self.unlocked.is_some() {
            self.failures = self.failures.wrapping_add(1);
            return Err(SinkFault::Write);
        }
        let noted = self.numbers.note(packet, self.moment.connection());
        let put = self.put_noted(packet, &noted);
        self.tell();
        match put {
            Ok(()) => Ok(()),
            Err(FolderFault) => {
                self.failures = self.failures.wrapping_add(1);
                Err(SinkFault::Write)
            }
        }
    }

    fn hand_on(&mut self) -> Result<(), WriteFault> {
        Ok(())
    }
}

impl Lasting for ToldOutput<'_> {
    ghost Lasts = { λ _ _. Unit {0} };

    fn make_last(&self) -> Result<Option<Vec<FileLength>>, FileFailure> {
        let Ok(mut output) = self.output.try_borrow_mut() else {
            return Err(unlasting(None));
        };
        match output.last() {
            Ok(lengths) => Ok(Some(lengths)),
            Err(_) => Err(unlasting(output.files_mut().files_mut().take_failure())),
        }
    }
}
