//! The end of a server that is fed is waited for.
ghost use Rattle.std.specs.Prelude.{◌≡◌, ◌≢◌, ◌⊎◌, [], IfErr, IfSome, OnOk};
ghost use Rattle.std.specs.Io.KnownBytes.{IsAtEnd};
ghost use Rattle.sl_io.specs.Counts.{IsMore};
ghost use Rattle.job_feed.specs.declared.fault.FeedFault.TheVariants.{Answered, Untaken};

use crate::fault::FeedFault;
use sl_io::Source;

/// Waits until a server ends its half of a connection.
///
/// It fails with 52 if something comes before that, which a feed port never sends, and with 43 if the read failed, as
/// when the server resets the connection.
pub fn await_end<R: Source>(server: &mut R) -> Result<(), FeedFault>
    ensures end { OnOk result (IsAtEnd (R.left server.new)) }
    ensures silent { OnOk result (IsAtEnd (R.left server.old)) }
    ensures same { OnOk result (R.failures server.new ≡ R.failures server.old) }
    ensures once { IsMore (R.calls server.old) (R.calls server.new) 1 }
    ensures fault { IfErr result (λ fault. (fault ≡ Untaken) ⊎ (fault ≡ Answered)) }
    ensures failed { IfErr result (λ fault. fault ≡ Untaken
        → IsMore (R.failures server.old) (R.failures server.new) 1) }
    ensures answered { IfErr result (λ fault. fault ≡ Answered
        → IfSome (R.left server.old) (λ bytes. bytes ≢ [])) }
{
    match server.read(&mut [0; 1]) {
        Ok(0) => Ok(()),
        Ok(_) => Err(FeedFault::Answered),
        Err(_) => Err(FeedFault::Untaken),
    }
}
