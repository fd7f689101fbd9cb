//! Who may connect to a server, by the words of its command line.
ghost use Rattle.std.specs.Prelude.{◌≡◌, ◌≢◌, IfErr, IfOk};
ghost use Rattle.job_serve.specs.Admitting.{FromList, RefusesList};
ghost use Rattle.protocol.specs.declared.reason.Reason.TheVariants.{OutOfMemory};

use access_list::AccessList;
use command_line::ServeOptions;
use incidents::Incident;
use job_base::refused_list;
use ports_socket::Admission;
use std::alloc::Global;

/// Who may connect, by the words of a command line: feeds from the addresses of a list alone, if there is one, and at
/// most so many clients of one address.
///
/// It fails with the fault of the first invalid entry of the list, or with OutOfMemory if there is no memory.
pub fn admission_of<'a>(
    alloc: Global,
    options: &ServeOptions<'a>,
) -> Result<Admission, Incident<'a>>
    ensures feeds { IfOk result (λ admission. FromList options.now.feed_from admission.feed_from) }
    ensures clients { IfOk result (λ admission. admission.per_address ≡ options.now.per_address) }
    ensures refused { IfErr result (λ incident. incident.failure.reason ≢ OutOfMemory →
        RefusesList options.now.feed_from incident) }
{
    let per_address = options.per_address;
    let Some(word) = options.feed_from else {
        return Ok(Admission {
            feed_from: None,
            per_address,
        });
    };
    match AccessList::parse(alloc, word.as_bytes()) {
        Ok(list) => Ok(Admission {
            feed_from: Some(list),
            per_address,
        }),
        Err(fault) => Err(refused_list(alloc, word, fault)),
    }
}
