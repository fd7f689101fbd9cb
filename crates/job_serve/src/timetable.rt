//! When a server does what, by the words of its command line.
ghost use Rattle.std.specs.Prelude.{◌≡◌};
ghost use Rattle.job_serve.specs.Timetables.{timetable_of};

use command_line::ServeOptions;
use serving::Timetable;

/// After how many turns it ends, how often it reads its configuration again and reports, and whether it keeps numbers.
pub fn timetable_of(options: &ServeOptions<'_>) -> Timetable
    ensures { result ≡ timetable_of options.now }
{
    Timetable {
        turns: options.turns,
        reread: options.reread,
        report: options.report,
        keep: options.numbers.is_some(),
    }
}
