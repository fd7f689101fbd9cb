//! Lines on the standard error.
use crate::colours::{has_colours, line_start};
use incidents::{Incident, ToldIncident};
use shown_lines::ShownText;

/// Writes an incident to a terminal in place of what shows how far a job is: the first line bold, if it has colours.
fn tell_at_terminal(rt: &HostRuntime, told: &ToldIncident<'_, '_>) {
    let _ = eprint!(rt; "{}", line_start());
    let _ = match format!(in rt.alloc(); "{told}") {
        Ok(lines) => match lines.as_str().split_once('\n') {
            Some((first, others)) => eprint!(rt; "\x1b[1m{first}\x1b[0m\n{others}"),
            None => eprint!(rt; "{told}"),
        },
        Err(_) => eprint!(rt; "{told}"),
    };
}

/// Tells a failure in the line `seedlinkd: N Name`, and on request explains it in the lines after that.
pub fn tell_incident(rt: &HostRuntime, incident: Incident<'_>, is_verbose: bool) {
    let told = ToldIncident {
        incident: &incident,
        is_verbose,
    };
    if has_colours(rt) {
        tell_at_terminal(rt, &told);
        return;
    }
    let _ = eprint!(rt; "{}{told}", line_start());
}

/// Writes lines of others to the standard error, as they are shown. Bytes that are no UTF-8 are not written.
pub fn tell_lines(rt: &HostRuntime, lines: &[u8]) {
    if let Ok(lines) = str::from_utf8(lines) {
        let _ = eprint!(rt; "{}", ShownText(lines));
    }
}
