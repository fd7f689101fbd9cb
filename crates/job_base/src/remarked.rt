//! Entries of lists that admit something else than they look like.
use crate::telling::tell_lines;
use config_explained::{ConfigText, Remarked, list_remarks, remarks};

/// Names the entries of a configuration's lists that admit something else than they look like, a line each on the
/// standard error. Without memory it names none.
pub fn tell_remarks(rt: &HostRuntime, which: Remarked, read: &ConfigText) {
    if let Ok(lines) = remarks(rt.alloc(), which, read) {
        tell_lines(rt, lines.as_slice());
    }
}

/// The same of each entry of a list that an option has, if there is one. Of one without an entry, as that of a variable
/// that isn't set, it is told that nobody is admitted.
pub fn tell_list_remarks(rt: &HostRuntime, option: &str, list: Option<&str>) {
    let Some(list) = list else {
        return;
    };
    if list.trim().is_empty() {
        let _ = eprint!(rt; "seedlinkd: {option} has no entry: nobody is admitted\n");
    }
    if let Ok(lines) = list_remarks(rt.alloc(), option, list.as_bytes()) {
        tell_lines(rt, lines.as_slice());
    }
}
