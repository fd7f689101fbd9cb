//! All faults of a configuration that is refused.
use crate::telling::tell_lines;
use catalog::ConfigError;
use config_explained::{ConfigFinding, FaultLine, faults_of, finding_of, line_of};
use std::alloc::Global;

/// How many faults are named.
const NAMED: usize = 64;

/// The line of a text at which an error is, if it is told and there is memory to find it.
pub(crate) fn line_if_any(alloc: Global, text: &[u8], error: &ConfigError) -> Option<u128> {
    match line_of(alloc, text, error.step) {
        Ok(line) => line,
        Err(_) => None,
    }
}

/// Names a fault, a line on the standard error.
fn tell_fault(rt: &HostRuntime, text: &[u8], error: &ConfigError) {
    let finding = match finding_of(rt.alloc(), text, error) {
        Ok(finding) => finding,
        Err(_) => ConfigFinding::Nothing,
    };
    let line = FaultLine {
        error,
        finding: &finding,
        line: line_if_any(rt.alloc(), text, error),
    };
    if let Ok(line) = format!(in rt.alloc(); "{line}") {
        tell_lines(rt, line.as_bytes());
    }
}

/// Names each fault of a configuration's text, if it has several: a line each on the standard error, at most 64, and
/// one more with the count of the others. Without memory it names none.
pub(crate) fn tell_faults(rt: &HostRuntime, text: &[u8]) {
    let Ok(faults) = faults_of(rt.alloc(), text) else {
        return;
    };
    if faults.len() < 2 {
        return;
    }
    for error in faults.iter().take(NAMED) {
        tell_fault(rt, text, error);
    }
    if faults.len() > NAMED {
        let _ = eprint!(rt; "seedlinkd: more faults: {}\n", faults.len() - NAMED);
    }
}
