//! Colours at a terminal.
ghost use Rattle.std.specs.Prelude.{◌≡◌, option_map};
ghost use Rattle.job_base.specs.Colours.{allows_colours, has_text, is_coloured};

use crate::progress::{is_output_terminal, is_terminal};
use std::env;

/// Whether a variable has a text.
fn has_text(value: Option<&str>) -> bool
    ensures { result ≡ has_text (option_map (λ s. s.now) value.entry) }
{
    match value {
        Some(text) => !text.is_empty(),
        None => false,
    }
}

/// Whether the terminal that TERM names has colours.
fn is_coloured(term: Option<&str>) -> bool
    ensures { result ≡ is_coloured (option_map (λ s. s.now) term.entry) }
{
    match term {
        Some(term) => !term.is_empty() && term != "dumb",
        None => false,
    }
}

/// Whether a terminal is written to in colours, by what the variables NO_COLOR and TERM are: not if NO_COLOR has a
/// text, TERM has none, or it is `dumb`.
pub fn allows_colours(no_color: Option<&str>, term: Option<&str>) -> bool
    ensures { result ≡ allows_colours (option_map (λ s. s.now) no_color.entry)
        (option_map (λ s. s.now) term.entry) }
{
    !has_text(no_color) && is_coloured(term)
}

/// Whether the variables of this process allow colours.
fn are_allowed(rt: &HostRuntime) -> bool {
    let no_color = env::var(rt, "NO_COLOR").ok();
    let term = env::var(rt, "TERM").ok();
    allows_colours(no_color.as_deref(), term.as_deref())
}

/// Whether lines on the standard error have colours.
pub fn has_colours(rt: &HostRuntime) -> bool {
    is_terminal() && are_allowed(rt)
}

/// Whether lines on the standard output have colours.
pub fn has_output_colours(rt: &HostRuntime) -> bool {
    is_output_terminal() && are_allowed(rt)
}

/// What stands before a line on the standard error: at a terminal, what takes away what shows how far a job is.
pub fn line_start() -> &'static str {
    if is_terminal() { "\r\x1b[K" } else { "" }
}
