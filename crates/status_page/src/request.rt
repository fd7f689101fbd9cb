//! What is asked of the status port: the head of a request, and what it is for.
ghost use Rattle.std.specs.Prelude.{◌≡◌, ◌≤◌, ℕ, List, None, Some, IsSome, length, true};
ghost use Rattle.httparse.specs.Spans.{IsRequestAt, IsRequestWithin};
ghost use Rattle.httparse.specs.Grammar.{HasNoRequest, ReadsRequest, RequestHead};
ghost use Rattle.status_page.specs.Requests.{MAX_FIELDS, asked_by, request_of, target_of};

use crate::host::is_any_foreign;
use httparse::spans::{EMPTY_HEADER_SPAN, HeaderSpan, RequestSpans, parse_request};
use httparse::{Error, Status};

/// How many fields a head may have.
const FIELDS: usize = 64;

/// What an answer is for.
#[derive(Clone, Copy, Drop)]
pub enum Target {
    /// `/`: the page, with the stations in the order of the configuration.
    Page,
    /// `/?sort=age`: the page, with the stations that were silent longest first.
    PageByAge,
    /// `/metrics`: what Prometheus reads.
    Metrics,
    /// `/health`: whether a station is silent.
    Health,
    /// `/plain`: the two tables in plain text.
    Plain,
    /// `/plain?state=silent`: the counts, and the table of the silent stations alone.
    PlainSilent,
    /// `/json`: what the two tables tell, as JSON.
    Json,
    /// Nothing has that name.
    Missing,
    /// It is asked by another method than GET and HEAD.
    NotAllowed,
    /// It is asked by the name of another site.
    Misdirected,
    /// The head is too long, or has too many fields.
    TooLong,
    /// It is not the head of a request.
    Invalid,
}

/// What is asked.
#[derive(Clone, Copy, Drop)]
pub struct StatusRequest {
    pub target: Target,
    /// Only the head of the answer is wanted.
    pub is_head: bool,
}

/// What a path is for.
fn target_of(path: &[u8]) -> Target
    ensures { result ≡ target_of path.now }
{
    if path == b"/".as_slice() {
        Target::Page
    } else if path == b"/?sort=age".as_slice() {
        Target::PageByAge
    } else if path == b"/metrics".as_slice() {
        Target::Metrics
    } else if path == b"/health".as_slice() {
        Target::Health
    } else if path == b"/plain".as_slice() {
        Target::Plain
    } else if path == b"/plain?state=silent".as_slice() {
        Target::PlainSilent
    } else if path == b"/json".as_slice() {
        Target::Json
    } else {
        Target::Missing
    }
}

/// What is asked by a method and a path.
fn request_of(method: &[u8], path: &[u8]) -> StatusRequest
    ensures { result ≡ request_of method.now path.now }
{
    if method == b"GET".as_slice() {
        StatusRequest {
            target: target_of(path),
            is_head: false,
        }
    } else if method == b"HEAD".as_slice() {
        StatusRequest {
            target: target_of(path),
            is_head: true,
        }
    } else {
        StatusRequest {
            target: Target::NotAllowed,
            is_head: false,
        }
    }
}

/// An answer that is for no path.
fn refusal(target: Target) -> StatusRequest {
    StatusRequest {
        target,
        is_head: false,
    }
}

/// What is asked by a head whose parts are there.
#[tactic(auto, unfolding(crate::specs::Requests::asked_by), using(crate::proofs::HostLemmas::same_foreign))]
fn asked_by(bytes: &[u8], fields: &[HeaderSpan], head: RequestSpans, name: &[u8]) -> StatusRequest
    requires { IsRequestWithin bytes.now fields.now head }
    ensures { (h : RequestHead) → IsRequestAt bytes.now fields.now head h →
        result ≡ asked_by name.now h }
{
    let mut request = request_of(head.method.of(bytes), head.path.of(bytes));
    if is_any_foreign(bytes, &fields[..head.headers], name) {
        request.target = Target::Misdirected;
    }
    request
}

/// What the bytes that came ask of a server of a name, if they hold the head of a request with at most 64 fields. Else
/// what is wrong with them; None if more bytes may complete a head and more are taken.
pub fn request_in(bytes: &[u8], is_full: bool, name: &[u8]) -> Option<StatusRequest>
    ensures asked { (head : RequestHead) (rest : List ℕ) → ReadsRequest bytes.now head rest →
        length head.fields ≤ MAX_FIELDS → result ≡ Some (asked_by name.now head) }
    ensures unfinished { result ≡ None → HasNoRequest bytes.now }
    ensures full { is_full ≡ true → IsSome result }
{
    let mut fields = [EMPTY_HEADER_SPAN; FIELDS];
    match parse_request(bytes, &mut fields) {
        Ok(Status::Complete(head)) => Some(asked_by(bytes, &fields, head, name)),
        Ok(Status::Partial) => {
            if is_full {
                Some(refusal(Target::TooLong))
            } else {
                None
            }
        }
        Err(Error::TooManyHeaders) => Some(refusal(Target::TooLong)),
        Err(_) => Some(refusal(Target::Invalid)),
    }
}
