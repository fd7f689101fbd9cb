//! What a status port answered.
ghost use Rattle.std.specs.Prelude.{◌≡◌, All, Bool, IfOk, IfSome, Some, drop, length, true};
ghost use Rattle.httparse.specs.Grammar.{ResponseHead};
ghost use Rattle.httparse.specs.Spans.{IsHeaderWithin, IsResponseAt, IsResponseWithin};
ghost use Rattle.job_status.specs.Answers.{Answers, HasTables, IsAnswer, any_length, code_by, is_length};
ghost use Rattle.job_status.specs.Answers.{length_in};

use crate::status_fault::StatusFault;
use httparse::Status;
use httparse::spans::{EMPTY_HEADER_SPAN, HeaderSpan, ResponseSpans, parse_response};
use itoa::Buffer;

/// How many fields the head of an answer may have.
const FIELDS: usize = 64;

/// What a status port answered.
#[derive(Clone, Copy)]
pub struct Answer<'a> {
    /// Whether a station is silent.
    pub is_silent: bool,
    /// The two tables.
    pub body: &'a [u8],
}

/// How a line of the first table begins, after the counts and an empty line.
const TABLE: &[u8] = b"\n\nNET\tSTATION\tSTATE\t";

/// Whether a field says that so many bytes follow the head.
#[tactic(auto, unfolding(crate::specs::Answers::is_length))]
fn is_length(name: &[u8], value: &[u8], size: usize) -> bool
    ensures { result ≡ is_length size name.now value.now }
{
    let mut buffer = Buffer::new();
    name.eq_ignore_ascii_case(b"Content-Length") && value == buffer.format(size).as_bytes()
}

/// Whether a field of a head says so.
fn says_length(bytes: &[u8], fields: &[HeaderSpan], size: usize) -> bool
    requires { All (IsHeaderWithin (length bytes.now)) fields.now }
    ensures { result ≡ length_in size bytes.now fields.now }
{
    for field in fields {
        if is_length(field.name.of(bytes), field.value.of(bytes), size) {
            return true;
        }
    }
    false
}

/// Whether the tables of a status port stand in a body.
fn has_tables(body: &[u8]) -> bool
    ensures { result ≡ true → HasTables body.now }
{
    for at in 0..body.len() {
        if body[at..].starts_with(TABLE) {
            return true;
        }
    }
    false
}

/// Whether a code says that a station is silent; None if a status port answers by no such code.
fn is_silent_by(code: u16) -> Option<bool>
    ensures known { IfSome result (λ is_silent. code ≡ code_by is_silent) }
    ensures all { (is_silent : Bool) → code ≡ code_by is_silent → result ≡ Some is_silent }
{
    match code {
        200 => Some(false),
        503 => Some(true),
        _ => None,
    }
}

/// Why a body is not taken whose length no field says: it is not complete, or, if no field says any, it is not that of
/// a status port.
fn unfinished(bytes: &[u8], fields: &[HeaderSpan]) -> StatusFault
    requires { All (IsHeaderWithin (length bytes.now)) fields.now }
{
    for field in fields {
        if field.name.of(bytes).eq_ignore_ascii_case(b"Content-Length") {
            return StatusFault::Ended;
        }
    }
    StatusFault::Other
}

/// Whether a head says that so many bytes follow it.
#[tactic(auto, using(crate::proofs::LengthLemmas::same_length))]
fn is_whole(bytes: &[u8], fields: &[HeaderSpan], head: ResponseSpans, size: usize) -> bool
    requires { IsResponseWithin bytes.now fields.now head }
    ensures { (h : ResponseHead) → IsResponseAt bytes.now fields.now head h → result ≡ any_length size h.fields }
{
    says_length(bytes, &fields[..head.headers], size)
}

/// The answer in bytes whose head has these parts.
fn answer_of<'a>(
    bytes: &'a [u8],
    fields: &[HeaderSpan],
    head: ResponseSpans,
) -> Result<Answer<'a>, StatusFault>
    requires { IsResponseWithin bytes.now fields.now head }
    ensures { (h : ResponseHead) → IsResponseAt bytes.now fields.now head h →
        IfOk result (λ answer. IsAnswer h (drop head.len bytes.now) answer.body.now answer.is_silent) }
{
    let Some(is_silent) = is_silent_by(head.code) else {
        return Err(StatusFault::Other);
    };
    let (_, body) = bytes.split_at(head.len);
    if !is_whole(bytes, fields, head, body.len()) {
        return Err(unfinished(bytes, &fields[..head.headers]));
    }
    if has_tables(body) {
        Ok(Answer { is_silent, body })
    } else {
        Err(StatusFault::Other)
    }
}

/// The answer that bytes hold, all of it: whether a station is silent is told by the code, 503 or 200, the length by a
/// field `Content-Length`, in letters of any case, and that it is a status port by the head of its table.
///
/// It fails with Ended if the head or the body is not complete, and with Other if it is not the answer of a status
/// port.
pub fn answer_in(bytes: &[u8]) -> Result<Answer<'_>, StatusFault>
    ensures { IfOk result (λ answer. Answers bytes.now answer.body.now answer.is_silent) }
{
    let mut fields = [EMPTY_HEADER_SPAN; FIELDS];
    let head = match parse_response(bytes, &mut fields) {
        Ok(Status::Complete(head)) => head,
        Ok(Status::Partial) => return Err(StatusFault::Ended),
        Err(_) => return Err(StatusFault::Other),
    };
    answer_of(bytes, &fields, head)
}
