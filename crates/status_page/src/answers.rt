//! Answers: a head and a body.
ghost use Rattle.std.specs.Prelude.{◌≡◌, ◌++◌, OnOk};
ghost use Rattle.status_page.specs.Answers.{answer_text, body_text, code_of, head_of, kind_of};
ghost use Rattle.status_page.specs.Answers.{refusal_text};

use crate::escape::Language;
use crate::json::json;
use crate::metrics::metrics;
use crate::page::page;
use crate::place::{HeadValue, Place, Row};
use crate::plain::{health, plain, plain_silent};
use crate::request::{StatusRequest, Target};
use crate::template::Piece::{self, Text, Value};
use crate::template::{Section, put_row, put_template};
use crate::value::StatusValue;
use std::alloc::AllocError;

/// All templates of answers.
#[derive(Clone, Copy)]
pub struct Templates {
    pub page: &'static [Section],
    pub metrics: &'static [Section],
    pub plain: &'static [Section],
    pub plain_silent: &'static [Section],
    pub health: &'static [Section],
    pub json: &'static [Section],
    /// The head of each answer.
    pub head: &'static [Piece],
    /// The body of a refusal.
    pub refusal: &'static [Piece],
}

/// The head of an answer. A browser stores nothing of it, takes it for what it is alone, and loads and runs nothing in
/// the page but its own style, by its SHA-256; no other page may have it in a frame.
static HEAD: [Piece; 9] = [
    Text(b"HTTP/1.1 "),
    Value(Place::StatusCode),
    Text(b"\r\nContent-Type: "),
    Value(Place::Kind),
    Text(b"\r\nContent-Length: "),
    Value(Place::Length),
    Text(
        b"\r\nConnection: close\r\nAllow: GET, HEAD\r\nCache-Control: no-store\r\nX-Content-Type-Options: nosniff",
    ),
    Text(
        b"\r\nContent-Security-Policy: default-src 'none'; style-src 'sha256-dK/ZtFgvTgZJ1+Xu9gSbHSajsPAdUw7PFyAMqKB+guQ='",
    ),
    Text(b"; base-uri 'none'; form-action 'none'; frame-ancestors 'none'\r\n\r\n"),
];

/// The body of a refusal: its code.
static REFUSAL: [Piece; 2] = [Value(Place::StatusCode), Text(b"\n")];

/// The head of an answer.
fn head() -> &'static [Piece] {
    &HEAD
}

/// The body of a refusal.
fn refusal() -> &'static [Piece] {
    &REFUSAL
}

/// All templates of answers, for whoever need not know what they say.
pub fn all_templates() -> Templates {
    Templates {
        page: page(),
        metrics: metrics(),
        plain: plain(),
        plain_silent: plain_silent(),
        health: health(),
        json: json(),
        head: head(),
        refusal: refusal(),
    }
}

/// The code of an answer, with its phrase. What a watchdog asks for is unavailable if a station is silent.
fn code_of(target: Target, is_silent: bool) -> &'static [u8]
    ensures { result.now ≡ code_of is_silent target }
{
    match target {
        Target::Page | Target::PageByAge | Target::Metrics | Target::Json => b"200 OK",
        Target::Health | Target::Plain | Target::PlainSilent => if is_silent {
            b"503 Service Unavailable"
        } else {
            b"200 OK"
        },
        Target::Missing => b"404 Not Found",
        Target::NotAllowed => b"405 Method Not Allowed",
        Target::Misdirected => b"421 Misdirected Request",
        Target::TooLong => b"431 Request Header Fields Too Large",
        Target::Invalid => b"400 Bad Request",
    }
}

/// What its body is.
fn kind_of(target: Target) -> &'static [u8]
    ensures { result.now ≡ kind_of target }
{
    match target {
        Target::Page | Target::PageByAge => b"text/html; charset=utf-8",
        Target::Metrics => b"text/plain; version=0.0.4; charset=utf-8",
        Target::Json => b"application/json",
        _ => b"text/plain; charset=utf-8",
    }
}

/// The body of a refusal.
fn put_refusal(
    text: &mut Vec<u8>,
    value: &mut Vec<u8>,
    templates: &Templates,
    target: Target,
) -> Result<(), AllocError>
    ensures { OnOk result (text.new.items ≡ text.old.items ++ refusal_text templates.now target) }
{
    let head = HeadValue {
        code: code_of(target, false),
        kind: kind_of(target),
        length: 0,
    };
    put_row(
        text,
        value,
        Language::Plain,
        &Row::Head(&head),
        templates.refusal,
    )
}

/// The body of an answer by some templates.
fn put_body(
    text: &mut Vec<u8>,
    value: &mut Vec<u8>,
    templates: &Templates,
    target: Target,
    status: &StatusValue<'_>,
) -> Result<(), AllocError>
    ensures { OnOk result (text.new.items ≡ text.old.items ++ body_text templates.now target status.now) }
{
    match target {
        Target::Page | Target::PageByAge => {
            put_template(text, value, Language::Html, status, templates.page)
        }
        Target::Metrics => put_template(text, value, Language::Metrics, status, templates.metrics),
        Target::Health => put_template(text, value, Language::Plain, status, templates.health),
        Target::Plain => put_template(text, value, Language::Plain, status, templates.plain),
        Target::PlainSilent => {
            put_template(text, value, Language::Plain, status, templates.plain_silent)
        }
        Target::Json => put_template(text, value, Language::Json, status, templates.json),
        Target::Missing
        | Target::NotAllowed
        | Target::Misdirected
        | Target::TooLong
        | Target::Invalid => put_refusal(text, value, templates, target),
    }
}

/// The body of an answer takes the place of a text. Another text is used for single values. Only memory can lack, and
/// none is taken once both texts have had room for an answer as long.
pub fn write_body(
    body: &mut Vec<u8>,
    value: &mut Vec<u8>,
    templates: &Templates,
    target: Target,
    status: &StatusValue<'_>,
) -> Result<(), AllocError>
    ensures { OnOk result (body.new.items ≡ body_text templates.now target status.now) }
{
    body.clear();
    put_body(body, value, templates, target, status)
}

/// The body of a refusal takes the place of a text. Only memory can lack.
pub fn write_refusal(
    body: &mut Vec<u8>,
    value: &mut Vec<u8>,
    templates: &Templates,
    target: Target,
) -> Result<(), AllocError>
    ensures { OnOk result (body.new.items ≡ refusal_text templates.now target) }
{
    body.clear();
    put_refusal(body, value, templates, target)
}

/// The head of an answer with so many bytes after it, by some templates.
fn put_head(
    text: &mut Vec<u8>,
    value: &mut Vec<u8>,
    templates: &Templates,
    head: &HeadValue<'_>,
) -> Result<(), AllocError>
    ensures { OnOk result (text.new.items ≡ text.old.items
        ++ head_of templates.now head.now.code.now head.now.kind.now head.now.length) }
{
    put_row(
        text,
        value,
        Language::Plain,
        &Row::Head(head),
        templates.head,
    )
}

/// An answer with a body takes the place of a text: whether a station is silent decides the code of some. Another text
/// is used for single values. Only memory can lack, and none is taken once both texts have had room for an answer as
/// long.
pub fn write_answer(
    text: &mut Vec<u8>,
    value: &mut Vec<u8>,
    templates: &Templates,
    request: StatusRequest,
    is_silent: bool,
    body: &[u8],
) -> Result<(), AllocError>
    ensures { OnOk result (text.new.items ≡ answer_text templates.now request is_silent body.now) }
{
    let head = HeadValue {
        code: code_of(request.target, is_silent),
        kind: kind_of(request.target),
        length: body.len() as u64,
    };
    text.clear();
    put_head(text, value, templates, &head)?;
    if request.is_head {
        return Ok(());
    }
    text.extend_from_slice(body)
}
