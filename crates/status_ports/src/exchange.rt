//! One request and its answer, without a socket.
ghost use Rattle.std.specs.Prelude.{◌≡◌, ◌≤◌, [], IfOk, OnOk, drop, length};
ghost use Rattle.status_page.specs.Answers.{answer_text};
ghost use Rattle.status_ports.specs.Exchanges.{begun, is_late, with_bytes};

use status_page::{StatusRequest, Templates, request_in, write_answer};
use std::alloc::{AllocError, Global};
use std::marker::Model;

/// How many bytes the head of a request may have.
pub const HEAD: usize = 4_096;

/// After how many milliseconds a connection is closed, whatever it has taken.
const PATIENCE: u64 = 5_000;

/// A request that comes and its answer that goes. In a contract it is when it began, the bytes that came, and those
/// that are still to be sent.
#[derive(Drop)]
pub struct Exchange {
    since: u64,
    head: Vec<u8>,
    answer: Vec<u8>,
    sent: usize,
}

impl Model for Exchange {
    ghost use Rattle.std.specs.Prelude.{◌≤◌, drop, length};
    ghost use Rattle.status_page.specs.Answers.{answer_text};
    ghost use Rattle.status_ports.specs.Exchanges.{ExchangeValue};

    ghost Value = { ExchangeValue };

    ghost view = { λ e. record { since = e.since; head = e.head.items; rest = drop e.sent e.answer.items } };

    ghost invariant = { λ e. (length e.head.items ≤ 4096) × (e.sent ≤ length e.answer.items) };
}

impl Exchange {
    /// Nothing came and nothing is to be sent. Only memory can lack.
    pub fn new(alloc: Global) -> Result<Exchange, AllocError>
        ensures { IfOk result (λ exchange. exchange ≡ begun 0) }
    {
        let head = Vec::with_capacity(alloc, HEAD)?;
        Ok(Exchange {
            since: 0,
            head,
            answer: Vec::new(alloc),
            sent: 0,
        })
    }

    /// Another connection begins.
    pub fn begin(&mut self, now: u64)
        ensures { self.new ≡ begun now }
    {
        self.since = now;
        self.head.clear();
        self.answer.clear();
        self.sent = 0;
    }

    /// Bytes of the request came. Those that are more than a head may have are dropped. It takes no memory, since there
    /// is room for a head.
    pub fn add(&mut self, bytes: &[u8]) -> Result<(), AllocError>
        ensures { OnOk result (self.new ≡ with_bytes bytes.now self.old) }
    {
        let room = HEAD - self.head.len();
        let count = bytes.len().min(room);
        self.head.extend_from_slice(&bytes[..count])
    }

    /// What is asked of a server of a name, if that is known: more bytes are waited for while a head may have more.
    pub fn asked(&self, name: &[u8]) -> Option<StatusRequest> {
        request_in(self.head.as_slice(), self.head.len() >= HEAD, name)
    }

    /// The answer is to be sent: a body, before which stands its head. Another text is used for single values. Only
    /// memory can lack.
    pub fn answer(
        &mut self,
        value: &mut Vec<u8>,
        templates: &Templates,
        request: StatusRequest,
        is_silent: bool,
        body: &[u8],
    ) -> Result<(), AllocError>
        ensures { OnOk result (self.new ≡ record self.old {
          rest = answer_text templates.now request is_silent body.now;
        }) }
    {
        self.sent = 0;
        write_answer(&mut self.answer, value, templates, request, is_silent, body)
    }

    /// When it began.
    pub fn since(&self) -> u64
        ensures { result ≡ self.now.since }
    {
        self.since
    }

    /// What is still to be sent.
    pub fn rest(&self) -> &[u8]
        ensures { result.now ≡ self.now.rest }
    {
        &self.answer.as_slice()[self.sent..]
    }

    /// So many bytes of it were sent.
    pub fn sent(&mut self, count: usize)
        requires { count ≤ length self.old.rest }
        ensures { self.new ≡ record self.old { rest = drop count self.old.rest } }
    {
        self.sent += count;
    }

    /// Whether it took too long.
    pub fn is_late(&self, now: u64) -> bool
        ensures { result ≡ is_late now self.now }
    {
        now.saturating_sub(self.since) >= PATIENCE
    }
}
