//! The bytes of a connection that were read and are not yet answered.
ghost use Rattle.std.specs.Prelude.{◌≡◌, ℕ, ◌+◌, ◌<◌, ◌≤◌, [], length, take, drop, slice_range, vec_len, IfOk};
ghost use Rattle.mt_io.specs.Faults.{HasCause};
ghost use Rattle.mt_io.specs.Streams.{Takes};
ghost use Rattle.mt_http.specs.Awaiting.{IsRead};
ghost use Rattle.mt_http.specs.Buffers.{Held, ahead};

use crate::CAPACITY;
use crate::wire::Span;
use mt_io::{Failed, Source};
use std::alloc::{AllocError, Global};
use std::marker::Model;

/// The bytes of the request that was read last, and those that were read too far. It has room for
/// a head and a body, 73,728 bytes.
#[derive(Drop)]
pub struct Buffer {
    bytes: Vec<u8>,
    len: usize,
    spent: usize,
}

impl Model for Buffer {
    ghost use Rattle.std.specs.Prelude.{◌≡◌, ◌≤◌, take, vec_len};
    ghost use Rattle.mt_http.specs.declared.TheConstants.{CAPACITY};
    ghost use Rattle.mt_http.specs.Buffers.{Held};

    ghost Value = { Held };

    ghost view = { λ b. record { bytes = take b.len b.bytes.items; spent = b.spent } };

    ghost invariant = { λ b. (vec_len b.bytes ≡ CAPACITY) × (b.len ≤ CAPACITY) × (b.spent ≤ b.len) };
}

impl Buffer {
    /// An empty buffer. It takes all its memory here.
    pub fn new(alloc: Global) -> Result<Buffer, AllocError>
        ensures { IfOk result (λ buffer. buffer ≡ record { bytes = []; spent = 0 }) }
    {
        Ok(Buffer {
            bytes: vec![in alloc; 0; CAPACITY]?,
            len: 0,
            spent: 0,
        })
    }

    /// The bytes of a span that the wire has.
    pub fn bytes(&self, span: Span) -> &[u8]
        requires ordered { span.from ≤ span.to }
        requires within { span.to ≤ length self.now.bytes }
        ensures { result.now ≡ slice_range self.now.bytes span.from span.to }
    {
        &self.held()[span.from as usize..span.to as usize]
    }

    /// All bytes that are held.
    pub(crate) fn held(&self) -> &[u8]
        ensures bytes { result.now ≡ self.now.bytes }
        ensures room { length result.now ≤ CAPACITY }
    {
        &self.bytes[..self.len]
    }

    /// Lets the bytes of the last request go.
    pub(crate) fn drop_spent(&mut self)
        ensures { self.new ≡ record { bytes = ahead self.old; spent = 0 } }
    {
        self.bytes.copy_within(self.spent..self.len, 0);
        self.len -= self.spent;
        self.spent = 0;
    }

    /// The first bytes belong to the request that was read.
    pub(crate) fn spend(&mut self, count: usize)
        requires { count ≤ length self.old.bytes }
        ensures { self.new ≡ record self.old { spent = count } }
    {
        self.spent = count;
    }

    /// Reads once.
    pub(crate) fn read_more<S: Source>(&mut self, source: &mut S) -> Result<usize, Failed>
        requires { length self.old.bytes < CAPACITY }
        ensures read { IsRead self.old.bytes (S.left source.old) result self.new.bytes (S.left source.new) }
        ensures spent { self.new.spent ≡ self.old.spent }
        ensures cause { HasCause (S.faults source.old) (S.faults source.new) result }
        ensures rest { S.rest source.new ≡ S.rest source.old }
    {
        let count = read_past(source, &mut self.bytes, self.len)?;
        self.len += count;
        Ok(count)
    }
}

// Reads once behind the first `len` bytes.
fn read_past<S: Source>(source: &mut S, bytes: &mut Vec<u8>, len: usize) -> Result<usize, Failed>
    requires { len < vec_len bytes.old }
    ensures len { vec_len bytes.new ≡ vec_len bytes.old }
    ensures prefix { take len bytes.new.items ≡ take len bytes.old.items }
    ensures count { IfOk result (λ n. len + n ≤ length bytes.new.items) }
    ensures takes { Takes (S.left source.old) (S.left source.new) result (drop len bytes.new.items) }
    ensures cause { HasCause (S.faults source.old) (S.faults source.new) result }
    ensures rest { S.rest source.new ≡ S.rest source.old }
{
    read_behind(source, bytes.as_mut_slice(), len)
}

// The same over a slice.
fn read_behind<S: Source>(source: &mut S, bytes: &mut [u8], len: usize) -> Result<usize, Failed>
    requires { len < length bytes.old }
    ensures prefix { take len bytes.new ≡ take len bytes.old }
    ensures count { IfOk result (λ n. len + n ≤ length bytes.new) }
    ensures takes { Takes (S.left source.old) (S.left source.new) result (drop len bytes.new) }
    ensures cause { HasCause (S.faults source.old) (S.faults source.new) result }
    ensures rest { S.rest source.new ≡ S.rest source.old }
{
    source.read(&mut bytes[len..])
}
