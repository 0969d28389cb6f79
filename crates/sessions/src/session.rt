//! One connected client.
ghost use Rattle.std.specs.Prelude.{◌≡◌, ◌≤◌, [], length, take, drop, IfOk};
ghost use Rattle.connections.specs.Clients.{or_empty};
ghost use Rattle.devices.specs.declared.reading.TheConstants.{READ_BUFFER};
ghost use Rattle.sessions.specs.Sessions.{fresh_client};

use devices::READ_BUFFER;
use line_protocol::ReplyLine;
use std::alloc::{AllocError, Global};
use std::marker::Model;

/// A client: its received bytes that aren't taken yet, and the reply being sent. Contracts see both
/// lists of bytes. A client needs no memory except its buffer and the reply.
#[derive(Drop)]
pub struct Session {
    buffer: Vec<u8>,
    start: usize,
    end: usize,
    reply: Option<ReplyLine>,
    written: usize,
}

impl Model for Session {
    ghost use Rattle.std.specs.Prelude.{◌≡◌, ◌≤◌, length};
    ghost use Rattle.devices.specs.declared.reading.TheConstants.{READ_BUFFER};
    ghost use Rattle.sessions.specs.Sessions.{Client};
    ghost use Rattle.sessions.specs.Codes.{client_code};
    ghost use Rattle.sessions.specs.Parts.{client_of, reply_length};

    ghost Value = { Client };

    ghost coded = { client_code };

    ghost view = { λ a. client_of a.buffer.items a.start a.end a.reply a.written };

    ghost invariant = { λ a. (length a.buffer.items ≡ READ_BUFFER) × (a.start ≤ a.end) × (a.end ≤ READ_BUFFER) × (a.written ≤ reply_length a.reply) };
}

/// Puts bytes at the front of a buffer.
fn put_front(buffer: &mut [u8], bytes: &[u8])
    requires { length bytes.now ≤ length buffer.old }
    ensures { take (length bytes.now) buffer.new ≡ bytes.now }
{
    buffer[..bytes.len()].copy_from_slice(bytes);
}

impl Session {
    /// Creates a client from which no byte was received.
    pub fn new(alloc: Global) -> Result<Session, AllocError>
        ensures { IfOk result (λ session. session ≡ fresh_client) }
    {
        Ok(Session {
            buffer: Vec::from_elem(alloc, 0, READ_BUFFER)?,
            start: 0,
            end: 0,
            reply: None,
            written: 0,
        })
    }

    /// The bytes received from the client that aren't taken yet.
    pub fn input(&self) -> &[u8]
        ensures { result.now ≡ self.now.input }
    {
        &self.buffer[self.start..self.end]
    }

    /// The bytes of the reply that aren't sent yet.
    pub fn unsent(&self) -> &[u8]
        ensures { result.now ≡ self.now.unsent }
    {
        match &self.reply {
            Some(reply) => &reply.bytes()[self.written..],
            None => &[],
        }
    }

    /// Stores the bytes received from the client. They replace the earlier ones.
    pub fn receive(&mut self, bytes: &[u8])
        requires room { length bytes.now ≤ READ_BUFFER }
        ensures input { self.new.input ≡ bytes.now }
        ensures few { length self.new.input ≤ READ_BUFFER }
        ensures unsent { self.new.unsent ≡ self.old.unsent }
    {
        self.start = 0;
        self.end = bytes.len();
        put_front(&mut self.buffer, bytes);
    }

    /// Removes `count` bytes of the input, which were taken, and stores the reply to them.
    pub fn take(&mut self, count: usize, reply: Option<ReplyLine>)
        requires { count ≤ length self.old.input }
        ensures input { self.new.input ≡ drop count self.old.input }
        ensures unsent { self.new.unsent ≡ or_empty reply }
    {
        self.start += count;
        self.reply = reply;
        self.written = 0;
    }

    /// Notes that `count` bytes were sent to the client. Once the whole reply is sent, its memory
    /// is freed.
    pub fn send(&mut self, count: usize)
        requires { count ≤ length self.old.unsent }
        ensures input { self.new.input ≡ self.old.input }
        ensures unsent { self.new.unsent ≡ drop count self.old.unsent }
    {
        let length = match &self.reply {
            Some(reply) => reply.bytes().len(),
            None => 0,
        };
        self.written += count;
        if self.written == length {
            self.reply = None;
            self.written = 0;
        }
    }
}
