//! A reader that gives a few bytes a call, and fails at one call.
ghost use Rattle.std.specs.Prelude.{◌≡◌, ◌-◌, ◌<◌, ◌↔◌, Some, IsErr, IfErr, IfOk, min, length};
ghost use Rattle.std.specs.Io.{ReadsAtMost};
ghost use Rattle.std.specs.Io.KnownBytes.{ReadConsumes};
ghost use Rattle.std.specs.IoError.{error_kind};

use std::io;
use std::io::{ErrorKind, Read};

/// A reader of known bytes that gives a few of them a call, and fails at one call.
#[derive(Drop)]
pub struct FailingReader<'a> {
    /// The bytes that are still to be read.
    pub rest: &'a [u8],
    /// How many bytes a call gives at most, 1 or more.
    pub most: usize,
    /// The number of the call that fails, counted from 1 and from now on. At 0 no call fails.
    pub fails_at: u64,
    /// How that call fails.
    pub failure: ErrorKind,
    ghost gives_bytes: { 0 < most },
}

impl Read for FailingReader<'_> {
    ghost remaining = { λ reader. Some reader.rest.now };

    fn read(&mut self, buf: &mut [u8]) -> io::Result<usize>
        ensures bound { ReadsAtMost result buf.new }
        ensures bytes { ReadConsumes (Some self.old.rest.now) (Some self.new.rest.now) result buf.new }
        ensures fails { IsErr result ↔ (self.old.fails_at ≡ 1) }
        ensures failure { IfErr result (λ e. error_kind e ≡ self.old.failure) }
        ensures count { IfOk result
            (λ n. n ≡ min self.old.most (min (length self.old.rest.now) (length buf.old))) }
        ensures counted { self.new.fails_at ≡ self.old.fails_at - 1 }
        ensures same { (self.new.most ≡ self.old.most) × (self.new.failure ≡ self.old.failure) }
    {
        let fails = self.fails_at == 1;
        self.fails_at = self.fails_at.saturating_sub(1);
        if fails {
            return Err(io::Error::from(self.failure));
        }
        let count = self.most.min(self.rest.len()).min(buf.len());
        let (given, rest) = self.rest.split_at(count);
        buf[..count].copy_from_slice(given);
        self.rest = rest;
        Ok(count)
    }
}
