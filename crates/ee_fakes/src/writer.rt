//! A writer that takes one byte a call, and stops at one call.
ghost use Rattle.std.specs.Prelude.{◌≡◌, ◌≢◌, ◌-◌, Some, IfOk, IfErr, min, length};
ghost use Rattle.std.specs.Io.{WritesAtMost};
ghost use Rattle.std.specs.Io.KnownBytes.{Keeps, WriteAppends};
ghost use Rattle.std.specs.IoError.{error_kind};
ghost use Rattle.ee_fakes.specs.Stream.{IsStopped};

use std::alloc::{Allocator, Global};
use std::io;
use std::io::{ErrorKind, Write};

/// How a writer stops.
#[derive(Clone, Copy)]
pub enum Stop {
    /// The call fails.
    Error(ErrorKind),
    /// The call takes no byte and says so.
    NoByte,
}

/// A writer that takes one byte a call, and stops at one call.
#[derive(Drop)]
pub struct FailingWriter<A: Allocator = Global> {
    /// The bytes that were taken.
    pub taken: Vec<u8, A>,
    /// The number of the call that stops, counted from 1 and from now on. At 0 no call does.
    pub stops_at: u64,
    /// How that call stops.
    pub stop: Stop,
}

impl<A: Allocator> Write for FailingWriter<A> {
    ghost contents = { λ writer. Some writer.taken.items };

    fn write(&mut self, buf: &[u8]) -> io::Result<usize>
        ensures bound { WritesAtMost result buf.now }
        ensures bytes { WriteAppends (Some self.old.taken.items) (Some self.new.taken.items) result buf.now }
        ensures stops { self.old.stops_at ≡ 1 → IsStopped self.old.stop result }
        ensures takes { self.old.stops_at ≢ 1 → IfOk result (λ n. n ≡ min 1 (length buf.now)) }
        ensures fails { self.old.stops_at ≢ 1 → IfErr result (λ e. error_kind e ≡ ErrorKind.OutOfMemory) }
        ensures counted { self.new.stops_at ≡ self.old.stops_at - 1 }
        ensures same { self.new.stop ≡ self.old.stop }
    {
        let stops = self.stops_at == 1;
        self.stops_at = self.stops_at.saturating_sub(1);
        match self.stop {
            Stop::Error(kind) if stops => Err(io::Error::from(kind)),
            Stop::NoByte if stops => Ok(0),
            _ => match buf.first() {
                Some(byte) => {
                    self.taken.push(*byte)?;
                    Ok(1)
                }
                None => Ok(0),
            },
        }
    }

    fn flush(&mut self) -> io::Result<()>
        ensures bytes { Keeps (Some self.old.taken.items) (Some self.new.taken.items) }
        ensures always { result ≡ Ok tt }
        ensures same { self.new ≡ self.old }
    {
        Ok(())
    }
}
