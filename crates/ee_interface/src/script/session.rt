//! A script that comes in pieces: each line is answered as soon as it has come.
ghost use Rattle.std.specs.Prelude.{◌≡◌, ◌+◌, ◌<◌, ◌++◌, [], length, IfErr, IfOk, MatchResult, OnOk};
ghost use Rattle.std.specs.Bool.{OnFalse, OnTrue};
ghost use Rattle.ee_text.specs.Line.{IsLine, line_of};
ghost use Rattle.ee_interface.specs.Script.Command.{IsCommand};
ghost use Rattle.ee_interface.specs.Script.Script.{NoLine};
ghost use Rattle.ee_interface.specs.Script.Session.{Answered, saturating_count, EndsScript, Goes, IsUnfinished};
ghost use Rattle.ee_interface.specs.Script.Fault.{EndsBadly, IsFault};
ghost use Rattle.ee_interface.specs.Script.Reading.{StopsReading, TakesText};
ghost use Rattle.std.specs.Io.KnownBytes.{IsAtEnd};

use super::answer::{Answer, push_answer};
use super::command::Command;
use super::parse::{next_command, read_command};
use arrayvec::ArrayVec;
use ee_text::next_line;
use std::alloc::{AllocError, Allocator, Global};
use std::io::{ErrorKind, Read};
use std::marker::Model;

/// The most bytes that a good line has before its line feed.
pub const LONGEST_LINE: usize = 24;

/// How many bytes one read call asks for.
const CHUNK: usize = 4096;

/// Why a script can't be answered to its end.
#[derive(Clone, Copy, Debug, PartialEq, Eq)]
pub enum ScriptFault {
    /// The number of the first bad line, counted from 1 and no further than a u64 goes.
    BadLine(u64),
    /// Memory ran out.
    Memory,
}

impl From<AllocError> for ScriptFault {
    ghost use Rattle.std.specs.Prelude.{◌≡◌};
    ghost use Rattle.ee_interface.specs.declared.script.session.ScriptFault.TheVariants.{Memory};

    ghost from_gives = { λ _ fault. fault ≡ Memory };

    fn from(_error: AllocError) -> ScriptFault {
        ScriptFault::Memory
    }
}

/// Why a script that a reader gives can't be answered to its end: what is met first.
#[derive(Clone, Copy, Debug, PartialEq, Eq)]
pub enum StreamFault {
    /// A read failed, or the most read calls were made and the end had not come.
    Read,
    /// A line is bad, or memory ran out.
    Script(ScriptFault),
}

impl From<ScriptFault> for StreamFault {
    ghost use Rattle.std.specs.Prelude.{◌≡◌};
    ghost use Rattle.ee_interface.specs.declared.script.session.StreamFault.TheVariants.{Script};

    ghost from_gives = { λ script fault. fault ≡ Script script };

    fn from(fault: ScriptFault) -> StreamFault {
        StreamFault::Script(fault)
    }
}

impl From<AllocError> for StreamFault {
    ghost use Rattle.std.specs.Prelude.{◌≡◌};
    ghost use Rattle.ee_interface.specs.declared.script.session.ScriptFault.TheVariants.{Memory};
    ghost use Rattle.ee_interface.specs.declared.script.session.StreamFault.TheVariants.{Script};

    ghost from_gives = { λ _ fault. fault ≡ Script Memory };

    fn from(_error: AllocError) -> StreamFault {
        StreamFault::Script(ScriptFault::Memory)
    }
}

/// What answers the commands of a script.
pub trait Serve {
    ghost use Rattle.ee_interface.specs.declared.script.command.Command.{Command};
    ghost use Rattle.ee_interface.specs.declared.script.answer.Answer.{Answer};

    /// From what it is, it may answer the command so, and is that afterwards.
    ghost serves: { Self → Command → Answer → Self → Type 0 };

    /// Answers one command. An error says that memory ran out.
    fn serve(&mut self, command: Command) -> Result<Answer, AllocError>
        ensures { IfOk result (λ answer. serves self.old command answer self.new) };
}

/// A script on its way: it comes in pieces, and each line is answered as soon as it has come. An
/// error takes the session with it.
#[derive(Drop)]
pub struct Session<S: Serve + Drop, A: Allocator = Global> {
    server: S,
    report: Vec<u8, A>,
    lines: u64,
    unfinished: ArrayVec<u8, LONGEST_LINE>,
}

impl<S: Serve + Drop, A: Allocator> Model for Session<S, A> {
    ghost use Rattle.ee_interface.specs.Script.Session.{Progress, IsUnfinished};

    ghost Value = { Progress S };

    ghost view = { λ s. record {
      server = s.server;
      report = s.report.items;
      lines = s.lines;
      unfinished = s.unfinished.items;
    } };

    ghost invariant = { λ s. IsUnfinished s.unfinished.items };
}

impl<S: Serve + Drop, A: Allocator> Session<S, A> {
    /// A session that nothing was fed to.
    pub fn new(alloc: A, server: S) -> Session<S, A>
        ensures { result ≡ record { server = server; report = []; lines = 0; unfinished = [] } }
    {
        Session {
            server,
            report: Vec::new(alloc),
            lines: 0,
            unfinished: ArrayVec::new(),
        }
    }

    /// Takes the next piece of the script: each line that ends in it is answered. A line is
    /// judged when its line feed comes, or at the end of the piece that makes it longer
    /// than any good line.
    pub fn feed(mut self, piece: &[u8]) -> Result<Session<S, A>, ScriptFault>
        ensures { MatchResult result
            (λ session. Goes S.serves self piece.now session)
            (IsFault self piece.now) }
    {
        if self.unfinished.is_empty() {
            self.judge(piece)?;
            return Ok(self);
        }
        let Some((end, behind)) = next_line(piece) else {
            self.keep(piece)?;
            return Ok(self);
        };
        self.end_line(end)?;
        self.judge(behind)?;
        Ok(self)
    }

    /// Takes what a reader gives, to its end. What one read call gives is judged before the next,
    /// and a read that was interrupted is tried again. No more than `most` read calls are made.
    pub fn feed_all<R: Read>(self, reader: &mut R, most: u32) -> Result<Session<S, A>, StreamFault>
        ensures fed { IfOk result (TakesText S.serves self (R.remaining reader.old)
            (R.remaining reader.new)) }
        ensures end { OnOk result (IsAtEnd (R.remaining reader.new)) }
        ensures fault { IfErr result (StopsReading S.serves self (R.remaining reader.old)
            (R.remaining reader.new)) }
    {
        let mut session = self;
        let mut piece = [0u8; CHUNK];
        'reading: for _ in 0..most {
            match reader.read(&mut piece) {
                Ok(0) => return Ok(session),
                Ok(count) => session = session.feed(&piece[..count])?,
                Err(error) => {
                    if error.kind() != ErrorKind::Interrupted {
                        break;
                    }
                }
            }
        }
        // What is lost is less than a line, which a proof knows where the field is used.
        let _ = &session.unfinished;
        Err(StreamFault::Read)
    }

    /// Ends the script, and gives what served it and the report. A line that no line feed ended is
    /// bad.
    pub fn finish(self) -> Result<(S, Vec<u8, A>), ScriptFault>
        ensures { MatchResult result (λ done. EndsScript self done.0 done.1.items) (EndsBadly self) }
    {
        if !self.unfinished.is_empty() {
            return Err(self.bad_line());
        }
        Ok((self.server, self.report))
    }

    /// Takes a text with nothing unfinished before it: each line is judged where it lies.
    fn judge(&mut self, text: &[u8]) -> Result<(), ScriptFault>
        requires { self.old.unfinished ≡ [] }
        ensures { MatchResult result
            (λ _. Goes S.serves self.old text.now self.new)
            (IsFault self.old text.now) }
    {
        let mut rest = text;
        'lines: while let Some((command, behind)) = next_command(rest) {
            self.answer(command)?;
            rest = behind;
        }
        self.keep(rest)
    }

    /// Judges and answers the line that an earlier piece began and that ends behind these bytes.
    #[tactic(auto, using(crate::proofs::ScriptLemmas::Steps::goes_at_feed, crate::proofs::ScriptLemmas::Faults::fault_at_feed, crate::proofs::ScriptLemmas::Faults::fault_before, crate::proofs::ScriptLemmas::Faults::fault_when_long))]
    fn end_line(&mut self, bytes: &[u8]) -> Result<(), ScriptFault>
        requires { IsLine bytes.now }
        ensures done { OnOk result (Goes S.serves self.old (line_of bytes.now) self.new) }
        ensures nothing { OnOk result (self.new.unfinished ≡ []) }
        ensures fault { IfErr result (IsFault self.old (line_of bytes.now)) }
    {
        if !self.hold(bytes) {
            return Err(self.bad_line());
        }
        let Some(command) = read_command(self.unfinished.as_slice()) else {
            return Err(self.bad_line());
        };
        self.unfinished.clear();
        self.answer(command)
    }

    /// Answers the command of the next line, with nothing unfinished before it.
    fn answer(&mut self, command: Command) -> Result<(), ScriptFault>
        requires { IsCommand command }
        ensures answered { OnOk result (Answered S.serves self.old command self.new) }
        ensures memory { IfErr result (λ fault. fault ≡ ScriptFault.Memory) }
    {
        let answer = self.server.serve(command)?;
        push_answer(&mut self.report, answer)?;
        self.lines = self.lines.saturating_add(1);
        Ok(())
    }

    /// Keeps the bytes of a line that isn't ended yet. They make it a bad line if they end it,
    /// since no good line begins so, or if they make it too long.
    #[tactic(auto, using(crate::proofs::ScriptLemmas::Steps::goes_keeping, crate::proofs::ScriptLemmas::Faults::fault_when_long, crate::proofs::ScriptLemmas::Faults::fault_within))]
    fn keep(&mut self, bytes: &[u8]) -> Result<(), ScriptFault>
        requires before { IsLine self.old.unfinished }
        requires none { NoLine (self.old.unfinished ++ bytes.now) }
        ensures { MatchResult result
            (λ _. Goes S.serves self.old bytes.now self.new)
            (IsFault self.old bytes.now) }
    {
        if let Some(_) = next_line(bytes) {
            return Err(self.bad_line());
        }
        if !self.hold(bytes) {
            return Err(self.bad_line());
        }
        Ok(())
    }

    /// Whether these bytes, which end no line, leave what is unfinished no longer than a good line.
    /// They are added to it then.
    fn hold(&mut self, bytes: &[u8]) -> bool
        requires { IsLine bytes.now }
        ensures line { IsLine (self.old.unfinished ++ bytes.now) }
        ensures held { OnTrue result (self.new
            ≡ record self.old { unfinished = self.old.unfinished ++ bytes.now }) }
        ensures too_long { OnFalse result ((self.new ≡ self.old)
            × (24 < length self.old.unfinished + length bytes.now)) }
    {
        self.unfinished.try_extend_from_slice(bytes).is_ok()
    }

    /// The fault of the line that isn't answered yet.
    fn bad_line(&self) -> ScriptFault
        ensures { result ≡ ScriptFault.BadLine (saturating_count (self.now.lines + 1)) }
    {
        ScriptFault::BadLine(self.lines.saturating_add(1))
    }
}
