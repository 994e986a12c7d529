//! What serves a script's commands at a desk.
ghost use Rattle.std.specs.Prelude.{◌≡◌, IfOk};
ghost use Rattle.ee_interface.specs.declared.script.command.Command.TheVariants.{Write, Read, Forget, Clean, Arm, PowerOn};
ghost use Rattle.ee_core.specs.Finished.{IsStore};
ghost use Rattle.ee_core.specs.Points.{open_point};
ghost use Rattle.ee_core.specs.State.{state_of};
ghost use Rattle.ee_replay.specs.Serving.{IsCounted, no_notes, serving_on};
ghost use Rattle.ee_image_store.specs.Opening.{StaysOn};

use super::desk::{Desk, Kind};
use super::noting::Notes;
use ee_codec::Address;
use ee_core::{ForgetFault, Off, WriteFault};
use ee_flash::Fuse;
use ee_interface::script::{Answer, Command, Serve};
use std::alloc::{AllocError, Allocator, Global};

/// A desk, and what is noted of the changes that the store on it accepted.
#[derive(Drop)]
pub(crate) struct Server<A: Allocator + Copy = Global> {
    alloc: A,
    /// How the values of a store are found.
    pub(crate) kind: Kind,
    /// The device, and what a store of it knows.
    pub(crate) desk: Desk<A>,
    /// How many changes were accepted, the stretches of their certificate, and
    /// whether power was cut.
    pub(crate) notes: Notes<A>,
    ghost counted: { IsCounted desk notes },
}

impl<A: Allocator + Copy> Server<A> {
    ghost use Rattle.ee_replay.specs.Serving.{LineIsNoted, with_notes};

    /// What serves at this desk before the first command. Values are found so.
    pub(crate) fn new(alloc: A, desk: Desk<A>, kind: Kind) -> Server<A>
        requires on { StaysOn desk }
        requires legal { IsStore desk }
        ensures point { open_point result.desk ≡ serving_on desk }
        ensures notes { result.notes ≡ no_notes (state_of desk).fill }
    {
        let notes = Notes::new(alloc, desk.fill() as u64);
        Server {
            alloc,
            kind,
            desk,
            notes,
        }
    }

    /// Writes, as a line of a script says. An error says that memory ran out.
    fn write(&mut self, address: Address, value: u32) -> Result<Answer, AllocError>
        ensures { IfOk result (λ answer. LineIsNoted
            (with_notes (open_point self.old.desk) self.old.notes) (Write address value)
            answer (with_notes (open_point self.new.desk) self.new.notes)) }
    {
        match self.desk.write(address, value) {
            Ok(written) => {
                let fill = self.desk.fill();
                self.notes.count_change(written, fill as u64)
            }
            Err(WriteFault::Full) => Ok(Answer::Full),
            Err(WriteFault::Spent) => Ok(Answer::Spent),
            Err(WriteFault::Memory) => Err(AllocError),
            Err(WriteFault::Off) => Ok(Answer::Off),
            Err(WriteFault::Cut) => Ok(self.notes.note_cut()),
        }
    }

    /// Forgets, as a line of a script says. An error says that memory ran out.
    fn forget(&mut self, address: Address) -> Result<Answer, AllocError>
        ensures { IfOk result (λ answer. LineIsNoted
            (with_notes (open_point self.old.desk) self.old.notes) (Forget address)
            answer (with_notes (open_point self.new.desk) self.new.notes)) }
    {
        match self.desk.forget(address) {
            Ok(written) => {
                let fill = self.desk.fill();
                self.notes.count_change(written, fill as u64)
            }
            Err(ForgetFault::Absent) => Ok(Answer::Absent),
            Err(ForgetFault::Spent) => Ok(Answer::Spent),
            Err(ForgetFault::Off) => Ok(Answer::Off),
            Err(ForgetFault::Cut) => Ok(self.notes.note_cut()),
        }
    }

    /// Reads.
    fn read(&mut self, address: Address) -> Answer
        ensures { LineIsNoted
            (with_notes (open_point self.old.desk) self.old.notes) (Read address)
            result (with_notes (open_point self.new.desk) self.new.notes) }
    {
        match self.desk.read(address) {
            Ok(Some(value)) => Answer::Value(value),
            Ok(None) => Answer::NoValue,
            Err(Off) => Answer::Off,
        }
    }

    /// Takes a clean step.
    fn clean(&mut self) -> Answer
        ensures { LineIsNoted
            (with_notes (open_point self.old.desk) self.old.notes) Clean
            result (with_notes (open_point self.new.desk) self.new.notes) }
    {
        match self.desk.clean_step() {
            Ok(true) => Answer::Cleaned,
            Ok(false) => Answer::Idle,
            Err(WriteFault::Off) => Answer::Off,
            Err(WriteFault::Cut) => self.notes.note_cut(),
            Err(_) => unreachable!("a clean step takes no memory and needs no slot"),
        }
    }

    /// Arms a cut.
    fn arm(&mut self, fuse: Fuse) -> Answer
        ensures { LineIsNoted
            (with_notes (open_point self.old.desk) self.old.notes) (Arm fuse)
            result (with_notes (open_point self.new.desk) self.new.notes) }
    {
        self.desk.arm(fuse);
        Answer::Armed
    }

    /// Turns power on and opens the store. An error says that memory ran out.
    fn power_on(&mut self) -> Result<Answer, AllocError>
        ensures { IfOk result (λ answer. LineIsNoted
            (with_notes (open_point self.old.desk) self.old.notes) PowerOn
            answer (with_notes (open_point self.new.desk) self.new.notes)) }
    {
        match self.desk.power_on(self.alloc, self.kind) {
            Ok(Answer::Cut) => Ok(self.notes.note_cut()),
            answer => answer,
        }
    }

    /// Goes on with the look-up by which a write of this address is answered sooner.
    #[inline(always)]
    fn settle_to_write(&mut self, address: Address)
        ensures desk { self.new.desk ≡ self.old.desk }
        ensures notes { self.new.notes ≡ self.old.notes }
    {
        if self.desk.is_filled() && matches!(self.kind, Kind::AsPays) {
            self.desk.settle_to_write(self.alloc, address);
        }
    }

    /// Takes note of what a line about this address took, and goes on with the look-up that pays.
    #[inline(always)]
    fn settle(&mut self, address: Address, answer: Answer)
        ensures desk { self.new.desk ≡ self.old.desk }
        ensures notes { self.new.notes ≡ self.old.notes }
    {
        if matches!(self.kind, Kind::AsPays) && self.desk.weigh_line(answer) {
            self.desk.settle(self.alloc, address);
        }
    }
}

impl<A: Allocator + Copy> Serve for Server<A> {
    ghost use Rattle.ee_replay.specs.Serving.{LineIsNoted, with_notes};

    ghost serves = { λ old command answer new.
        LineIsNoted (with_notes (open_point old.desk) old.notes) command answer
        (with_notes (open_point new.desk) new.notes) };

    fn serve(&mut self, command: Command) -> Result<Answer, AllocError> {
        match command {
            Command::Write { address, value } => {
                self.settle_to_write(address);
                let answer = self.write(address, value)?;
                self.settle(address, answer);
                Ok(answer)
            }
            Command::Forget { address } => {
                let answer = self.forget(address)?;
                self.settle(address, answer);
                Ok(answer)
            }
            Command::Read { address } => {
                let answer = self.read(address);
                self.settle(address, answer);
                Ok(answer)
            }
            Command::Clean => Ok(self.clean()),
            Command::Arm { fuse } => Ok(self.arm(fuse)),
            Command::PowerOn => self.power_on(),
        }
    }
}
