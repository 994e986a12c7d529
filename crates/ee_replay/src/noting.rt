//! The certificate of the changes that a store accepts, noted as it accepts them.
ghost use Rattle.std.specs.Prelude.{◌≡◌, ◌<◌, ◌+◌, ◌^◌, IfOk, OnErr, OnOk, length};
ghost use Rattle.ee_check.specs.Certificate.{claim_of};
ghost use Rattle.ee_replay.specs.Serving.{claim_noted, no_notes, notes_after, stored_answer};
ghost use Rattle.ee_interface.specs.declared.script.answer.Answer.TheVariants.{Cut, Moved};

use ee_check::{Certificate, Start, Stretch};
use ee_core::Written;
use ee_interface::script::Answer;
use std::alloc::{AllocError, Allocator, Global};
use std::marker::Model;

/// What is noted of the changes that a store accepted, and whether power was cut. It takes memory
/// for each move, and none for anything else.
#[derive(Drop)]
pub(crate) struct Notes<A: Allocator = Global> {
    /// How many changes were accepted.
    changes: u64,
    /// How many slots were used where the stretch that goes on began.
    from: u64,
    /// The stretches that have ended.
    stretches: Vec<Stretch, A>,
    /// Whether power was cut.
    cut: bool,
}

impl<A: Allocator> Model for Notes<A> {
    ghost use Rattle.ee_replay.specs.Serving.{Notes};

    ghost Value = { Notes };

    ghost view = { λ n. record {
      changes = n.changes;
      from = n.from;
      stretches = n.stretches.items;
      cut = n.cut;
    } };
}

impl<A: Allocator> Notes<A> {
    /// Before the first change, where so many slots are used.
    pub(crate) fn new(alloc: A, fill: u64) -> Notes<A>
        ensures { result ≡ no_notes fill }
    {
        Notes {
            changes: 0,
            from: fill,
            stretches: Vec::new(alloc),
            cut: false,
        }
    }

    /// Notes how a change was stored, behind which so many slots are used, and gives the answer to
    /// it.
    pub(crate) fn count_change(&mut self, written: Written, fill: u64) -> Result<Answer, AllocError>
        requires { self.old.changes + 1 < 2 ^ 64 }
        ensures answer { IfOk result (λ answer. answer ≡ stored_answer written) }
        ensures noted { OnOk result (self.new ≡ notes_after (stored_answer written) fill self.old) }
        ensures err { OnErr result (self.new ≡ self.old) }
    {
        match written {
            Written::Appended => {
                self.changes += 1;
                Ok(Answer::Appended)
            }
            Written::Moved => {
                self.transfer(fill)?;
                Ok(Answer::Moved)
            }
        }
    }

    /// A change was moved with the map, and so many slots are used behind it.
    fn transfer(&mut self, fill: u64) -> Result<(), AllocError>
        requires { self.old.changes + 1 < 2 ^ 64 }
        ensures ok { OnOk result (self.new ≡ notes_after Moved fill self.old) }
        ensures err { OnErr result (self.new ≡ self.old) }
    {
        self.stretches.push(Stretch {
            to: self.changes + 1,
            from: self.from,
        })?;
        self.changes += 1;
        self.from = fill;
        Ok(())
    }

    /// Notes that power was cut, and gives the answer to it.
    pub(crate) fn note_cut(&mut self) -> Answer
        ensures answer { result ≡ Cut }
        ensures noted { self.new ≡ notes_after Cut 0 self.old }
    {
        self.cut = true;
        Answer::Cut
    }

    /// Whether power was cut.
    pub(crate) fn was_cut(&self) -> bool
        ensures { result ≡ self.now.cut }
    {
        self.cut
    }

    /// How many moves there were.
    pub(crate) fn transfers(&self) -> u64
        ensures { result ≡ length self.now.stretches }
    {
        self.stretches.len() as u64
    }

    /// The certificate that no store makes these changes from this start with fewer moves.
    pub(crate) fn into_certificate<B: Allocator>(self, start: &Start<B>) -> Certificate<A>
        ensures { claim_of result ≡ claim_noted start.now self }
    {
        Certificate {
            slots: start.slots(),
            fill: start.fill(),
            live: start.live().len() as u64,
            writes: self.changes,
            stretches: self.stretches,
        }
    }
}
