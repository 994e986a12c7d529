//! A device of words on a flash of coded numbers.
ghost use Rattle.std.specs.Bool.{MatchBool};
ghost use Rattle.std.specs.Prelude.{◌≡◌, ℕ, IfErr, IfOk, OnOk, true};
ghost use Rattle.ee_flash.specs.Device.{all_ones};
ghost use Rattle.ee_nor.specs.Coded.Coded.{IsCodedSafe};
ghost use Rattle.ee_nor.specs.Coded.EccNor.{ecc_at, whole_number};
ghost use Rattle.ee_flash.specs.Size.{size_of};
ghost use Rattle.ee_nor.specs.Coded.Shapes.{HoldsNoOther, HoldsOther};
ghost use Rattle.ee_nor.specs.Coded.Wiping.{IsEccWipeCut, MayBeNew, with_all_ecc_wiped};

use crate::coded::ecc_nor::EccNor;
use crate::coded::runs::fill_run;
use crate::coded::shapes::{OtherShape, other_shape};
use crate::coded::wiping::{may_be_new, wipe};
use crate::coded::words::{coded_number, without_check, word_of_reading};
use ee_flash::{Cut, Flash, Shape, Word};

/// A device of words on a flash of numbers, each of which is a coded word.
///
/// Source: ours.
#[derive(Drop)]
pub struct Coded<N: EccNor + Drop> {
    nor: N,
    ghost safe: { IsCodedSafe (N.ecc nor) },
}

impl<N: EccNor + Drop> Coded<N> {
    /// The device of words of a flash that is blank, or to which only such devices wrote, of
    /// whatever shape. It reads word 1 of the first page of each set, whether power is on or off,
    /// and changes nothing.
    ///
    /// # Errors
    ///
    /// `OtherShape`, with the flash as it was: the mark there is of this shape, and not of the
    /// device's own. Page 0 comes first, the first page of set 0 in each shape. That of set 1 is
    /// looked for where the own shape has it. So a flash of another shape passes where page 0 is
    /// erased and no mark stands there; as none of its marks reads as one, it has no live set. With
    /// 0 pages it holds plain words: one of these two is their mark, and neither is the device's.
    pub fn of(nor: N) -> Result<Coded<N>, (N, OtherShape)>
        requires safe { IsCodedSafe (N.ecc nor) }
        ensures same { IfOk result (λ coded. N.ecc coded.nor ≡ N.ecc nor) }
        ensures looked { OnOk result (HoldsNoOther (N.ecc nor)) }
        ensures fault { IfErr result (λ refused.
            HoldsOther (N.ecc nor) (size_of refused.1.pages refused.1.words)) }
        ensures untouched { IfErr result (λ refused. N.ecc refused.0 ≡ N.ecc nor) }
    {
        match other_shape(&nor) {
            None => Ok(Coded { nor }),
            Some(other) => Err((nor, other)),
        }
    }

    /// The device of words of such a flash, of which the shape is known. Of a number that something
    /// else wrote an erase that is cut could make a coded word; where power is cut in no step it is
    /// of any flash. Nothing is read, since a reading doesn't tell.
    pub fn known(nor: N) -> Coded<N>
        requires safe { IsCodedSafe (N.ecc nor) }
        ensures same { N.ecc result.nor ≡ N.ecc nor }
    {
        Coded { nor }
    }

    /// The device of words of a flash that may hold anything: each page that isn't blank is erased,
    /// by rising page. The flash is on, as a condition.
    ///
    /// # Errors
    ///
    /// `Cut`, with the flash, which is off: power failed in an erase. The pages before it are
    /// blank.
    pub fn wipe(mut nor: N) -> Result<Coded<N>, (N, Cut)>
        requires { (N.ecc nor).on ≡ true }
        ensures wiped { IfOk result (λ coded. N.ecc coded.nor ≡ with_all_ecc_wiped (N.ecc nor)) }
        ensures blank { IfOk result (λ coded. (page at : ℕ)
            → ecc_at (N.ecc coded.nor) page at ≡ whole_number all_ones) }
        ensures cut { IfErr result (λ refused. IsEccWipeCut (N.ecc nor) (N.ecc refused.0)) }
    {
        match wipe(&mut nor) {
            Ok(()) => Ok(Coded { nor }),
            Err(cut) => Err((nor, cut)),
        }
    }

    /// Whether a first store may be made here: no more is written than the first two words of page
    /// 0, all that a first start which was cut leaves. Data of something else read as torn, so by
    /// its words alone a store can't tell them from none.
    pub fn may_be_new(&self) -> bool
        ensures { MatchBool result (MayBeNew (N.ecc self.now.nor))
            (MayBeNew (N.ecc self.now.nor) → ⊥) }
    {
        may_be_new(&self.nor)
    }

    /// The flash, as it is.
    pub fn into_nor(self) -> N
        ensures same { N.ecc result ≡ N.ecc self.nor }
        ensures safe { IsCodedSafe (N.ecc result) }
    {
        self.nor
    }
}

impl<N: EccNor + Drop> Flash for Coded<N> {
    ghost use Rattle.ee_nor.specs.Coded.Clear.{coded_shown};
    ghost use Rattle.ee_nor.specs.Coded.Coded.{ReadsCoded, coded_device};
    ghost use Rattle.ee_nor.specs.Coded.Formed.{coded_is_formed};

    ghost device = { λ coded. coded_device (N.ecc coded.nor) };

    ghost reads = { λ coded word reading. ReadsCoded (N.ecc coded.nor).size word reading };

    ghost shown = { λ coded word reading. coded_shown (N.ecc coded.nor).size word reading };

    ghost formed = { λ coded. coded_is_formed (N.ecc coded.nor) (N.formed coded.nor) };

    fn shape(&self) -> Shape {
        self.nor.shape()
    }

    fn wear(&self, page: usize) -> u64 {
        self.nor.wear(page)
    }

    fn is_on(&self) -> bool {
        self.nor.is_on()
    }

    fn word(&self, page: usize, at: usize) -> Word {
        word_of_reading(self.nor.shape(), self.nor.read(page, at))
    }

    fn run<'a>(&'a self, page: usize, at: usize, room: &'a mut [u64]) -> &'a [u64] {
        fill_run(&self.nor, page, at, room);
        room
    }

    fn number(&self, reading: u64) -> u64 {
        word_of_reading(self.nor.shape(), Some(reading)).number()
    }

    fn in_clear(&self, reading: u64) -> u64 {
        without_check(reading)
    }

    fn program(&mut self, page: usize, at: usize, value: u64) -> Result<(), Cut> {
        let number = coded_number(self.nor.shape(), value);
        self.nor.program(page, at, number)
    }

    fn erase(&mut self, page: usize) -> Result<(), Cut> {
        self.nor.erase(page)
    }

    fn cuts(&self) -> u64 {
        self.nor.cuts()
    }

    fn cuts_left(&self) -> Option<u64> {
        self.nor.cuts_left()
    }

    fn power_on(&mut self) {
        self.nor.power_on();
    }
}
