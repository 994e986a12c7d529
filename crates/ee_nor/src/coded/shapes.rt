//! The store that a flash holds, where it is none of coded words of the device's shape.
ghost use Rattle.std.specs.Prelude.{◌≡◌, ◌≢◌, ◌<◌, IfNone, IfSome};
ghost use Rattle.ee_flash.specs.Size.{Size, size_of};
ghost use Rattle.ee_nor.specs.Coded.Coded.{mark_value as mark_value_of};
ghost use Rattle.ee_nor.specs.Coded.Shapes.{HoldsNoOther, HoldsOther, IsMarkOf, size_named};

use crate::coded::code::low_half;
use crate::coded::ecc_nor::EccNor;
use crate::coded::words::{MARK, mark_value};
use ee_flash::Shape;

/// The shape of the store that a flash holds, where that is none of coded words of the device's
/// shape. Both are 0 of a store of plain words, whose mark says no shape.
///
/// Source: ours.
#[derive(Clone, Copy, Debug, PartialEq, Eq)]
pub struct OtherShape {
    /// The pages of each set, 1 to 64.
    pub pages: usize,
    /// The words of a page, 5 to 512.
    pub words: usize,
}

/// The other shape of the store that a flash holds.
pub(crate) fn other_shape<N: EccNor>(nor: &N) -> Option<OtherShape>
    ensures found { IfSome result (λ other.
        HoldsOther (N.ecc nor.now) (size_of other.pages other.words)) }
    ensures none { IfNone result (HoldsNoOther (N.ecc nor.now)) }
{
    let held = value_held(nor);
    if held == mark_value(nor.shape()) {
        return None;
    }
    Some(OtherShape {
        pages: (held >> 16) as usize,
        words: (held & 0xffff) as usize,
    })
}

/// The value of the mark of the other store that a flash holds, 0 of one of plain words, whose mark
/// has none; the value of the device's own where it holds no other.
fn value_held<N: EccNor>(nor: &N) -> u32
    ensures other { result ≢ mark_value_of (N.ecc nor.now).size
        → HoldsOther (N.ecc nor.now) (size_named result) }
    ensures none { result ≡ mark_value_of (N.ecc nor.now).size → HoldsNoOther (N.ecc nor.now) }
{
    let own = mark_value(nor.shape());
    let first = nor.read(0, 1).unwrap_or(0);
    let second = nor.read(nor.shape().pages(), 1).unwrap_or(0);
    let named = value_named(first);
    let named_second = value_named(second);
    if named > 0 && named != own {
        return named;
    }
    if named_second > 0 {
        return named_second;
    }
    // Of each coded mark three ones or more are no ones of the plain one: no cut of one makes it.
    if named == 0 && (first == MARK || second == MARK) {
        0
    } else {
        own
    }
}

/// The value of the mark that a number of the flash is, 0 where it is none.
fn value_named(number: u64) -> u32
    ensures found { 0 < result → IsMarkOf number (size_named result) }
    ensures none { result ≡ 0 → (size : Size) → IsMarkOf number size → ⊥ }
{
    match shape_of_mark(number) {
        Some(shape) => mark_value(shape),
        None => 0,
    }
}

/// The shape whose mark a number of the flash is.
///
/// Source: ours.
pub fn shape_of_mark(number: u64) -> Option<Shape>
    ensures found { IfSome result (IsMarkOf number) }
    ensures none { IfNone result ((size : Size) → IsMarkOf number size → ⊥) }
{
    let value = (number >> 32) as u32;
    if u64::from(low_half(0x1_0000, value)) != number & 0xffff_ffff {
        return None;
    }
    Shape::new((value >> 16) as usize, (value & 0xffff) as usize)
}
