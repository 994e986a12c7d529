//! What a transfer copies by, where an index may be given up.
ghost use Rattle.std.specs.Prelude.{◌≡◌};
ghost use Rattle.ee_core.specs.Lookups.{slots_by};
ghost use Rattle.ee_index.specs.Cursors.{BeginsOver, GoesOverLive, is_behind};

use crate::reading::IndexCursor;
use ee_codec::Address;
use ee_core::inner::{Cursor, LiveCursor};
use ee_flash::Flash;
use ee_pages::Layout;

/// Goes over the live addresses by an index, or through the slots if it is given up.
#[derive(Drop)]
pub(crate) enum LentCursor<'a> {
    ByIndex(IndexCursor<'a>),
    BySlots(Cursor),
}

impl<'a> LentCursor<'a> {
    /// Begins before the first address. It begins where it stands, since a cursor over
    /// the slots is large.
    pub(crate) fn begin<F: Flash>(&mut self, flash: &F, layout: &Layout)
        requires { BeginsOver (slots_by layout.now (F.device flash.now)) self.old }
        ensures first { is_behind self.new ≡ 0 }
        ensures over { GoesOverLive (slots_by layout.now (F.device flash.now)) self.new }
    {
        match self {
            LentCursor::ByIndex(_) => {}
            LentCursor::BySlots(cursor) => cursor.begin(flash, layout),
        }
    }
}

impl<'a> LiveCursor for LentCursor<'a> {
    ghost use Rattle.ee_index.specs.Cursors.{GoesOverLive, is_behind};

    ghost behind = { λ cursor. is_behind cursor };

    ghost goes_over = { λ cursor slots. GoesOverLive slots cursor };

    fn next<F: Flash>(&mut self, flash: &F, layout: &Layout) -> Option<(Address, u32)> {
        match self {
            LentCursor::ByIndex(cursor) => cursor.next(flash, layout),
            LentCursor::BySlots(cursor) => cursor.next(flash, layout),
        }
    }
}
