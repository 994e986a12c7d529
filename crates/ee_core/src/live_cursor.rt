//! What a transfer copies by: a way over the live addresses, of which each store has its own.
ghost use Rattle.std.specs.Prelude.{◌≡◌, IfSome, OnSome};
ghost use Rattle.ee_codec.specs.Words.{IsAddress};
ghost use Rattle.ee_pages.specs.LiveOrder.{IsNextLive};
ghost use Rattle.ee_pages.specs.Sets.{set_of, slots_of};
ghost use Rattle.ee_core.specs.CallSteps.{map_in};

use ee_codec::Address;
use ee_flash::Flash;
use ee_pages::Layout;

/// Goes over the live addresses of a set, by rising address. A transfer copies by it, and
/// each store has its own.
pub trait LiveCursor {
    ghost use Rattle.std.specs.Prelude.{ℕ, List};
    ghost use Rattle.ee_flash.specs.declared.word.Word.{Word};

    /// The address behind which it goes on, 0 for the first of all.
    ghost behind: { Self → ℕ };

    /// It goes over the addresses to which these slots give a value.
    ghost goes_over: { Self → List Word → Type 0 };

    /// The next live address, with its value. `None` if there is none.
    fn next<F: Flash>(&mut self, flash: &F, layout: &Layout) -> Option<(Address, u32)>
        requires over { goes_over self.old (slots_of (set_of layout.now.side (F.device flash.now))) }
        ensures next { IsNextLive (map_in layout.now.side (F.device flash.now)) (behind self.old)
            result }
        ensures proper { IfSome result (λ found. IsAddress found.0) }
        ensures moved { IfSome result (λ found. behind self.new ≡ found.0) }
        ensures over { OnSome result
            (goes_over self.new (slots_of (set_of layout.now.side (F.device flash.now)))) };
}
