//! The name of a variable: any number of 16 bits but the least and the greatest.
ghost use Rattle.std.specs.Prelude.{◌≡◌, ◌↔◌, IsSome, IfSome};
ghost use Rattle.ee_codec.specs.Words.{IsAddress};

use std::marker::Model;

/// The name of a variable: a number of 1 to 65534. Addresses are ordered by number.
#[derive(Clone, Copy, Debug, PartialEq, Eq, PartialOrd, Ord, Hash)]
pub struct Address {
    number: u16,
}

impl Model for Address {
    ghost use Rattle.std.specs.Prelude.{ℕ};

    ghost Value = { ℕ };

    ghost use Rattle.ee_codec.specs.Words.{IsAddress};

    ghost view = { λ a. a.number };

    ghost invariant = { λ a. IsAddress a.number };

    ghost inverse = { λ n. record { number = n } };
}

impl Address {
    /// The address of this number, or `None` if it is 0 or 65535.
    pub const fn new(number: u16) -> Option<Address>
        ensures proper { IsSome result ↔ IsAddress number }
        ensures number { IfSome result (λ address. address ≡ number) }
    {
        if number == 0 || number == u16::MAX {
            return None;
        }
        Some(Address { number })
    }

    /// The number, which is 1 to 65534.
    pub fn get(self) -> u16
        ensures number { result ≡ self }
        ensures proper { IsAddress result }
    {
        self.number
    }
}

impl Default for Address {
    ghost use Rattle.std.specs.Prelude.{◌≡◌};

    ghost is_default = { λ address. address ≡ 1 };

    /// The least address, 1.
    fn default() -> Address {
        Address { number: 1 }
    }
}
