//! The fields of a line, which single spaces separate.
ghost use Rattle.std.specs.Prelude.{◌≡◌, ◌++◌, ◌∷◌, ℕ, List, IfSome, IfNone};
ghost use Rattle.std.specs.Iterator.{YieldsFirstRef, item_count};
ghost use Rattle.std.specs.List.{AllByRecursion};
ghost use Rattle.ee_text.specs.Field.{IsField, joined_fields, space};

use crate::cuts::cut_at_first;

/// The first field of `rest`, and what stands after its space: None where the field is all of
/// `rest`.
pub fn next_field(rest: &[u8]) -> (&[u8], Option<&[u8]>)
    ensures field { IsField result.0.now }
    ensures last { IfNone result.1 (rest.now ≡ result.0.now) }
    ensures more { IfSome result.1 (λ tail. rest.now ≡ result.0.now ++ space ∷ tail.now) }
{
    match cut_at_first(rest, b' ') {
        Some((field, tail)) => (field, Some(tail)),
        None => (rest, None),
    }
}

/// Gives the fields of a line, from the first on.
#[derive(Drop)]
pub struct Fields<'a> {
    /// What isn't given yet; none once the last field is.
    rest: Option<&'a [u8]>,
}

impl<'a> Fields<'a> {
    ghost use Rattle.ee_text.specs.Fields.{fields_left};

    /// The fields of the line, of which there is at least one.
    #[tactic(auto, using(crate::proofs::Parting::parting))]
    pub fn of(line: &'a [u8]) -> Fields<'a>
        ensures found { line.now ≡ joined_fields (fields_left result) }
        ensures each { AllByRecursion IsField (fields_left result) }
        ensures only { (first : List ℕ) (others : List (List ℕ))
            → AllByRecursion IsField (first ∷ others) →
            line.now ≡ joined_fields (first ∷ others) → fields_left result ≡ first ∷ others }
    {
        Fields { rest: Some(line) }
    }
}

impl<'a> Iterator for Fields<'a> {
    ghost use Rattle.ee_text.specs.Fields.{fields_left};

    type Item = &'a [u8];

    ghost next_gives = { YieldsFirstRef fields_left };

    ghost remaining = { item_count fields_left };

    #[tactic(auto, using(crate::proofs::Parting::parting))]
    fn next(&mut self) -> Option<&'a [u8]> {
        let (field, rest) = next_field(self.rest?);
        self.rest = rest;
        Some(field)
    }
}
