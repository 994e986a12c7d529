//! A text cut at the first place of a byte.
ghost use Rattle.std.specs.Prelude.{◌≡◌, ◌==◌, ◌++◌, ◌∷◌, IfSome, IfNone, position};
ghost use Rattle.ee_text.specs.Field.{Lacks};

/// What stands before the first `mark`, and what stands after it.
#[tactic(auto, using(crate::proofs::FirstPlace::parts, crate::proofs::FirstPlace::before_lacks, crate::proofs::FirstPlace::lacks))]
pub(crate) fn cut_at_first(bytes: &[u8], mark: u8) -> Option<(&[u8], &[u8])>
    ensures parts { IfSome result (λ parts. bytes.now ≡ parts.0.now ++ mark ∷ parts.1.now) }
    ensures first { IfSome result (λ parts. Lacks mark parts.0.now) }
    ensures none { IfNone result (Lacks mark bytes.now) }
{
    let at = place_of(bytes, mark)?;
    Some((&bytes[..at], &bytes[at + 1..]))
}

/// The first place of `mark`.
fn place_of(bytes: &[u8], mark: u8) -> Option<usize>
    ensures { result ≡ position (λ byte. byte == mark) bytes.now }
{
    bytes.iter().position(|byte| *byte == mark)
}
