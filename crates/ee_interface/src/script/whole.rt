//! A script answered to its end, given as one text or by a reader.
ghost use Rattle.std.specs.Prelude.{◌≡◌, ◌⊎◌, ℕ, List, IfOk, IfErr, MatchResult, Some};
ghost use Rattle.ee_interface.specs.Script.Script.{IsFirstBadCommandLine};
ghost use Rattle.ee_interface.specs.Script.Whole.{IsAnswered, IsScriptFault};
ghost use Rattle.ee_interface.specs.Script.Reading.{IsStreamAnswered, IsStreamFault};

use super::session::{ScriptFault, Serve, Session, StreamFault};
use std::alloc::Allocator;
use std::io::Read;

/// Answers a whole script, and gives what served it and the report.
///
/// # Errors
///
/// The number of the first bad line; want of memory can come in place of any answer.
pub fn answer_script<S: Serve + Drop, A: Allocator>(
    alloc: A,
    server: S,
    script: &[u8],
) -> Result<(S, Vec<u8, A>), ScriptFault>
    ensures answered { IfOk result
        (λ done. IsAnswered S.serves server script.now done.0 done.1.items) }
    ensures fault { IfErr result (IsScriptFault script.now) }
    // A bad line is never passed over.
    ensures bad { (n : ℕ) → IsFirstBadCommandLine script.now n
        → MatchResult result (λ _. ⊥)
        (λ fault. (fault ≡ ScriptFault.BadLine n) ⊎ (fault ≡ ScriptFault.Memory)) }
{
    Session::new(alloc, server).feed(script)?.finish()
}

/// Answers the script that a reader gives, and gives what served it and the report. What one read
/// call gives is judged before the next, and a read that was interrupted is tried again. Of the
/// script no more is kept than one unfinished line.
///
/// # Errors
///
/// What is met first: `Read` where a read fails, at the latest after `most` calls; the number of
/// the first bad line; want of memory can come in place of any answer.
pub fn answer_reader<S: Serve + Drop, A: Allocator, R: Read>(
    alloc: A,
    server: S,
    reader: &mut R,
    most: u32,
) -> Result<(S, Vec<u8, A>), StreamFault>
    ensures answered { IfOk result (λ done. IsStreamAnswered S.serves server
        (R.remaining reader.old) (R.remaining reader.new) done.0 done.1.items) }
    ensures fault { IfErr result
        (IsStreamFault (R.remaining reader.old) (R.remaining reader.new)) }
    // A bad line is never passed over.
    ensures bad { (script : List ℕ) (n : ℕ) → R.remaining reader.old ≡ Some script
        → IsFirstBadCommandLine script n → MatchResult result (λ _. ⊥)
        (λ fault. (fault ≡ StreamFault.Script (ScriptFault.BadLine n))
        ⊎ (fault ≡ StreamFault.Script ScriptFault.Memory) ⊎ (fault ≡ StreamFault.Read)) }
{
    let session = Session::new(alloc, server).feed_all(reader, most)?;
    let done = session.finish()?;
    Ok(done)
}
