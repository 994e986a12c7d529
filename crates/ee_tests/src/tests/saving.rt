//! How an image's file is replaced: in which order, with each call failing, with another run at
//! each call, and on a disk that is full. What a user sees of it `bench/files.py` tries: links,
//! modes, locks, what broken runs left.
use super::trail::Trail;
use crate::tests::same;
use ee_fakes::images::{CLEANED, FORMATTED, ONE_MOVE, TWO_MOVES};
use ee_program::files::SaveFault;
use std::fs;

/// The calls by which a plain file is replaced.
const REPLACING: &str =
    "find resolve open lock examine find read read create lock examine mode write sync rename";

/// The calls by which it is written in place, where none can be made beside it.
const IN_PLACE: &str = "find resolve open lock examine find read read seek write length";

/// How many calls these are.
const WAYS: [(bool, &'static str, u64); 2] = [(false, REPLACING, 15), (true, IN_PLACE, 11)];

/// What saving answers.
type Answer = Result<(), SaveFault>;

// Whether the image's file has these bytes.
fn holds(rt: &HostRuntime, bytes: &[u8]) -> bool {
    match fs::read(rt, "image") {
        Ok(found) => found.as_slice() == bytes,
        Err(_) => false,
    }
}

// Whether the image's file is given the old image.
fn is_old(rt: &HostRuntime) -> bool {
    fs::write(rt, "image", ONE_MOVE).is_ok()
}

// Whether the image is replaced by the calls that are awaited, which are so many, and by no others.
fn goes_as_awaited(rt: &HostRuntime, trail: &Trail<'_>, calls: u64) -> bool {
    is_old(rt)
        && trail.save(Some(ONE_MOVE), CLEANED) == Ok(())
        && trail.awaited.get().is_empty()
        && trail.calls.get() == calls
        && holds(rt, CLEANED)
}

#[test]
fn the_calls_in_their_order(rt: HostRuntime) {
    for (is_bare, awaited, calls) in WAYS {
        let trail = Trail::new(&rt, "image", is_bare, awaited);
        same(&rt, calls, goes_as_awaited(&rt, &trail, calls), true);
    }
}

// Whether a run over the old image is answered so, and the new one stands or the old one, as is
// answered, and nothing beside it.
fn saves(rt: &HostRuntime, trail: &Trail<'_>, wanted: Answer) -> bool {
    let stands = if wanted.is_ok() { CLEANED } else { ONE_MOVE };
    is_old(rt)
        && trail.save(Some(ONE_MOVE), CLEANED) == wanted
        && holds(rt, stands)
        && fs::metadata(rt, "image.ee-saving-0").is_err()
}

// Whether a call goes on that fails: where the path isn't resolved, and no file is made
// beside it or given a mode, the image is written in place; where there are no locks it is
// replaced all the same.
fn goes_on(is_bare: bool, call: u64) -> bool {
    match call {
        2 | 4 => true,
        9..=12 => !is_bare,
        _ => false,
    }
}

/// Each call that fails and doesn't go on keeps the old image.
#[test]
fn each_call_that_fails(rt: HostRuntime) {
    for (is_bare, awaited, calls) in WAYS {
        for call in 1..calls + 1 {
            let mut trail = Trail::new(&rt, "image", is_bare, awaited);
            trail.fails_at = call;
            let wanted = if goes_on(is_bare, call) {
                Ok(())
            } else {
                Err(SaveFault::Failed)
            };
            same(&rt, call, saves(&rt, &trail, wanted), true);
        }
    }
}

/// After so many bytes the disk is full: the old image stands.
#[test]
fn a_full_disk_leaves_the_old_image(rt: HostRuntime) {
    for (is_bare, awaited, _) in WAYS {
        for bytes in 0..CLEANED.len() {
            let trail = Trail::new(&rt, "image", is_bare, awaited);
            trail.room.set(bytes);
            let stands = saves(&rt, &trail, Err(SaveFault::Failed));
            same(&rt, bytes, stands, true);
        }
    }
}

// Whether one of the two images stands behind two runs, and the run that has the lock first is
// the one that is done.
fn is_crossed(rt: &HostRuntime, trail: &Trail<'_>, is_other_first: bool) -> bool {
    let changed = Err(SaveFault::Changed);
    let (wanted, others, stands) = if is_other_first {
        (changed, Ok(()), TWO_MOVES)
    } else {
        (Ok(()), changed, CLEANED)
    };
    is_old(rt)
        && trail.save(Some(ONE_MOVE), CLEANED) == wanted
        && trail.other.get() == Some(others)
        && holds(rt, stands)
}

/// Another run saves from the same text before a call; the fourth locks the file.
#[test]
fn another_run_before_each_call(rt: HostRuntime) {
    for (is_bare, awaited, calls) in WAYS {
        for call in 1..calls + 1 {
            let mut trail = Trail::new(&rt, "image", is_bare, awaited);
            trail.other_at = call;
            same(&rt, call, is_crossed(&rt, &trail, call <= 4), true);
        }
    }
}

// Whether saving a first image of which this call fails is answered so, and the file is there, to
// be removed, if it is done.
fn begins(rt: &HostRuntime, call: u64, wanted: Answer) -> bool {
    let mut trail = Trail::new(rt, "none", false, "");
    trail.fails_at = call;
    trail.save(None, FORMATTED) == wanted && fs::remove_file(rt, "none").is_ok() == wanted.is_ok()
}

/// A file that wasn't there isn't there after a failure.
#[test]
fn a_first_image_that_fails(rt: HostRuntime) {
    let failed = Err(SaveFault::Failed);
    for (call, wanted) in [(1, Ok(())), (2, failed), (3, failed)] {
        same(&rt, call, begins(&rt, call, wanted), true);
    }
}
