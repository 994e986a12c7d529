//! Each proper prefix of a text: the line that it breaks off in is bad, and a script alone may end
//! with any of its lines.
use crate::tests::same;
use ee_check::{TextFault, read_certificate};
use ee_fakes::images::{CERTIFICATE, FORMATTED, SCRIPT, TWO_MOVES};
use ee_image::{ImageFault, read_image};
use ee_shell::{ReplayFault, replay};
use std::alloc::Global;

/// What a text is.
#[derive(Clone, Copy, Debug)]
enum Kind {
    Image,
    Certificate,
    Script,
}

// The bad line of a text, or none of one that is good. Another fault is line 0.
fn bad_line(memory: Global, kind: Kind, text: &[u8]) -> Option<u64> {
    match kind {
        Kind::Image => match read_image(memory, text) {
            Ok(_) => None,
            Err(ImageFault::BadLine(line)) => Some(line),
            Err(_) => Some(0),
        },
        Kind::Certificate => match read_certificate(memory, text) {
            Ok(_) => None,
            Err(TextFault::BadText(line)) => Some(line),
            Err(TextFault::Memory) => Some(0),
        },
        Kind::Script => match replay(memory, FORMATTED, text) {
            Ok(_) => None,
            Err(ReplayFault::Script(line)) => Some(line),
            Err(_) => Some(0),
        },
    }
}

// The number of the line that a text breaks off in, and whether it breaks off behind
// the line before it.
fn last_line(text: &[u8]) -> (u64, bool) {
    let mut line = 1u64;
    let mut is_whole = true;
    for byte in text {
        is_whole = *byte == b'\n';
        if is_whole {
            line = line.saturating_add(1);
        }
    }
    (line, is_whole)
}

#[test]
fn each_proper_prefix(rt: HostRuntime) {
    for (kind, text) in [
        (Kind::Image, TWO_MOVES),
        (Kind::Certificate, CERTIFICATE),
        (Kind::Script, SCRIPT),
    ] {
        for length in 0..text.len() {
            let front = &text[..length];
            let (line, is_whole) = last_line(front);
            let is_good = matches!(kind, Kind::Script) && is_whole;
            let wanted = if is_good { None } else { Some(line) };
            same(
                &rt,
                (kind, length),
                bad_line(rt.alloc(), kind, front),
                wanted,
            );
        }
    }
}
