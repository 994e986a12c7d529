//! Inputs and outputs: in pieces, failing at each call, of any length, and without end.
use crate::tests::same;
use ee_fakes::images::{CERTIFICATE, FORMATTED, REPORT, SCRIPT, TWO_MOVES};
use ee_fakes::{FailingReader, FailingWriter, LastValue, Stop};
use ee_interface::script::{StreamFault, answer_reader};
use ee_shell::{
    MOST_BYTES, MOST_READS, ReadFault, ReplayFault, Stopped, read_whole, replay, replay_reader,
    write_whole,
};
use std::alloc::Global;
use std::io;
use std::io::{ErrorKind, Read};
use std::process::Abort;

/// A reader that gives so many bytes a call, but for none, and fails at one call.
fn reader<'a>(rest: &'a [u8], most: usize, fails_at: u64, failure: ErrorKind) -> FailingReader<'a> {
    FailingReader {
        rest,
        most: most.max(1),
        fails_at,
        failure,
    }
}

// Whether a reader gives this text to its end.
fn is_read(memory: Global, mut reader: FailingReader<'_>, text: &[u8]) -> Result<bool, ReadFault> {
    match read_whole(memory, &mut reader) {
        Ok(bytes) => Ok(bytes.as_slice() == text),
        Err(fault) => Err(fault),
    }
}

// Whether a script that a reader gives has the report of the two moves, and leaves their image.
fn is_replayed(memory: Global, mut reader: FailingReader<'_>) -> Result<bool, ReplayFault> {
    match replay_reader(memory, FORMATTED, &mut reader) {
        Ok(replayed) => {
            Ok(replayed.report.as_slice() == REPORT && replayed.image.as_slice() == TWO_MOVES)
        }
        Err(fault) => Err(fault),
    }
}

/// Pieces that end within a line, behind one and before one.
#[test]
fn a_script_in_short_pieces(rt: HostRuntime) {
    for most in [1usize, 2, 3, 7] {
        let reader = reader(SCRIPT, most, 0, ErrorKind::Other);
        same(&rt, most, is_replayed(rt.alloc(), reader), Ok(true));
    }
}

/// How a call fails, what is told of it, and what a replay tells: an interrupted call is made
/// again.
const FAILURES: [(
    ErrorKind,
    Result<bool, ReadFault>,
    Result<bool, ReplayFault>,
); 2] = [
    (
        ErrorKind::BrokenPipe,
        Err(ReadFault::Read),
        Err(ReplayFault::Read),
    ),
    (ErrorKind::Interrupted, Ok(true), Ok(true)),
];

/// Each byte of a text takes a call, and its end another one.
#[test]
fn each_failed_read_is_told(rt: HostRuntime) {
    for text in [SCRIPT, TWO_MOVES, CERTIFICATE] {
        for at in 0..=text.len() as u64 {
            for (failure, read, _) in FAILURES {
                let reader = reader(text, 1, at.saturating_add(1), failure);
                same(&rt, (text, at), is_read(rt.alloc(), reader, text), read);
            }
        }
    }
    for at in 0..=SCRIPT.len() as u64 {
        for (failure, _, replayed) in FAILURES {
            let reader = reader(SCRIPT, 1, at.saturating_add(1), failure);
            same(&rt, at, is_replayed(rt.alloc(), reader), replayed);
        }
    }
}

/// What is met first is told. No good line has more than 24 bytes, so the second of the last script
/// is judged before its end. That of the others has no line feed.
#[test]
fn a_bad_line_or_a_failed_read(rt: HostRuntime) {
    let unended = b"w 1 10\nw 1".as_slice();
    let too_long = b"w 1 10\n9999999999999999999999999".as_slice();
    for (script, fails_at, fault) in [
        (unended, 11, ReplayFault::Read),
        (unended, 0, ReplayFault::Script(2)),
        (too_long, 33, ReplayFault::Script(2)),
    ] {
        let reader = reader(script, 1, fails_at, ErrorKind::Other);
        same(&rt, fails_at, is_replayed(rt.alloc(), reader), Err(fault));
    }
}

// Whether a script that comes in one piece is answered within so many read calls.
fn is_answered(memory: Global, most: u32) -> Result<bool, StreamFault> {
    let mut script: &[u8] = b"w 1 10\nr 1\n";
    match answer_reader(memory, LastValue(0), &mut script, most) {
        Ok((_, report)) => Ok(report.as_slice() == b"moved\n10\n".as_slice()),
        Err(fault) => Err(fault),
    }
}

/// An end at the last read call is an end.
#[test]
fn the_most_read_calls(rt: HostRuntime) {
    for (most, wanted) in [(2, Ok(true)), (1, Err(StreamFault::Read))] {
        same(&rt, most, is_answered(rt.alloc(), most), wanted);
    }
}

// Whether a writer that takes a byte a call stops behind so many bytes of the text, as is wanted, and
// has taken these.
fn stops_behind(
    memory: Global,
    text: &[u8],
    stop: Stop,
    written: usize,
    wanted: Option<Stopped>,
) -> bool {
    let mut writer = FailingWriter {
        taken: Vec::new(memory),
        stops_at: (written as u64).saturating_add(1),
        stop,
    };
    write_whole(&mut writer, text).err() == wanted
        && Some(writer.taken.as_slice()) == text.get(..written)
}

#[test]
fn each_stopped_write_is_told(rt: HostRuntime) {
    for (way, stop) in [
        ("error", Stop::Error(ErrorKind::BrokenPipe)),
        ("interruption", Stop::Error(ErrorKind::Interrupted)),
        ("no byte", Stop::NoByte),
    ] {
        for text in [SCRIPT, TWO_MOVES, CERTIFICATE] {
            for written in 0..=text.len() {
                let wanted = (written < text.len()).then_some(Stopped { written });
                let stops = stops_behind(rt.alloc(), text, stop, written, wanted);
                same(&rt, (way, text, written), stops, true);
            }
        }
    }
}

// So many bytes, of all values.
fn bytes(rt: &impl Abort, memory: Global, count: usize) -> Vec<u8> {
    let mut bytes = Vec::new(memory);
    for number in 0..count {
        bytes.push((number % 251) as u8).expect(rt, "no room");
    }
    bytes
}

// Whether a text is written whole, a byte a call.
fn is_written_whole(memory: Global, text: &[u8]) -> bool {
    let mut writer = FailingWriter {
        taken: Vec::new(memory),
        stops_at: 0,
        stop: Stop::NoByte,
    };
    write_whole(&mut writer, text).is_ok() && writer.taken.as_slice() == text
}

/// Inputs and outputs of sizes that divide no buffer.
#[test]
fn long_texts_in_short_pieces(rt: HostRuntime) {
    let text = bytes(&rt, rt.alloc(), 100_003);
    let text = text.as_slice();
    for most in [1usize, 7, 1009, 65_537] {
        let reader = reader(text, most, 0, ErrorKind::Other);
        same(&rt, most, is_read(rt.alloc(), reader, text), Ok(true));
    }
    same(&rt, "written", is_written_whole(rt.alloc(), text), true);
}

/// A script of any length gives the same in pieces.
#[test]
fn a_long_script_in_pieces(rt: HostRuntime) {
    let script = b"w 1 100\nr 1\n"
        .as_slice()
        .repeat(rt.alloc(), 10_000)
        .expect(&rt, "no script");
    let script = script.as_slice();
    let mut reader = reader(script, 4099, 0, ErrorKind::Other);
    let pieced = replay_reader(rt.alloc(), FORMATTED, &mut reader).expect(&rt, "no replay");
    let whole = replay(rt.alloc(), FORMATTED, script).expect(&rt, "no replay");
    same(
        &rt,
        "report",
        pieced.report.as_slice(),
        whole.report.as_slice(),
    );
    same(
        &rt,
        "image",
        pieced.image.as_slice(),
        whole.image.as_slice(),
    );
}

// How many bytes an input has.
fn length_of(memory: Global, input: &mut impl Read) -> Result<usize, ReadFault> {
    match read_whole(memory, input) {
        Ok(bytes) => Ok(bytes.len()),
        Err(fault) => Err(fault),
    }
}

#[test]
fn the_longest_input_is_read(rt: HostRuntime) {
    for (length, wanted) in [
        (16_777_216, Ok(MOST_BYTES)),
        (16_777_217, Err(ReadFault::TooLong)),
    ] {
        let found = length_of(rt.alloc(), &mut io::repeat(0).take(length));
        same(&rt, length, found, wanted);
    }
}

/// A reader each of whose calls is interrupted.
#[derive(Drop)]
struct Interrupted {
    calls: u64,
}

impl Read for Interrupted {
    fn read(&mut self, _buf: &mut [u8]) -> io::Result<usize> {
        self.calls = self.calls.saturating_add(1);
        Err(io::Error::from(ErrorKind::Interrupted))
    }
}

// Moments in a compiled test, minutes in an interpreter: `rt try --test` gives up on these two
// unless it is given `--seconds`.
#[test]
fn a_reader_that_never_gives_is_left(rt: HostRuntime) {
    let mut reader = Interrupted { calls: 0 };
    same(
        &rt,
        "fault",
        length_of(rt.alloc(), &mut reader),
        Err(ReadFault::Read),
    );
    same(&rt, "calls", reader.calls, u64::from(MOST_READS));
}

#[test]
fn a_script_that_never_comes_is_left(rt: HostRuntime) {
    let mut reader = Interrupted { calls: 0 };
    let fault = replay_reader(rt.alloc(), FORMATTED, &mut reader).err();
    same(&rt, "fault", fault, Some(ReplayFault::Read));
    same(&rt, "calls", reader.calls, u64::from(MOST_READS));
}
