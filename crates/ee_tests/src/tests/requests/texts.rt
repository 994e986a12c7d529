//! Devices and dumps, Intel HEX, scripts, and what is put behind other bytes.
use super::commands::{BASE, DUMP, gives};
use crate::tests::{device, shape};
use ee_check::{Certificate, read_certificate, write_certificate};
use ee_fakes::LastValue;
use ee_fakes::images::{CERTIFICATE, FORMATTED, TWO_MOVES};
use ee_flash::{MemFlash, Shape};
use ee_image::{read_image, write_image};
use ee_interface::script::{
    Answer, ScriptFault, Session, StreamFault, answer_reader, answer_script, push_answer,
};
use ee_interface::{Fault, File, ReplayFault};
use ee_shell::dumps::intel_hex::{HexFault, read_hex, write_hex};
use ee_shell::dumps::{DumpFault, Form, WriteFault, read_dump, write_dump};
use ee_text::{push_number, push_number_behind};
use std::alloc::{AllocError, Allocator, Global};
use std::process::Abort;

/// What makes a device.
#[derive(Clone, Copy)]
pub enum Device {
    Blank,
    Image,
    Dump,
}

/// No word is written.
pub const BLANK: &[u8] = b"ee 1 6\n0 - - - - - -\n0 - - - - - -\n";

fn device_of<A: Allocator + Copy>(
    what: Device,
    alloc: A,
    shape: Shape,
) -> Result<MemFlash<A>, ReplayFault> {
    match what {
        Device::Blank => Ok(MemFlash::blank(alloc, shape)?),
        Device::Image => Ok(read_image(alloc, TWO_MOVES)?),
        Device::Dump => match read_dump(alloc, shape, Form::Words, DUMP) {
            Ok(flash) => Ok(flash),
            Err(DumpFault::Memory) => Err(ReplayFault::Memory),
            Err(_) => Err(ReplayFault::Read),
        },
    }
}

/// Whether the device has this image.
pub fn device_made<A: Allocator + Copy>(
    what: Device,
    alloc: A,
    rt: &impl Abort,
    memory: Global,
    image: &[u8],
) -> Option<bool> {
    let mut text = Vec::new(memory);
    match device_of(what, alloc, shape(rt, 1, 6)) {
        Ok(flash) => Some(write_image(&flash, &mut text).is_ok() && text.as_slice() == image),
        Err(ReplayFault::Memory) => None,
        Err(_) => Some(false),
    }
}

/// What gives bytes.
#[derive(Clone, Copy)]
pub enum Bytes {
    Dump,
    FromHex,
    Hex,
    Script,
    Pieces,
    Reader,
}

/// The first words of a part, as bytes and as Intel HEX.
pub const FIRST: &[u8; 16] = b"\x01\x00\x00\x00\xaa\xaa\xaa\xaa\xaa\xaa\xaa\xaa\xaa\xaa\xaa\xaa";

pub const FIRST_HEX: &[u8] = b":020000040807EB
:10F0000001000000AAAAAAAAAAAAAAAAAAAAAAAA07
:00000001FF
";

/// What keeps the value that was written last answers to a write and a read.
pub const ANSWERS: &[u8] = b"moved\n10\n";

// These in two pieces.
fn in_pieces<A: Allocator + Copy>(alloc: A) -> Result<Vec<u8, A>, ScriptFault> {
    let session = Session::new(alloc, LastValue(0)).feed(b"w 1 10\nr")?;
    let (_, report) = session.feed(b" 2\n")?.finish()?;
    Ok(report)
}

// What is given as bytes. A fault that the call can't meet here is told as any that
// is no want of memory.
fn bytes_of<A: Allocator + Copy>(
    what: Bytes,
    alloc: A,
    flash: &MemFlash,
) -> Result<Vec<u8, A>, Fault> {
    let mut script = b"w 1 10\nr 2\n".as_slice();
    match what {
        Bytes::Dump => match write_dump(alloc, Form::Words, flash) {
            Ok(dump) => Ok(dump),
            Err(WriteFault::Memory) => Err(Fault::Memory),
            Err(_) => Err(Fault::DumpLength),
        },
        Bytes::FromHex => match read_hex(alloc, FIRST_HEX, BASE, 16) {
            Ok(bytes) => Ok(bytes),
            Err(HexFault::Memory) => Err(Fault::Memory),
            Err(_) => Err(Fault::Base),
        },
        Bytes::Hex => Ok(write_hex(alloc, BASE, FIRST)?),
        Bytes::Script => Ok(answer_script(alloc, LastValue(0), script)?.1),
        Bytes::Pieces => Ok(in_pieces(alloc)?),
        Bytes::Reader => match answer_reader(alloc, LastValue(0), &mut script, 2) {
            Ok((_, report)) => Ok(report),
            Err(StreamFault::Script(fault)) => Err(Fault::from(fault)),
            Err(StreamFault::Read) => Err(Fault::CannotRead(File::Script)),
        },
    }
}

/// Whether they are these.
pub fn bytes_given<A: Allocator + Copy>(
    what: Bytes,
    alloc: A,
    rt: &impl Abort,
    memory: Global,
    wanted: &[u8],
) -> Option<bool> {
    gives(
        bytes_of(what, alloc, &device(rt, memory, FORMATTED)),
        wanted,
    )
}

/// What is put behind other bytes.
#[derive(Clone, Copy)]
pub enum Pushed {
    Number,
    NumberBehind,
    Answer,
    Image,
    Certificate,
}

/// What stands before it.
const FRONT: &[u8] = b"end\n";

/// The image after two moves behind that, and their certificate.
pub const END_AND_IMAGE: &[u8] = b"end
ee 1 6
1 aaaaaaaa00000003 aaaaaaaaaaaaaaaa - - 0000000d00000001 0000000500000002
0 aaaaaaaa00000002 aaaaaaaaaaaaaaaa - aaaaaaaaaaaaaaaa 0000000c00000001 0000000500000002
";

pub const END_AND_CERTIFICATE: &[u8] = b"end
slots 2 fill 0 live 0 writes 5
to 3 from 0
to 5 from 1
transfers 2
";

// Puts it behind what there is.
fn push<A: Allocator + Copy>(
    what: Pushed,
    out: &mut Vec<u8, A>,
    flash: &MemFlash,
    certificate: &Certificate,
) -> Result<(), AllocError> {
    match what {
        Pushed::Number => push_number(out, u64::MAX),
        Pushed::NumberBehind => push_number_behind(out, b"to ", u64::MAX),
        Pushed::Answer => push_answer(out, Answer::Value(u32::MAX)),
        Pushed::Image => write_image(flash, out),
        Pushed::Certificate => write_certificate(certificate, out),
    }
}

// What may stand there after a want of memory: a number with a word before it, and an answer,
// may be there in part.
fn stays(what: Pushed, out: &[u8], wanted: &[u8]) -> bool {
    match what {
        Pushed::NumberBehind | Pushed::Answer => out.starts_with(FRONT) && wanted.starts_with(out),
        _ => out == FRONT,
    }
}

/// Whether it stands behind them, which stay as they were.
pub fn is_pushed<A: Allocator + Copy>(
    what: Pushed,
    alloc: A,
    rt: &impl Abort,
    memory: Global,
    wanted: &[u8],
) -> Option<bool> {
    let flash = device(rt, memory, TWO_MOVES);
    let certificate = read_certificate(memory, CERTIFICATE).expect(rt, "no certificate");
    let mut out = Vec::from_slice(alloc, FRONT).ok()?;
    match push(what, &mut out, &flash, &certificate) {
        Ok(()) => Some(out.as_slice() == wanted),
        Err(_) if stays(what, out.as_slice(), wanted) => None,
        Err(_) => Some(false),
    }
}
