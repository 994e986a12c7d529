//! Worked scripts over pairs of plain numbers, whole and with power cut in each step, bit by bit.
use crate::tests::{address, device, formatted, opened, same, shape, text_of};
use ee_fakes::images::{CLEANED, TIDIED};
use ee_fakes::{ListNor, NumberFate};
use ee_flash::{Flash, MemFlash, Shape};
use ee_store::{Answer, ForgetFault, Pairs, Variables, WriteFault};
use std::alloc::Global;
use std::process::Abort;

/// A line of a script.
#[derive(Clone, Copy)]
enum Line {
    Write(u16, u32),
    Forget(u16),
    Read(u16),
    Clean,
}

/// A script, the pages and words that it is for, and what it leaves of a device that was formatted.
#[derive(Drop)]
struct Script {
    pages: usize,
    words: usize,
    lines: &'static [Line],
    image: &'static [u8],
    /// What its last two lines read.
    values: [Answer; 2],
}

/// Two moves and a forgetting.
const TIDY: Script = Script {
    pages: 1,
    words: 6,
    lines: &[
        Line::Write(1, 10),
        Line::Write(1, 11),
        Line::Write(1, 12),
        Line::Write(2, 5),
        Line::Write(1, 13),
        Line::Forget(2),
        Line::Read(1),
        Line::Read(2),
    ],
    image: TIDIED,
    values: [Answer::Value(Some(13)), Answer::Value(None)],
};

/// One move, cleaned.
const CLEAN: Script = Script {
    pages: 1,
    words: 6,
    lines: &[
        Line::Write(1, 10),
        Line::Write(1, 11),
        Line::Write(1, 12),
        Line::Clean,
        Line::Read(1),
        Line::Read(2),
    ],
    image: CLEANED,
    values: [Answer::Value(Some(12)), Answer::Value(None)],
};

/// A move over two pages.
const NINE_STEPS: Script = Script {
    pages: 2,
    words: 5,
    lines: &[
        Line::Write(1, 1),
        Line::Write(2, 2),
        Line::Write(1, 3),
        Line::Read(1),
        Line::Read(2),
    ],
    image: b"ee 2 5
0 aaaaaaaa00000001 aaaaaaaaaaaaaaaa aaaaaaaaaaaaaaaa aaaaaaaaaaaaaaaa 0000000100000001
0 - aaaaaaaaaaaaaaaa - aaaaaaaaaaaaaaaa 0000000200000002
0 aaaaaaaa00000002 aaaaaaaaaaaaaaaa aaaaaaaaaaaaaaaa - 0000000300000001
0 aaaaaaaa00000002 aaaaaaaaaaaaaaaa - - 0000000200000002
",
    values: [Answer::Value(Some(3)), Answer::Value(Some(2))],
};

// What the store answers to a line.
fn answer<V: Variables>(rt: &impl Abort, store: &mut V, line: Line) -> Answer {
    match line {
        Line::Write(number, value) => match store.write(address(rt, number), value) {
            Ok(written) => Answer::Done(written),
            Err(fault) => Answer::Refused(fault),
        },
        Line::Forget(number) => match store.forget(address(rt, number)) {
            Ok(written) => Answer::Done(written),
            Err(fault) => Answer::NotForgotten(fault),
        },
        Line::Read(number) => match store.read(address(rt, number)) {
            Ok(value) => Answer::Value(value),
            Err(_) => Answer::Off,
        },
        Line::Clean => match store.clean_step() {
            Ok(erased) => Answer::Cleaned(erased),
            Err(fault) => Answer::Refused(fault),
        },
    }
}

/// What a script left: the device, its image, and the answers.
#[derive(Drop)]
struct Outcome<F: Flash + Drop> {
    flash: F,
    image: Vec<u8>,
    log: Vec<Answer>,
}

// The store is opened, and answers these lines.
fn answered<F: Flash + Drop>(
    rt: &impl Abort,
    memory: Global,
    flash: F,
    lines: &[Line],
) -> Outcome<F> {
    let mut log = Vec::new(memory);
    let mut store = opened(rt, flash);
    for line in lines {
        log.push(answer(rt, &mut store, *line))
            .expect(rt, "no room");
    }
    let flash = store.into_flash();
    let image = text_of(rt, memory, &flash);
    Outcome { flash, image, log }
}

// A device with an empty store.
fn emptied<F: Flash + Drop>(rt: &impl Abort, flash: F) -> F {
    formatted(rt, flash).into_flash()
}

// A flash of numbers as a device of words, whose steps to come meet these fates.
fn paired<'a>(
    rt: &impl Abort,
    mut numbers: ListNor<'a>,
    fates: &'a [NumberFate<'a>],
) -> Pairs<ListNor<'a>> {
    numbers.set_fates(fates);
    Pairs::of(numbers).ok().expect(rt, "a low pair")
}

fn new_numbers<'a>(rt: &impl Abort, memory: Global, shape: Shape) -> Pairs<ListNor<'a>> {
    let numbers = ListNor::blank(memory, shape, &[]).expect(rt, "no device");
    emptied(rt, paired(rt, numbers, &[]))
}

fn new_words(rt: &impl Abort, memory: Global, shape: Shape) -> MemFlash {
    emptied(rt, MemFlash::blank(memory, shape).expect(rt, "no device"))
}

/// What a script left of pairs of numbers, and whether it did so of words.
#[derive(Drop)]
struct Compared<F: Flash + Drop> {
    numbers: Outcome<F>,
    /// One image is left behind the same answers, whose last two are the worked values.
    are_alike: bool,
}

// Runs these lines of a script over both.
fn run_over_both<F: Flash + Drop, G: Flash + Drop>(
    rt: &impl Abort,
    memory: Global,
    numbers: F,
    words: G,
    lines: &[Line],
    values: &[Answer; 2],
) -> Compared<F> {
    let numbers = answered(rt, memory, numbers, lines);
    let words = answered(rt, memory, words, lines);
    let log = words.log.as_slice();
    let are_alike = numbers.log.as_slice() == log
        && log.ends_with(values.as_slice())
        && numbers.image.as_slice() == words.image.as_slice();
    Compared { numbers, are_alike }
}

// Runs a script whole, over both, which leaves the worked image. Gives how many steps
// of numbers it takes.
fn run_whole(rt: &impl Abort, memory: Global, script: &Script) -> usize {
    let shape = shape(rt, script.pages, script.words);
    let numbers = new_numbers(rt, memory, shape).into_nor();
    let before = numbers.steps();
    let numbers = paired(rt, numbers, &[]);
    let words = new_words(rt, memory, shape);
    let whole = run_over_both(rt, memory, numbers, words, script.lines, &script.values);
    same(rt, "whole", whole.are_alike, true);
    same(rt, "image", whole.numbers.image.as_slice(), script.image);
    let steps = whole.numbers.flash.into_nor().steps();
    steps.saturating_sub(before) as usize
}

/// The most steps that a script takes.
const MOST: usize = 96;

/// Which bits of a number that is cut on its way are ones, a number each.
const MASKS: [u64; 24] = [
    0,
    u64::MAX,
    0x5555_5555_5555_5555,
    0xaaaa_aaaa_aaaa_aaaa,
    1,
    0x8000_0000_0000_0000,
    0x0000_0000_ffff_ffff,
    0xffff_ffff_0000_0000,
    0x00ff_00ff_00ff_00ff,
    0xffff_ffff_ffff_fffe,
    0x7fff_ffff_ffff_ffff,
    0x0000_0000_0001_0000,
    0x0123_4567_89ab_cdef,
    0,
    0x0000_ffff_0000_0000,
    u64::MAX,
    0xfedc_ba98_7654_3210,
    0,
    0x0000_0000_0000_ffff,
    u64::MAX,
    0x0f0f_0f0f_0f0f_0f0f,
    0x3333_3333_3333_3333,
    0,
    u64::MAX,
];

// The line in which power was cut, by its number from 0.
fn line_of_cut(log: &[Answer]) -> usize {
    for (at, answer) in log.iter().enumerate() {
        match *answer {
            Answer::Refused(WriteFault::Cut) | Answer::NotForgotten(ForgetFault::Cut) => return at,
            _ => {}
        }
    }
    usize::MAX
}

// Whether a script of which this step is cut goes on from the line that was cut as over a device of
// words with the image that the cut left, and ends with the worked values.
fn goes_on(rt: &impl Abort, memory: Global, script: &Script, fates: &[NumberFate<'_>]) -> bool {
    let shape = shape(rt, script.pages, script.words);
    let numbers = paired(rt, new_numbers(rt, memory, shape).into_nor(), fates);
    let cut = answered(rt, memory, numbers, script.lines);
    let rest = script
        .lines
        .get(line_of_cut(cut.log.as_slice())..)
        .expect(rt, "no cut");
    let words = device(rt, memory, cut.image.as_slice());
    let numbers = paired(rt, cut.flash.into_nor(), &[]);
    run_over_both(rt, memory, numbers, words, rest, &script.values).are_alike
}

// Cuts each step of a script in each way.
fn cut_each(rt: &impl Abort, memory: Global, script: &Script) {
    let steps = run_whole(rt, memory, script);
    same(rt, steps, 0 < steps && steps <= MOST, true);
    for way in 0..12 {
        let mut fates = [NumberFate::Done; MOST];
        fates[MOST - 1] = NumberFate::Cut(&MASKS[way..]);
        for behind in fates.len().saturating_sub(steps)..MOST {
            let goes_on = goes_on(rt, memory, script, &fates[behind..]);
            same(rt, (way, behind), goes_on, true);
        }
    }
}

#[test]
fn worked_scripts_over_pairs(rt: HostRuntime) {
    for script in &[TIDY, CLEAN, NINE_STEPS] {
        cut_each(&rt, rt.alloc(), script);
    }
}
