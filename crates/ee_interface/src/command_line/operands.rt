//! What the words behind a command are to be, and the first that isn't so: of the command line, and
//! of a line of a script.
ghost use Rattle.std.specs.Prelude.{◌≡◌, ◌<◌, ◌≤◌, ◌+◌, ◌∷◌, [], ◌↔◌, IsTrue, IfSome, IfNone, length};
ghost use Rattle.std.specs.List.{list_all};
ghost use Rattle.ee_interface.specs.CommandLine.Job.{texts_of};
ghost use Rattle.ee_interface.specs.CommandLine.Operands.{AreBehindFlag, AreLineOperandsOf, AreOperandsOf, AreOtherOperandsOf, IsCommandName, IsFirstWrong, IsFlagOf, IsFormFlag, IsLetter, IsLineCause, IsNumberIn, IsOtherName, IsSpelling, IsTear, IsWordsCause, are_digits, is_decimal_digit, is_zero_led, least_number, most_number, number_fault, word_fault};
ghost use Rattle.ee_interface.specs.declared.command_line.operands.Operand.TheVariants.{Image, Settings, Before};

use super::words::base_of;
use ee_text::number_up_to;

/// What a word behind a command is.
///
/// Source: ours.
#[derive(Clone, Copy, Debug, PartialEq, Eq)]
pub enum Operand {
    /// The pages of a set: 1 to 64.
    Pages,
    /// The words of a page: 5 to 512.
    PageWords,
    /// Where the part's first byte is: eight hexadecimal digits, a multiple of 8.
    Base,
    /// A value: 0 to 4294967295.
    Value,
    /// How many erases a page bears: 1 to 4294967295.
    Cycles,
    /// How often a script is made: 1 to 4294967295.
    Runs,
    /// The path of an image.
    Image,
    /// The path of an image that was before it.
    Before,
    /// The path of a dump.
    Dump,
    /// The path of a script.
    Script,
    /// The path of a certificate.
    Certificate,
    /// The path of settings.
    Settings,
    /// The name of a setting.
    Name,
    /// The path of values.
    Values,
    /// In a script, an address: 1 to 65534.
    Address,
    /// In a script, a value: 0 to 4294967295.
    Stored,
    /// In a script, which further step is cut: from 1 on, in 64 bits.
    Step,
    /// In a script, what the cut step leaves: `n`, `d`, `t` or `m`.
    Tear,
}

/// Why a word isn't what it is to be.
///
/// Source: ours.
#[derive(Clone, Copy, Debug, PartialEq, Eq)]
pub enum WordFault {
    /// It is digits, with a zero in front of others.
    ZeroInFront,
    /// It is a number, and out of the range.
    OutOfRange,
    /// It isn't digits alone.
    NoNumber,
    /// It isn't eight hexadecimal digits, or no multiple of 8.
    NoBase,
    /// It is none of the four letters.
    NoTear,
}

/// Why words are no command line, or none of a script.
///
/// Source: ours.
#[derive(Clone, Copy, Debug, PartialEq, Eq)]
pub enum WordsCause {
    /// The first of them is the name of no command that takes words, or of none of a script.
    NoCommand,
    /// The words end before this one.
    Missing(Operand),
    /// So many words stand before the first that is one too many.
    Surplus {
        before: u8,
    },
    /// So many words stand before the first that isn't what it is to be.
    Wrong {
        before: u8,
        operand: Operand,
        fault: WordFault,
    },
    /// Each word by itself is as it is to be.
    NoRow,
}

/// Why words are no command line: the first cause that applies.
///
/// Source: ours.
pub fn why_no_job(words: &[&str]) -> WordsCause
    ensures { IsWordsCause (texts_of words.now) result }
{
    let Some((name, others)) = words.split_first() else {
        return WordsCause::NoCommand;
    };
    let (before, others) = behind_flag(name, others);
    match operands_of(name, others.len()) {
        Some(operands) => first_wrong(operands, others, before),
        None => WordsCause::NoCommand,
    }
}

/// Why the words of a line are none of a script's commands: the first cause that applies.
///
/// Source: ours.
pub fn why_no_line(words: &[&str]) -> WordsCause
    ensures { IsLineCause (texts_of words.now) result }
{
    let Some((letter, others)) = words.split_first() else {
        return WordsCause::NoCommand;
    };
    match operands_of_line(letter) {
        Some(operands) => first_wrong(operands, others, 1),
        None => WordsCause::NoCommand,
    }
}

/// The first of the words behind a command that isn't what it is to be.
fn first_wrong(operands: &[Operand], words: &[&str], before: u8) -> WordsCause
    requires { before + length operands.now ≤ 8 }
    ensures { IsFirstWrong operands.now (texts_of words.now) before result }
{
    let Some((operand, operands)) = operands.split_first() else {
        return match words.split_first() {
            None => WordsCause::NoRow,
            Some(_) => WordsCause::Surplus { before },
        };
    };
    let Some((word, words)) = words.split_first() else {
        return WordsCause::Missing(*operand);
    };
    if is_spelling(*operand, word) {
        return first_wrong(operands, words, before + 1);
    }
    WordsCause::Wrong {
        before,
        operand: *operand,
        fault: fault_of(*operand, word),
    }
}

/// What the words behind a command and its flag are to be, of which there are so many. None where
/// no command has this name. The last of `list` and of `wear` may be left out.
#[tactic(auto, unfolding(crate::specs::CommandLine::Operands::IsCommandName, crate::specs::CommandLine::Operands::AreOperandsOf))]
fn operands_of(name: &str, count: usize) -> Option<&'static [Operand]>
    ensures found { IfSome result (λ operands. AreOperandsOf name.now count operands.now) }
    ensures short { IfSome result (λ operands. length operands.now ≤ 5) }
    ensures none { IfNone result (IsCommandName name.now → ⊥) }
{
    match name {
        "inspect" | "states" | "clean" | "rescue" | "forget-all" => Some(&[Operand::Image]),
        "list" => Some(list_operands(count)),
        "wear" => Some(wear_operands(count)),
        "header" => Some(&[Operand::Settings]),
        "try" => Some(&[Operand::Pages, Operand::PageWords]),
        "format" => Some(&[Operand::Pages, Operand::PageWords, Operand::Image]),
        "size" => Some(&[
            Operand::PageWords,
            Operand::Script,
            Operand::Cycles,
            Operand::Runs,
        ]),
        "run" | "plan" => Some(&[Operand::Image, Operand::Script]),
        "check" => Some(&[Operand::Image, Operand::Script, Operand::Certificate]),
        _ => operands_of_others(name),
    }
}

/// What the words behind `list` are to be, of which there are so many.
fn list_operands(count: usize) -> &'static [Operand]
    ensures both { 1 < count → result.now ≡ Image ∷ Settings ∷ [] }
    ensures one { count ≤ 1 → result.now ≡ Image ∷ [] }
{
    if 1 < count {
        &[Operand::Image, Operand::Settings]
    } else {
        &[Operand::Image]
    }
}

/// What the words behind `wear` are to be, of which there are so many.
fn wear_operands(count: usize) -> &'static [Operand]
    ensures both { 1 < count → result.now ≡ Image ∷ Before ∷ [] }
    ensures one { count ≤ 1 → result.now ≡ Image ∷ [] }
{
    if 1 < count {
        &[Operand::Image, Operand::Before]
    } else {
        &[Operand::Image]
    }
}

/// The same of the commands that are not there: those on settings and on dumps.
#[tactic(auto, unfolding(crate::specs::CommandLine::Operands::IsOtherName, crate::specs::CommandLine::Operands::AreOtherOperandsOf))]
fn operands_of_others(name: &str) -> Option<&'static [Operand]>
    ensures found { IfSome result (λ operands. AreOtherOperandsOf name.now operands.now) }
    ensures short { IfSome result (λ operands. length operands.now ≤ 5) }
    ensures none { IfNone result (IsOtherName name.now → ⊥) }
{
    match name {
        "get" | "unset" => Some(&[Operand::Image, Operand::Settings, Operand::Name]),
        "set" => Some(&[
            Operand::Image,
            Operand::Settings,
            Operand::Name,
            Operand::Value,
        ]),
        "apply" | "verify" => Some(&[Operand::Image, Operand::Settings, Operand::Values]),
        "stale" | "tidy" => Some(&[Operand::Image, Operand::Settings]),
        "import" | "import-xcube" => Some(&[
            Operand::Pages,
            Operand::PageWords,
            Operand::Dump,
            Operand::Image,
        ]),
        "import-hex" => Some(&[
            Operand::Pages,
            Operand::PageWords,
            Operand::Base,
            Operand::Dump,
            Operand::Image,
        ]),
        "export" => Some(&[Operand::Image, Operand::Dump]),
        "export-hex" => Some(&[Operand::Image, Operand::Base, Operand::Dump]),
        _ => None,
    }
}

/// What the words behind the letter of a script's command are to be. None where none has it.
fn operands_of_line(letter: &str) -> Option<&'static [Operand]>
    ensures found { IfSome result (λ operands. AreLineOperandsOf letter.now operands.now) }
    ensures short { IfSome result (λ operands. length operands.now ≤ 2) }
    ensures none { IfNone result (IsLetter letter.now → ⊥) }
{
    match letter {
        "w" => Some(&[Operand::Address, Operand::Stored]),
        "r" | "f" => Some(&[Operand::Address]),
        "x" => Some(&[Operand::Step, Operand::Tear]),
        "c" | "p" => Some(&[]),
        _ => None,
    }
}

/// The words behind the flag of a command, if it is the first of them, and how many stand before
/// them, the name among these.
fn behind_flag<'w, 'a>(name: &str, words: &'w [&'a str]) -> (u8, &'w [&'a str])
    ensures behind { AreBehindFlag name.now (texts_of words.now) result.0 (texts_of result.1.now) }
    ensures few { result.0 ≤ 2 }
{
    match words.split_first() {
        Some((first, behind)) if is_flag_of(name, first) => (2, behind),
        _ => (1, words),
    }
}

/// Whether a command has this flag.
fn is_flag_of(name: &str, word: &str) -> bool
    ensures { IsTrue result ↔ IsFlagOf name.now word.now }
{
    match name {
        "import" | "export" | "import-hex" => is_form_flag(word),
        "export-hex" => is_form_flag(word) || word == "--fill",
        "run" => word == "--indexed",
        "header" => word == "--rust",
        "forget-all" => word == "--force",
        _ => false,
    }
}

/// Whether a word is the flag of a form.
fn is_form_flag(word: &str) -> bool
    ensures { IsTrue result ↔ IsFormFlag word.now }
{
    word == "--pairs" || word == "--coded"
}

/// The least number that a word may be; 0 where it is to be none.
///
/// Source: ours.
pub fn least_number(operand: Operand) -> u64
    ensures { result ≡ least_number operand }
{
    match operand {
        Operand::Pages | Operand::Cycles | Operand::Runs => 1,
        Operand::Address | Operand::Step => 1,
        Operand::PageWords => 5,
        _ => 0,
    }
}

/// The greatest number that a word may be. None where it is to be no number.
///
/// Source: ours.
pub fn most_number(operand: Operand) -> Option<u64>
    ensures { result ≡ most_number operand }
{
    match operand {
        Operand::Pages => Some(64),
        Operand::PageWords => Some(512),
        Operand::Value | Operand::Stored => Some(4294967295),
        Operand::Cycles | Operand::Runs => Some(4294967295),
        Operand::Address => Some(65534),
        Operand::Step => Some(18446744073709551615),
        _ => None,
    }
}

/// Whether a word is what it is to be.
fn is_spelling(operand: Operand, word: &str) -> bool
    ensures { IsTrue result ↔ IsSpelling operand word.now }
{
    match operand {
        Operand::Base => base_of(word).is_some(),
        Operand::Tear => is_tear(word),
        _ => match most_number(operand) {
            Some(most) => is_number_in(word, least_number(operand), most),
            None => true,
        },
    }
}

/// Whether a word is the letter of a tear.
fn is_tear(word: &str) -> bool
    ensures { IsTrue result ↔ IsTear word.now }
{
    match word {
        "n" | "d" | "t" | "m" => true,
        _ => false,
    }
}

/// Whether a word spells a number of this range.
fn is_number_in(word: &str, least: u64, most: u64) -> bool
    ensures { IsTrue result ↔ IsNumberIn least most word.now }
{
    match number_up_to(word.as_bytes(), most) {
        Some(n) => least <= n,
        None => false,
    }
}

/// Why a word isn't what it is to be.
fn fault_of(operand: Operand, word: &str) -> WordFault
    ensures { result ≡ word_fault operand word.now }
{
    match operand {
        Operand::Base => WordFault::NoBase,
        Operand::Tear => WordFault::NoTear,
        _ => fault_of_number(word.as_bytes()),
    }
}

/// Why a word is no number of a range.
fn fault_of_number(word: &[u8]) -> WordFault
    ensures { result ≡ number_fault word.now }
{
    if !finds_digits(word) {
        WordFault::NoNumber
    } else if begins_with_zero(word) {
        WordFault::ZeroInFront
    } else {
        WordFault::OutOfRange
    }
}

/// Whether a word has a zero in front of others.
fn begins_with_zero(word: &[u8]) -> bool
    ensures { result ≡ is_zero_led word.now }
{
    match word {
        [first, _, ..] => *first == b'0',
        _ => false,
    }
}

/// Whether a word is digits alone, one or more.
fn finds_digits(word: &[u8]) -> bool
    ensures { result ≡ are_digits word.now }
{
    match word {
        [] => false,
        _ => has_digits_alone(word),
    }
}

/// Whether each byte of a word is a digit.
fn has_digits_alone(word: &[u8]) -> bool
    ensures { result ≡ list_all is_decimal_digit word.now }
{
    word.iter().all(|byte| is_decimal(*byte))
}

/// Whether a byte is a digit.
fn is_decimal(byte: u8) -> bool
    ensures { result ≡ is_decimal_digit byte }
{
    b'0' <= byte && byte <= b'9'
}
