//! The words behind the program's name, read.
ghost use Rattle.std.specs.Prelude.{◌≡◌, [], ◌∷◌, ◌<◌, ◌^◌, ◌↔◌, ℕ, Bool, List, Some, IfNone, IfSome, IsSomeAnd, IsTrue, codes, option_map, decimal};
ghost use Rattle.ee_flash.specs.Size.{IsWithinLimits, Size};
ghost use Rattle.ee_interface.specs.CommandLine.Job.{ArePageWords, EndsWithin, HasBase, HaveNoFlag, HaveNoForm, IsBase, IsCount, IsNoForm, GivesSpelled, IsPlain, SpellsGiven, texts_of, with_flag, with_form};
ghost use Rattle.ee_interface.specs.declared.command_line.form.Form.{Form as FormOf};

use super::form::Form;
use super::jobs::Job;
use ee_flash::Shape;
use ee_text::number_up_to;
use hex::FromHex;

/// The job that the words ask for. None where they spell no command. Pages are 1 to 64, words of a
/// page 5 to 512 and a value 0 to 4294967295, in decimal, with no sign and no zero in front. A base
/// is a multiple of 8 of 32 bits, in eight hexadecimal digits.
///
/// Source: ours.
pub fn job<'a>(words: &[&'a str]) -> Option<Job<'a>>
    // What is given is spelled so.
    ensures found { SpellsGiven (texts_of words.now) result }
    // What is spelled so is given.
    ensures only { GivesSpelled (texts_of words.now) result }
{
    let Some((command, others)) = words.split_first() else {
        return Some(Job::Try {
            shape: Shape::new(1, 6)?,
        });
    };
    match *command {
        "run" => run_job(others),
        "header" => header_job(others),
        "export" => export_job(others),
        "export-hex" => export_hex_job(others),
        "import" => import_job(others),
        "import-hex" => import_hex_job(others),
        "forget-all" => forget_all_job(others),
        command => match *others {
            [] => job_of_one(command),
            [first] => job_of_two(command, first),
            [first, second] => job_of_three(command, first, second),
            [first, second, third] => job_of_four(command, first, second, third),
            [first, second, third, fourth] => job_of_five(command, first, second, third, fourth),
            _ => None,
        },
    }
}

/// The words behind a flag, and whether it is given. None where it is given twice.
fn split_flag<'w, 'a>(flag: &str, words: &'w [&'a str]) -> Option<(bool, &'w [&'a str])>
    ensures found { IfSome result (λ split. HaveNoFlag flag.now (texts_of split.1.now)
        × (texts_of words.now ≡ with_flag split.0 flag.now (texts_of split.1.now))) }
    ensures only { (given : Bool) (operands : List (List ℕ)) → HaveNoFlag flag.now operands
        → texts_of words.now ≡ with_flag given flag.now operands
        → IsSomeAnd result (λ split. (split.0 ≡ given) × (texts_of split.1.now ≡ operands)) }
{
    let Some((first, operands)) = words.split_first() else {
        return Some((false, words));
    };
    if *first != flag {
        return Some((false, words));
    }
    match operands.split_first() {
        None => Some((true, operands)),
        Some((second, _)) if *second == flag => None,
        Some(_) => Some((true, operands)),
    }
}

/// The form whose flag a word is.
fn form_of_flag(word: &str) -> Option<Form>
    ensures found { IfSome result (λ form. (words : List (List ℕ))
        → with_form form words ≡ word.now ∷ words) }
    ensures some { IfSome result (λ _. IsNoForm word.now → ⊥) }
    ensures none { IfNone result (IsNoForm word.now) }
{
    match word {
        "--pairs" => Some(Form::Pairs),
        "--coded" => Some(Form::Coded),
        _ => None,
    }
}

/// Whether words begin with no form's flag.
fn have_no_form(words: &[&str]) -> bool
    ensures { IsTrue result ↔ HaveNoForm (texts_of words.now) }
{
    match words.split_first() {
        Some((first, _)) => form_of_flag(first).is_none(),
        None => true,
    }
}

/// The form whose flag comes first, words where none does, and the words behind. None where two do.
fn split_form<'w, 'a>(words: &'w [&'a str]) -> Option<(Form, &'w [&'a str])>
    ensures found { IfSome result (λ split. HaveNoForm (texts_of split.1.now)
        × (texts_of words.now ≡ with_form split.0 (texts_of split.1.now))) }
    ensures only { (form : FormOf) (operands : List (List ℕ)) → HaveNoForm operands
        → texts_of words.now ≡ with_form form operands
        → IsSomeAnd result (λ split. (split.0 ≡ form) × (texts_of split.1.now ≡ operands)) }
{
    let Some((first, operands)) = words.split_first() else {
        return Some((Form::Words, words));
    };
    let Some(form) = form_of_flag(first) else {
        return Some((Form::Words, words));
    };
    if have_no_form(operands) {
        Some((form, operands))
    } else {
        None
    }
}

/// The form whose flag comes first, whether `--fill` is behind it, and the words behind that. None
/// where one is given twice, two forms are, or they come in another order.
fn split_hex_flags<'w, 'a>(words: &'w [&'a str]) -> Option<(Form, bool, &'w [&'a str])>
    ensures found { IfSome result (λ split. HaveNoForm (texts_of split.2.now)
        × HaveNoFlag (codes "--fill") (texts_of split.2.now)
        × (texts_of words.now
        ≡ with_form split.0 (with_flag split.1 (codes "--fill") (texts_of split.2.now)))) }
    ensures only { (form : FormOf) (fill : Bool) (operands : List (List ℕ)) → HaveNoForm operands
        → HaveNoFlag (codes "--fill") operands
        → texts_of words.now ≡ with_form form (with_flag fill (codes "--fill") operands)
        → IsSomeAnd result (λ split. (split.0 ≡ form) × (split.1 ≡ fill)
        × (texts_of split.2.now ≡ operands)) }
{
    let (form, others) = split_form(words)?;
    let (fill, operands) = split_flag("--fill", others)?;
    if have_no_form(operands) {
        Some((form, fill, operands))
    } else {
        None
    }
}

/// The job of `run`.
fn run_job<'a>(words: &[&'a str]) -> Option<Job<'a>>
    ensures found { SpellsGiven (codes "run" ∷ texts_of words.now) result }
    ensures only { GivesSpelled (codes "run" ∷ texts_of words.now) result }
{
    let (indexed, operands) = split_flag("--indexed", words)?;
    match *operands {
        [image, script] => Some(Job::Run {
            indexed,
            image,
            script,
        }),
        _ => None,
    }
}

/// The job of `header`.
fn header_job<'a>(words: &[&'a str]) -> Option<Job<'a>>
    ensures found { SpellsGiven (codes "header" ∷ texts_of words.now) result }
    ensures only { GivesSpelled (codes "header" ∷ texts_of words.now) result }
{
    let (rust, operands) = split_flag("--rust", words)?;
    match *operands {
        [settings] => Some(Job::Header { rust, settings }),
        _ => None,
    }
}

/// The job of `export`.
fn export_job<'a>(words: &[&'a str]) -> Option<Job<'a>>
    ensures found { SpellsGiven (codes "export" ∷ texts_of words.now) result }
    ensures only { GivesSpelled (codes "export" ∷ texts_of words.now) result }
{
    let (form, operands) = split_form(words)?;
    match *operands {
        [image, dump] => Some(Job::Export { form, image, dump }),
        _ => None,
    }
}

/// The job of `export-hex`.
fn export_hex_job<'a>(words: &[&'a str]) -> Option<Job<'a>>
    ensures found { SpellsGiven (codes "export-hex" ∷ texts_of words.now) result }
    ensures only { GivesSpelled (codes "export-hex" ∷ texts_of words.now) result }
{
    let Some((form, fill, operands)) = split_hex_flags(words) else {
        return None;
    };
    match *operands {
        [image, base, dump] => Some(Job::ExportHex {
            form,
            fill,
            image,
            base: base_of(base)?,
            dump,
        }),
        _ => None,
    }
}

/// The job of `import`.
fn import_job<'a>(words: &[&'a str]) -> Option<Job<'a>>
    ensures found { SpellsGiven (codes "import" ∷ texts_of words.now) result }
    ensures only { GivesSpelled (codes "import" ∷ texts_of words.now) result }
{
    let Some((form, shape, files)) = split_part(words) else {
        return None;
    };
    match *files {
        [dump, image] => Some(Job::Import {
            form,
            shape,
            dump,
            image,
        }),
        _ => None,
    }
}

/// The job of `import-hex`.
fn import_hex_job<'a>(words: &[&'a str]) -> Option<Job<'a>>
    ensures found { SpellsGiven (codes "import-hex" ∷ texts_of words.now) result }
    ensures only { GivesSpelled (codes "import-hex" ∷ texts_of words.now) result }
{
    let Some((form, shape, others)) = split_part(words) else {
        return None;
    };
    match *others {
        [base, dump, image] => Some(Job::ImportHex {
            form,
            shape,
            base: base_for(form, shape, base)?,
            dump,
            image,
        }),
        _ => None,
    }
}

/// The job of `forget-all`.
fn forget_all_job<'a>(words: &[&'a str]) -> Option<Job<'a>>
    ensures found { SpellsGiven (codes "forget-all" ∷ texts_of words.now) result }
    ensures only { GivesSpelled (codes "forget-all" ∷ texts_of words.now) result }
{
    let (force, operands) = split_flag("--force", words)?;
    match *operands {
        [image] => Some(Job::ForgetAll { force, image }),
        _ => None,
    }
}

/// The form whose flag comes first, the shape behind it, and the words behind that.
#[tactic(auto, using(crate::proofs::CommandLineLemmas::Flags::size_is_no_form))]
fn split_part<'w, 'a>(words: &'w [&'a str]) -> Option<(Form, Shape, &'w [&'a str])>
    ensures found { IfSome result (λ split. IsWithinLimits split.1
        × (texts_of words.now ≡ with_form split.0
        (decimal split.1.pages ∷ decimal split.1.words ∷ texts_of split.2.now))) }
    ensures only { (form : FormOf) (size : Size) (others : List (List ℕ)) → IsWithinLimits size
        → texts_of words.now
        ≡ with_form form (decimal size.pages ∷ decimal size.words ∷ others)
        → IsSomeAnd result (λ split. (split.0 ≡ form) × (split.1 ≡ size)
        × (texts_of split.2.now ≡ others)) }
{
    let (form, operands) = split_form(words)?;
    let (pages, others) = operands.split_first()?;
    let (page_words, others) = others.split_first()?;
    Some((form, shape_of(pages, page_words)?, others))
}

/// The job that a word alone asks for.
fn job_of_one<'a>(command: &'a str) -> Option<Job<'a>>
    ensures found { SpellsGiven (command.now ∷ []) result }
    ensures only { GivesSpelled (command.now ∷ []) result }
{
    let job = match command {
        "--help" | "-h" | "help" => Job::Help,
        "--version" => Job::Version,
        _ => return None,
    };
    Some(job)
}

/// The job of a command on an image alone.
fn job_of_two<'a>(command: &'a str, image: &'a str) -> Option<Job<'a>>
    requires { IsPlain command.now }
    ensures found { SpellsGiven (command.now ∷ image.now ∷ []) result }
    ensures only { GivesSpelled (command.now ∷ image.now ∷ []) result }
{
    let job = match command {
        "list" => Job::List {
            image,
            settings: None,
        },
        "wear" => Job::Wear {
            image,
            before: None,
        },
        "states" => Job::States { image },
        "inspect" => Job::Inspect { image },
        "clean" => Job::Clean { image },
        "rescue" => Job::Rescue { image },
        _ => return None,
    };
    Some(job)
}

/// The job of a command on two texts.
fn job_of_three<'a>(command: &'a str, first: &'a str, second: &'a str) -> Option<Job<'a>>
    requires { IsPlain command.now }
    ensures found { SpellsGiven (command.now ∷ first.now ∷ second.now ∷ []) result }
    ensures only { GivesSpelled (command.now ∷ first.now ∷ second.now ∷ []) result }
{
    let job = match command {
        "try" => Job::Try {
            shape: shape_of(first, second)?,
        },
        "plan" => Job::Plan {
            image: first,
            script: second,
        },
        "list" => Job::List {
            image: first,
            settings: Some(second),
        },
        "wear" => Job::Wear {
            image: first,
            before: Some(second),
        },
        "stale" => Job::Stale {
            image: first,
            settings: second,
        },
        "tidy" => Job::Tidy {
            image: first,
            settings: second,
        },
        _ => return None,
    };
    Some(job)
}

/// The job of a command on three texts.
fn job_of_four<'a>(
    command: &'a str,
    first: &'a str,
    second: &'a str,
    third: &'a str,
) -> Option<Job<'a>>
    requires { IsPlain command.now }
    ensures found { SpellsGiven (command.now ∷ first.now ∷ second.now ∷ third.now ∷ []) result }
    ensures only { GivesSpelled (command.now ∷ first.now ∷ second.now ∷ third.now ∷ []) result }
{
    let job = match command {
        "format" => Job::Format {
            shape: shape_of(first, second)?,
            image: third,
        },
        "get" => Job::Get {
            image: first,
            settings: second,
            name: third,
        },
        "unset" => Job::Unset {
            image: first,
            settings: second,
            name: third,
        },
        "apply" => Job::Apply {
            image: first,
            settings: second,
            values: third,
        },
        "verify" => Job::Verify {
            image: first,
            settings: second,
            values: third,
        },
        "check" => Job::Check {
            image: first,
            script: second,
            certificate: third,
        },
        _ => return None,
    };
    Some(job)
}

/// The job of a command on four texts.
fn job_of_five<'a>(
    command: &'a str,
    first: &'a str,
    second: &'a str,
    third: &'a str,
    fourth: &'a str,
) -> Option<Job<'a>>
    requires { IsPlain command.now }
    ensures found { SpellsGiven
        (command.now ∷ first.now ∷ second.now ∷ third.now ∷ fourth.now ∷ []) result }
    ensures only { GivesSpelled
        (command.now ∷ first.now ∷ second.now ∷ third.now ∷ fourth.now ∷ []) result }
{
    let job = match command {
        "set" => Job::Set {
            image: first,
            settings: second,
            name: third,
            value: value_of(fourth)?,
        },
        "import-xcube" => Job::ImportXcube {
            shape: shape_of(first, second)?,
            dump: third,
            image: fourth,
        },
        "size" => Job::Size {
            words: page_words_of(first)?,
            script: second,
            cycles: count_of(third)?,
            runs: count_of(fourth)?,
        },
        _ => return None,
    };
    Some(job)
}

/// The words of a page that a word spells.
fn page_words_of(word: &str) -> Option<u16>
    ensures found { IfSome result (λ words. ArePageWords words × (word.now ≡ decimal words)) }
    ensures only { (words : ℕ) → ArePageWords words → word.now ≡ decimal words
        → result ≡ Some words }
{
    let words = number_up_to(word.as_bytes(), 512)?;
    if words < 5 {
        return None;
    }
    Some(words as u16)
}

/// The count, one at least, that a word spells.
fn count_of(word: &str) -> Option<u32>
    ensures found { IfSome result (λ count. IsCount count × (word.now ≡ decimal count)) }
    ensures only { (count : ℕ) → IsCount count → word.now ≡ decimal count
        → result ≡ Some count }
{
    let count = value_of(word)?;
    if count == 0 {
        return None;
    }
    Some(count)
}

/// The base that a word spells: a multiple of 8.
#[tactic(auto, unfolding(crate::specs::CommandLine::Job::IsBase))]
pub(super) fn base_of(word: &str) -> Option<u32>
    ensures found { IfSome result (λ base. IsBase base × HasBase word.now base) }
    ensures only { (base : ℕ) → IsBase base → HasBase word.now base → result ≡ Some base }
{
    let base = digits_of(word)?;
    if base % 8 != 0 {
        return None;
    }
    Some(base)
}

/// The number that a word of eight hexadecimal digits, in either case, spells.
#[tactic(auto, using(crate::proofs::CommandLineLemmas::Bases::base_read, crate::proofs::CommandLineLemmas::Bases::one_base))]
fn digits_of(word: &str) -> Option<u32>
    ensures found { IfSome result (λ base. (base < 2 ^ 32) × HasBase word.now base) }
    ensures only { (base : ℕ) → base < 2 ^ 32 → HasBase word.now base → result ≡ Some base }
{
    match <[u8; 4]>::from_hex(word) {
        Ok(bytes) => Some(u32::from_be_bytes(bytes)),
        Err(_) => None,
    }
}

/// The base that a word spells, where a part of this size that begins there ends within the
/// addresses of 32 bits.
#[tactic(auto, unfolding(crate::specs::CommandLine::Job::EndsWithin))]
fn base_for(form: Form, shape: Shape, word: &str) -> Option<u32>
    ensures found { IfSome result
        (λ base. IsBase base × EndsWithin form shape base × HasBase word.now base) }
    ensures only { (base : ℕ) → IsBase base → EndsWithin form shape base → HasBase word.now base
        → result ≡ Some base }
{
    let base = base_of(word)?;
    if u64::from(base) + form.dump_length(shape) as u64 > 1 << 32 {
        return None;
    }
    Some(base)
}

/// The shape that two words spell.
fn shape_of(pages: &str, words: &str) -> Option<Shape>
    ensures found { IfSome result (λ size. IsWithinLimits size
        × (pages.now ≡ decimal size.pages) × (words.now ≡ decimal size.words)) }
    ensures only { (size : Size) → IsWithinLimits size → pages.now ≡ decimal size.pages
        → words.now ≡ decimal size.words → result ≡ Some size }
{
    let pages = number_up_to(pages.as_bytes(), 64)?;
    let words = number_up_to(words.as_bytes(), 512)?;
    Shape::new(pages as usize, words as usize)
}

/// The value that a word spells.
fn value_of(word: &str) -> Option<u32>
    ensures found { IfSome result (λ value. (value < 2 ^ 32) × (word.now ≡ decimal value)) }
    ensures only { (value : ℕ) → value < 2 ^ 32 → word.now ≡ decimal value
        → result ≡ Some value }
{
    Some(number_up_to(word.as_bytes(), u64::from(u32::MAX))? as u32)
}
