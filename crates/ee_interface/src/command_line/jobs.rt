//! What the program can be asked for.

use super::form::Form;
use ee_flash::Shape;

/// What the words ask for. Files are named by their paths. FORM is no word for words, else `--pairs`
/// or `--coded`.
///
/// Source: ours.
#[derive(Clone, Copy)]
pub enum Job<'a> {
    /// No words, for one page and six words; or `try P W`: answers the script of standard input.
    Try {
        shape: Shape,
    },
    /// `format P W IMAGE`: writes the image of a formatted device.
    Format {
        shape: Shape,
        image: &'a str,
    },
    /// `import FORM P W DUMP IMAGE`: writes the image of a part, from its bytes.
    Import {
        form: Form,
        shape: Shape,
        dump: &'a str,
        image: &'a str,
    },
    /// `export FORM IMAGE DUMP`: writes the bytes of the image's part.
    Export {
        form: Form,
        image: &'a str,
        dump: &'a str,
    },
    /// `import-hex FORM P W BASE DUMP IMAGE`: writes the image of a part, from Intel HEX. The
    /// part's first byte stands at BASE, a multiple of 8, and its last within 32 bits.
    ImportHex {
        form: Form,
        shape: Shape,
        base: u32,
        dump: &'a str,
        image: &'a str,
    },
    /// `export-hex FORM [--fill] IMAGE BASE DUMP`: writes the bytes of the image's part as
    /// Intel HEX, from BASE on, a multiple of 8; `fill` says that erased words are written too.
    ExportHex {
        form: Form,
        fill: bool,
        image: &'a str,
        base: u32,
        dump: &'a str,
    },
    /// `import-xcube P W DUMP IMAGE`: writes the image of a store with the values that a part of
    /// X-CUBE-EEPROM has, from its bytes.
    ImportXcube {
        shape: Shape,
        dump: &'a str,
        image: &'a str,
    },
    /// `inspect IMAGE`: tells what stands in an image, whatever it is.
    Inspect {
        image: &'a str,
    },
    /// `run IMAGE SCRIPT` or `run --indexed IMAGE SCRIPT`: answers the script on the image, on a
    /// store that keeps an index in memory or on one that keeps none.
    Run {
        indexed: bool,
        image: &'a str,
        script: &'a str,
    },
    /// `get IMAGE SETTINGS NAME`: tells what the setting of this name has.
    Get {
        image: &'a str,
        settings: &'a str,
        name: &'a str,
    },
    /// `set IMAGE SETTINGS NAME VALUE`: gives the setting of this name a value.
    Set {
        image: &'a str,
        settings: &'a str,
        name: &'a str,
        value: u32,
    },
    /// `unset IMAGE SETTINGS NAME`: forgets the value of the setting of this name.
    Unset {
        image: &'a str,
        settings: &'a str,
        name: &'a str,
    },
    /// `apply IMAGE SETTINGS VALUES`: gives each setting that VALUES names its
    /// value, or none of them.
    Apply {
        image: &'a str,
        settings: &'a str,
        values: &'a str,
    },
    /// `verify IMAGE SETTINGS VALUES`: tells each setting that has another value than VALUES says.
    Verify {
        image: &'a str,
        settings: &'a str,
        values: &'a str,
    },
    /// `header SETTINGS` or `header --rust SETTINGS`: tells the constants of the
    /// settings, in C or in Rust.
    Header {
        rust: bool,
        settings: &'a str,
    },
    /// `plan IMAGE SCRIPT`: tells the certificate of what the script changes.
    Plan {
        image: &'a str,
        script: &'a str,
    },
    /// `check IMAGE SCRIPT CERTIFICATE`: checks a certificate of what the script changes.
    Check {
        image: &'a str,
        script: &'a str,
        certificate: &'a str,
    },
    /// `wear IMAGE [BEFORE]`: tells how often the pages were erased, since an image before it.
    Wear {
        image: &'a str,
        before: Option<&'a str>,
    },
    /// `states IMAGE`: tells the state of each page.
    States {
        image: &'a str,
    },
    /// `clean IMAGE`: erases the pages that wait for it.
    Clean {
        image: &'a str,
    },
    /// `rescue IMAGE`: makes the image legal, whatever stands in it, and tells the bad words.
    Rescue {
        image: &'a str,
    },
    /// `forget-all IMAGE` or `forget-all --force IMAGE`: forgets all addresses; with no flag only
    /// where none has a value.
    ForgetAll {
        force: bool,
        image: &'a str,
    },
    /// `stale IMAGE SETTINGS`: tells the settings whose stored value isn't in their range.
    Stale {
        image: &'a str,
        settings: &'a str,
    },
    /// `tidy IMAGE SETTINGS`: forgets the addresses that no setting has.
    Tidy {
        image: &'a str,
        settings: &'a str,
    },
    /// `list IMAGE [SETTINGS]`: tells what each address has, with the names of settings.
    List {
        image: &'a str,
        settings: Option<&'a str>,
    },
    /// `size W SCRIPT CYCLES RUNS`: tells for each number of pages of W words, which is 5
    /// to 512, whether pages that bear so many erases bear so many runs of the script; both
    /// are 1 to 4294967295.
    Size {
        words: u16,
        script: &'a str,
        cycles: u32,
        runs: u32,
    },
    /// `--help`, `-h` or `help`, alone: tells the commands.
    Help,
    /// `--version`, alone: tells the version of the program.
    Version,
}
