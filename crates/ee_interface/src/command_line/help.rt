//! What the program tells of itself.

/// The version of the program, and the toolchain that it is proved with, in a line.
///
/// Source: ours.
pub const VERSION: &str = "ee 0.2.0 (rattle logic dac8208d650f15bf)\n";

/// The commands on one screen.
///
/// Source: ours.
pub const HELP: &str = "\
ee: flash EEPROM emulation over images as text, proved

  ee                                       as try 1 6
  ee try P W < SCRIPT                      answers a script on a fresh image
  ee format P W IMAGE                      makes a formatted image, and replaces the file
  ee import P W DUMP IMAGE                 makes an image of a part's bytes, and replaces the file
  ee export IMAGE DUMP                     writes those bytes
  ee import-hex P W BASE DUMP IMAGE        the same as import, from Intel HEX
  ee export-hex IMAGE BASE DUMP            the words that aren't erased, as Intel HEX
  ee import-xcube P W DUMP IMAGE           makes an image of the values of ST's X-CUBE-EEPROM
  ee import[-hex] --pairs P W ...          the same with no ECC: each word beside its complement
  ee export[-hex] --pairs IMAGE ...        the same with no ECC
  ee import[-hex] --coded P W ...          the same with ECC and coded words
  ee export[-hex] --coded IMAGE ...        the same with ECC and coded words
  ee export-hex --fill IMAGE ...           the same as export-hex, with the erased words
  ee run IMAGE SCRIPT                      answers a script, and replaces the image
  ee run --indexed IMAGE SCRIPT            the same, with an index in memory
  ee list IMAGE [SETTINGS]                 tells what each address has
  ee get IMAGE SETTINGS NAME               tells what a setting reads as
  ee set IMAGE SETTINGS NAME VALUE         gives a setting a value, and replaces the image
  ee unset IMAGE SETTINGS NAME             forgets the value of a setting
  ee apply IMAGE SETTINGS VALUES           gives settings the values of a file, all or none
  ee verify IMAGE SETTINGS VALUES          tells the settings that differ from a file's values
  ee header [--rust] SETTINGS              tells the settings as constants in C, or in Rust
  ee stale IMAGE SETTINGS                  tells the settings whose stored value is out of range
  ee tidy IMAGE SETTINGS                   forgets the addresses that no setting has
  ee plan IMAGE SCRIPT                     tells the certificate of the fewest moves
  ee check IMAGE SCRIPT CERTIFICATE        tells how many moves a certificate proves
  ee size W SCRIPT CYCLES RUNS             tells which sizes bear so many runs of a script
  ee inspect IMAGE                         tells what a store finds in any image
  ee wear IMAGE [BEFORE]                   tells how often each page was erased
  ee states IMAGE                          tells the state of each page
  ee clean IMAGE                           erases the pages that wait for it
  ee rescue IMAGE                          makes any image legal, without its bad words
  ee forget-all [--force] IMAGE            forgets all addresses; with values, only by --force
  ee explain LINE                          tells what the line of a fault means, and what to do
  ee --help, ee -h, ee help                tells this
  ee --version                             tells the version, and the toolchain that it is proved with

P: pages of a set, 1 to 64. W: words of a page, 5 to 512. VALUE: 0 to 4294967295.
CYCLES: erases that a page bears, RUNS: how often the script is made; 1 to 4294967295.
BASE: where the part's first byte is, eight hexadecimal digits, a multiple of 8.
A script has a command a line: w A V, r A, f A, c, x N T, p.
In front of a command --dry-run writes no file, and --explain says more of a refusal;
in front of states, inspect, wear, size and plan --json tells a document in JSON.
ee help COMMAND, or ee COMMAND --help, tells its rows here, with an example.

Status: 0 done, 2 bad command line, 3 bad file, 4 refused, 5 out of memory.
README.md has examples, docs/FORMATS.md each text, docs/FAULTS.md what a fault line means.
";
