//! What stands beside the words of a fault's line.
use super::fault::File;
use std::fmt;

/// What stands before or behind the words of a fault's line.
#[derive(Clone, Copy)]
pub enum Beside {
    Nothing,
    File(File),
    /// An entry of a file, counted from 1.
    Entry(File, u64),
    Number(u64),
    Numbers(u64, u64),
}

impl fmt::Display for Beside {
    ghost use Rattle.std.specs.Prelude.{Some};
    ghost use Rattle.ee_interface.specs.Beside.{beside_text};

    ghost output = { λ beside. Some (beside_text beside) };

    fn fmt<W: fmt::Write>(&self, f: &mut fmt::Formatter<W>) -> fmt::Result {
        match self {
            Beside::Nothing => Ok(()),
            Beside::File(file) => fmt::Display::fmt(file, f),
            Beside::Entry(file, entry) => write!(f, "{file} entry {entry}"),
            Beside::Number(number) => fmt::Display::fmt(number, f),
            Beside::Numbers(first, second) => write!(f, "{first} {second}"),
        }
    }
}
