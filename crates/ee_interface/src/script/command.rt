//! The commands of a script, one line of it each.
use ee_codec::Address;
use ee_flash::Fuse;

/// A line of a script, read.
#[derive(Clone, Copy, Debug, PartialEq, Eq)]
pub enum Command {
    /// `w A V`: write value V at address A.
    Write { address: Address, value: u32 },
    /// `r A`: read address A.
    Read { address: Address },
    /// `f A`: forget address A.
    Forget { address: Address },
    /// `c`: one clean step.
    Clean,
    /// `x N T`: `fuse.after`, which is N - 1, further steps of the device pass, and the next one is
    /// cut. T is the tear: `n` for nothing, `d` for done, `t` for torn, `m` for mixed.
    Arm { fuse: Fuse },
    /// `p`: power is turned on, and the store is opened.
    PowerOn,
}
