//! Why a script can't be replayed.
use crate::script::{ScriptFault, StreamFault};
use ee_image::ImageFault;
use ee_pages::ScanFault;
use std::alloc::AllocError;
use thiserror::Error;

/// Why a script can't be replayed, the first cause that applies.
///
/// Source: ours.
#[derive(Clone, Copy, Debug, PartialEq, Eq, Error)]
pub enum ReplayFault {
    /// The image's text is no device's. Want of memory is `Memory`.
    #[error("no image")]
    Image(ImageFault),
    /// The image is not legal.
    #[error("no legal image")]
    Open(ScanFault),
    /// The number of the script's first bad line, from 1.
    #[error("script line {0}")]
    Script(u64),
    /// Memory ran out.
    #[error("out of memory")]
    Memory,
    /// The reader that gives the script failed, or the most read calls were made and the end had
    /// not come. No script that is given whole is refused so.
    #[error("cannot read script")]
    Read,
}

impl From<AllocError> for ReplayFault {
    ghost use Rattle.std.specs.Prelude.{◌≡◌};
    ghost use Rattle.ee_interface.specs.declared.replay_fault.ReplayFault.TheVariants.{Memory};

    ghost from_gives = { λ _ fault. fault ≡ Memory };

    fn from(_error: AllocError) -> ReplayFault {
        ReplayFault::Memory
    }
}

impl From<ImageFault> for ReplayFault {
    ghost use Rattle.std.specs.Prelude.{◌≡◌};
    ghost use Rattle.ee_interface.specs.ReplayFault.{of_image};

    ghost from_gives = { λ image fault. fault ≡ of_image image };

    fn from(fault: ImageFault) -> ReplayFault {
        match fault {
            ImageFault::Memory => ReplayFault::Memory,
            fault => ReplayFault::Image(fault),
        }
    }
}

impl From<ScriptFault> for ReplayFault {
    ghost use Rattle.std.specs.Prelude.{◌≡◌};
    ghost use Rattle.ee_interface.specs.ReplayFault.{same_cause};

    ghost from_gives = { λ script fault. fault ≡ same_cause script };

    fn from(fault: ScriptFault) -> ReplayFault {
        match fault {
            ScriptFault::BadLine(line) => ReplayFault::Script(line),
            ScriptFault::Memory => ReplayFault::Memory,
        }
    }
}

impl From<StreamFault> for ReplayFault {
    ghost use Rattle.std.specs.Prelude.{◌≡◌};
    ghost use Rattle.ee_interface.specs.ReplayFault.{of_stream};

    ghost from_gives = { λ stream fault. fault ≡ of_stream stream };

    fn from(fault: StreamFault) -> ReplayFault {
        match fault {
            StreamFault::Read => ReplayFault::Read,
            StreamFault::Script(fault) => ReplayFault::from(fault),
        }
    }
}
