ghost use Rattle.std.specs.Prelude.{◌≡◌};
ghost use Rattle.command_line.specs.declared.fault.WordsFault.TheVariants.{Memory};

use std::alloc::{AllocError, AllocFailed};
use thiserror::Error;

/// Why words are answered with no request.
#[derive(Clone, Copy, Debug, PartialEq, Eq, Error)]
pub enum WordsFault {
    /// The words are not those of any request.
    #[error("the arguments fit no form of the command")]
    Usage,
    /// Out of memory.
    #[error("out of memory")]
    Memory,
}

impl WordsFault {
    ghost use Rattle.command_line.specs.WordsFaults.{number_of};

    /// The fault's number: 2 where the words are those of no request. Out of memory has 0: no line tells of it.
    pub fn number(&self) -> u8
        ensures { result ≡ number_of self.now }
    {
        match self {
            WordsFault::Usage => 2,
            WordsFault::Memory => 0,
        }
    }

    /// The place at fault. Words have no places, and 0 stands for none.
    pub fn place(&self) -> u64
        ensures { result ≡ 0 }
    {
        0
    }
}

impl From<AllocError> for WordsFault {
    ghost from_gives = { λ _ fault. fault ≡ Memory };

    fn from(_error: AllocError) -> WordsFault {
        WordsFault::Memory
    }
}

impl<T: Drop> From<AllocFailed<T>> for WordsFault {
    ghost from_gives = { λ _ fault. fault ≡ Memory };

    fn from(_error: AllocFailed<T>) -> WordsFault {
        WordsFault::Memory
    }
}
