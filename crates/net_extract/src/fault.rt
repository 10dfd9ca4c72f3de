ghost use Rattle.std.specs.Prelude.{◌≡◌};
ghost use Rattle.net_extract.specs.declared.fault.NetFault.TheVariants.{Memory};

use lists::NoMemory;
use std::alloc::{AllocError, AllocFailed};
use thiserror::Error;

/// Why layers have no nets with anchors.
#[derive(Clone, Copy, Debug, Error)]
pub enum NetFault {
    /// The metal of the terminal with this number, counted from 0, does not cover the terminal's cell.
    #[error("terminal {index} is not on its metal")]
    TerminalOffMetal { index: u32 },
    /// No memory is left, which says nothing of the layers.
    #[error("no memory is left")]
    Memory,
}

impl NetFault {
    ghost use Rattle.net_extract.specs.NetFaults.{number_of, place_of};

    /// The fault's number: 50 for a terminal that is not on its metal, and 0 for want of memory.
    pub fn number(&self) -> u8
        ensures { result ≡ number_of self.now }
    {
        match self {
            NetFault::TerminalOffMetal { .. } => 50,
            NetFault::Memory => 0,
        }
    }

    /// The terminal's number, and 0 for want of memory.
    pub fn place(&self) -> u64
        ensures { result ≡ place_of self.now }
    {
        match self {
            NetFault::TerminalOffMetal { index } => u64::from(*index),
            NetFault::Memory => 0,
        }
    }
}

impl From<NoMemory> for NetFault {
    ghost from_gives = { λ _ fault. fault ≡ Memory };

    fn from(_error: NoMemory) -> NetFault {
        NetFault::Memory
    }
}

impl From<AllocError> for NetFault {
    ghost from_gives = { λ _ fault. fault ≡ Memory };

    fn from(_error: AllocError) -> NetFault {
        NetFault::Memory
    }
}

impl<T: Drop> From<AllocFailed<T>> for NetFault {
    ghost from_gives = { λ _ fault. fault ≡ Memory };

    fn from(_error: AllocFailed<T>) -> NetFault {
        NetFault::Memory
    }
}
