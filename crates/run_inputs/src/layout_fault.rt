#![tactic(auto, using(crate::specs::StageAnswers::as_memory, crate::specs::StageAnswers::as_known))]

ghost use Rattle.std.specs.Prelude.{◌≡◌};
ghost use Rattle.library_grammar.specs.declared.fault.SyntaxFault.TheVariants.{Memory as syntax_memory};
ghost use Rattle.flatten.specs.declared.fault.PlaceFault.TheVariants.{Memory as place_memory};
ghost use Rattle.rect_cover.specs.declared.fault.CoverFault.TheVariants.{Memory as cover_memory};
ghost use Rattle.net_extract.specs.declared.fault.NetFault.TheVariants.{Memory as net_memory};
ghost use Rattle.run_inputs.specs.StageAnswers.{IsToldAs};
ghost use Rattle.run_inputs.specs.Refusals.{of_layout_fault};
ghost use Rattle.run_inputs.specs.declared.layout_fault.LayoutFault.TheVariants.{Syntax, Place, Cover, Net, Memory};

use super::refusal::Refusal;
use flatten::PlaceFault;
use gds_syntax::SyntaxFault;
use lists::NoMemory;
use net_extract::NetFault;
use rect_cover::CoverFault;
use thiserror::Error;

/// Why a layout has no rows: its first fault. What comes first here is looked at first.
#[derive(Clone, Copy, Debug, Error)]
pub enum LayoutFault {
    /// Its bytes are no library.
    #[error(transparent)]
    Syntax(SyntaxFault),
    /// The shapes of its library are not placed.
    #[error(transparent)]
    Place(PlaceFault),
    /// A placed shape has no cover.
    #[error(transparent)]
    Cover(CoverFault),
    /// A terminal of the map is not on its metal.
    #[error(transparent)]
    Net(NetFault),
    /// No memory is left, which says nothing of the layout.
    #[error("no memory is left")]
    Memory,
}

impl LayoutFault {
    /// The fault's number, by which it is printed: 10 to 36, or 50. Out of memory has none, which is 0 here and below.
    pub fn number(&self) -> u8
        ensures { result ≡ (of_layout_fault self.now).number }
    {
        match self {
            LayoutFault::Syntax(fault) => fault.number(),
            LayoutFault::Place(fault) => fault.number(),
            LayoutFault::Cover(fault) => fault.number(),
            LayoutFault::Net(fault) => fault.number(),
            LayoutFault::Memory => 0,
        }
    }

    /// Where the fault shows: an offset in the bytes of the layout, 0 where there is no top, or the number of a terminal.
    pub fn place(&self) -> u64
        ensures { result ≡ (of_layout_fault self.now).place }
    {
        match self {
            LayoutFault::Syntax(fault) => fault.place(),
            LayoutFault::Place(fault) => fault.place(),
            LayoutFault::Cover(fault) => fault.place(),
            LayoutFault::Net(fault) => fault.place(),
            LayoutFault::Memory => 0,
        }
    }
}

impl From<LayoutFault> for Refusal {
    ghost from_gives = { λ fault refusal. refusal ≡ of_layout_fault fault };

    fn from(fault: LayoutFault) -> Refusal {
        Refusal {
            status: 4,
            number: fault.number(),
            place: fault.place(),
        }
    }
}

impl From<NoMemory> for LayoutFault {
    ghost from_gives = { λ _ fault. fault ≡ Memory };

    fn from(_error: NoMemory) -> LayoutFault {
        LayoutFault::Memory
    }
}

impl From<SyntaxFault> for LayoutFault {
    ghost from_gives = { λ fault why. IsToldAs syntax_memory Memory (λ known. Syntax known) fault why };

    fn from(fault: SyntaxFault) -> LayoutFault {
        match fault {
            SyntaxFault::Memory => LayoutFault::Memory,
            _ => LayoutFault::Syntax(fault),
        }
    }
}

impl From<PlaceFault> for LayoutFault {
    ghost from_gives = { λ fault why. IsToldAs place_memory Memory (λ known. Place known) fault why };

    fn from(fault: PlaceFault) -> LayoutFault {
        match fault {
            PlaceFault::Memory => LayoutFault::Memory,
            _ => LayoutFault::Place(fault),
        }
    }
}

impl From<CoverFault> for LayoutFault {
    ghost from_gives = { λ fault why. IsToldAs cover_memory Memory (λ known. Cover known) fault why };

    fn from(fault: CoverFault) -> LayoutFault {
        match fault {
            CoverFault::Memory => LayoutFault::Memory,
            _ => LayoutFault::Cover(fault),
        }
    }
}

impl From<NetFault> for LayoutFault {
    ghost from_gives = { λ fault why. IsToldAs net_memory Memory (λ known. Net known) fault why };

    fn from(fault: NetFault) -> LayoutFault {
        match fault {
            NetFault::Memory => LayoutFault::Memory,
            _ => LayoutFault::Net(fault),
        }
    }
}
