#![tactic(auto, using(crate::specs::StageAnswers::as_memory, crate::specs::StageAnswers::as_known))]

ghost use Rattle.std.specs.Prelude.{◌≡◌};
ghost use Rattle.command_line.specs.declared.fault.WordsFault.TheVariants.{Memory as words_memory};
ghost use Rattle.layer_map.specs.declared.fault.MapFault.TheVariants.{Memory as map_memory};
ghost use Rattle.run_inputs.specs.StageAnswers.{IsToldAs};
ghost use Rattle.run_inputs.specs.Refusals.{of_layout_fault, of_map_fault, usage};
ghost use Rattle.run_inputs.specs.declared.layout_fault.LayoutFault.TheVariants.{Memory as layout_memory};
ghost use Rattle.run_inputs.specs.declared.unreported.Unreported.TheVariants.{Memory, Refused};

use super::layout_fault::LayoutFault;
use super::refusal::{Refusal, USAGE};
use command_line::WordsFault;
use layer_map::MapFault;
use lists::NoMemory;

/// Why nothing was found.
#[derive(Clone, Copy)]
pub enum Unreported {
    /// The input is refused.
    Refused(Refusal),
    /// A file is missing or could not be read.
    FilesFailed,
    /// Out of memory.
    Memory,
}

impl From<NoMemory> for Unreported {
    ghost from_gives = { λ _ why. why ≡ Memory };

    fn from(_error: NoMemory) -> Unreported {
        Unreported::Memory
    }
}

impl From<Refusal> for Unreported {
    ghost from_gives = { λ refusal why. why ≡ Refused refusal };

    fn from(refusal: Refusal) -> Unreported {
        Unreported::Refused(refusal)
    }
}

impl From<WordsFault> for Unreported {
    ghost from_gives = { λ fault why. IsToldAs words_memory Memory (λ _. Refused usage) fault why };

    fn from(fault: WordsFault) -> Unreported {
        match fault {
            WordsFault::Memory => Unreported::Memory,
            WordsFault::Usage => Unreported::Refused(USAGE),
        }
    }
}

impl From<MapFault> for Unreported {
    ghost from_gives = { λ fault why. IsToldAs map_memory Memory (λ known. Refused (of_map_fault known)) fault why };

    fn from(fault: MapFault) -> Unreported {
        match fault {
            MapFault::Memory => Unreported::Memory,
            _ => Unreported::Refused(Refusal {
                status: 3,
                number: fault.number(),
                place: fault.place(),
            }),
        }
    }
}

impl From<LayoutFault> for Unreported {
    ghost from_gives = { λ fault why. IsToldAs layout_memory Memory (λ known. Refused (of_layout_fault known)) fault why };

    fn from(fault: LayoutFault) -> Unreported {
        match fault {
            LayoutFault::Memory => Unreported::Memory,
            _ => Unreported::Refused(Refusal::from(fault)),
        }
    }
}
