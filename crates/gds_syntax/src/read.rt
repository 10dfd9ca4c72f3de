ghost use Rattle.std.specs.Prelude.{◌≤◌, ◌<◌, ◌^◌, length, All, IfOk};
ghost use Rattle.first_refusal.specs.Answers.{Answers};
ghost use Rattle.library_grammar.specs.FirstFault.{BytesComeTo};
ghost use Rattle.lists.specs.Differing.{AreDifferent};
ghost use Rattle.library_model.specs.Names.{names_of};
ghost use Rattle.library_model.specs.Points.{AreWellPointed};
ghost use Rattle.gds_syntax.specs.StreamLimits.{most_bytes};

use super::head::{Head, read_head};
use super::structures::read_structures;
use gds_records::Records;
use library_grammar::fault::SyntaxFault;
use library_model::library::Library;
use lists::Items;
use std::alloc::Global;

/// The library that the bytes say, at most 268,435,456 of them.
///
/// The error is the first fault in the order of the stream: bytes that are no record, a record that may not stand where it does, a
/// structure with the name of an earlier one, or the first of an element's own checks that fails. The checks of an element are made
/// at its first property, or at its end where it has none. Behind ENDLIB the stream may have any bytes.
pub fn read_library(alloc: Global, bytes: &[u8]) -> Result<Library, SyntaxFault>
    requires { length bytes.now ≤ most_bytes }
    ensures answers { Answers SyntaxFault.Memory (BytesComeTo bytes.now) result }

    // What the library has besides. This follows from the bytes.
    ensures names_differ { IfOk result (λ library. AreDifferent (names_of library.structures)) }
    ensures few_structures { IfOk result (λ library. length library.structures < 2 ^ 32) }
    ensures few_elements { IfOk result (λ library. All (λ structure. length structure.elements < 2 ^ 32) library.structures) }
    ensures pointed { IfOk result (λ library. AreWellPointed library.structures) }
{
    let mut records = Records::new(bytes);
    let head = read_head(alloc, &mut records)?;
    let structures = read_structures(alloc, &mut records)?;
    let Head { name, units } = head;
    Ok(Library {
        name,
        units,
        structures: Items::from_vec(structures),
    })
}
