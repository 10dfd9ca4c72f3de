ghost use Rattle.std.specs.Prelude.{◌≡◌, ◌≤◌, [], ◌∷◌, length};
ghost use Rattle.first_refusal.specs.Answers.{Answers};
ghost use Rattle.gds_records.specs.Reading.{entry_of};
ghost use Rattle.library_grammar.specs.Grammar.{IsOfKind};
ghost use Rattle.library_grammar.specs.Libraries.{behind};
ghost use Rattle.gds_records.specs.declared.kinds.TheConstants as kind;
ghost use Rattle.library_grammar.specs.Places.{before_strname, between_structures};
ghost use Rattle.gds_syntax.specs.inside.LibraryReaders.{IsReady, ReadsOrStops, ReadsStructure, ReadsStructures, Stops, standing};

use super::elements::read_elements;
use super::own_records::OwnRecords;
use super::records::{expect, next_record, unexpected};
use gds_records::{Record, Records, kinds, text};
use library_grammar::fault::SyntaxFault;
use library_model::library::Structure;
use library_model::name_index::NameIndex;
use lists::{Items, Name};
use std::alloc::Global;

/// Reads a structure behind the record that opens it, and puts its name behind those of the structures before it.
fn read_structure<'a>(
    alloc: Global,
    records: &mut Records<'a>,
    opening: &Record<'a>,
    names: &mut NameIndex<'a>,
    own: &mut OwnRecords<'a>,
) -> Result<Structure, SyntaxFault>
    requires ready { IsReady records.old }
    requires opens { IsOfKind kind.BGNSTR (entry_of opening.now) }
    requires place { records.old.at ≡ behind opening.now.at (entry_of opening.now ∷ []) }
    requires few { length names.old ≤ records.old.at }
    ensures { Answers SyntaxFault.Memory (ReadsOrStops (ReadsStructure records.old records.new names.old names.new opening.now)
        (Stops records.old (standing before_strname names.old))) result }
{
    let found = expect(records, kinds::STRNAME)?;
    let name = text(&found);
    if !names.add(name)? {
        return Err(SyntaxFault::RepeatedStructure { at: found.at });
    }
    let name = Vec::from_slice(alloc, name)?;
    let elements = read_elements(alloc, records, own)?;
    Ok(Structure {
        at: opening.at,
        name: Name::from_vec(name),
        elements: Items::from_vec(elements),
    })
}

/// Reads the structures of a library behind its head, and its end. The index of names has none yet.
fn collect_structures<'a>(
    alloc: Global,
    records: &mut Records<'a>,
    names: &mut NameIndex<'a>,
    own: &mut OwnRecords<'a>,
) -> Result<Vec<Structure>, SyntaxFault>
    requires ready { IsReady records.old }
    requires no_names { names.old ≡ [] }
    ensures { Answers SyntaxFault.Memory (ReadsOrStops (λ structures. ReadsStructures records.old records.new structures.items)
        (Stops records.old (standing between_structures []))) result }
{
    let mut found = next_record(records)?;
    let mut structures = Vec::new(alloc);
    while found.kind == kinds::BGNSTR {
        let structure = read_structure(alloc, records, &found, names, own)?;
        structures.push(structure)?;
        found = next_record(records)?;
    }
    if found.kind != kinds::ENDLIB {
        return Err(unexpected(&found));
    }
    Ok(structures)
}

/// Reads the structures of a library behind its head, and its end.
pub fn read_structures(
    alloc: Global,
    records: &mut Records<'_>,
) -> Result<Vec<Structure>, SyntaxFault>
    requires { IsReady records.old }
    ensures { Answers SyntaxFault.Memory (ReadsOrStops (λ structures. ReadsStructures records.old records.new structures.items)
        (Stops records.old (standing between_structures []))) result }
{
    let mut names = NameIndex::new(alloc);
    let mut own = OwnRecords::new(alloc);
    collect_structures(alloc, records, &mut names, &mut own)
}
