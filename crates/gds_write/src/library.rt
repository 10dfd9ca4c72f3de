ghost use Rattle.std.specs.Prelude.{◌≡◌, ◌++◌, IfOk};
ghost use Rattle.gds_records.specs.RecordSpelling.{spellings};
ghost use Rattle.gds_write.specs.WellFormed.{IsWellFormed, IsWritableStructure};
ghost use Rattle.gds_write.specs.Written.{written, written_head, written_structure};

use super::bodies::{write_bare, write_date, write_record, write_text, write_unsigned};
use super::elements::write_element;
use gds_records::forms::EIGHT_BYTE_REALS;
use gds_records::kinds;
use library_model::{Library, Structure};
use lists::NoMemory;
use std::alloc::Global;

/// The version of the stream format: Release 6.
const VERSION: u16 = 600;

/// The bytes of the library: HEADER, BGNLIB, LIBNAME, UNITS, the structures in their order, and ENDLIB. Dates are zero bytes.
/// A record is left out where a stream without it says the same: a length or kind of ends of 0, and a turn that changes nothing.
///
/// The library must be well formed: names of at most 65,530 bytes that do not end with a zero byte, no two structures of one
/// name, at most 8,191 points a shape, boundaries and boxes of at least four points of which the last is the first, paths of at
/// least one, and arrays whose columns and rows end within the coordinates of four bytes. By the law `written_reads` the bytes
/// come to the same library, with its offsets in them. They may be more than the 268,435,456 that are read.
///
/// The only error is that no memory is left.
pub fn write_library(alloc: Global, library: &Library) -> Result<Vec<u8>, NoMemory>
    requires { IsWellFormed library.now }
    ensures { IfOk result (λ bytes. bytes.items ≡ spellings (written library.now)) }
{
    let mut out = Vec::new(alloc);
    write_library_head(&mut out, library)?;
    for structure in library.structures.as_slice() {
        write_structure(&mut out, structure)?;
    }
    write_bare(&mut out, kinds::ENDLIB)?;
    Ok(out)
}

/// What stands in front of the structures.
fn write_library_head(out: &mut Vec<u8>, library: &Library) -> Result<(), NoMemory>
    requires { IsWellFormed library.now }
    ensures { IfOk result (λ _. out.new.items ≡ out.old.items ++ spellings (written_head library.now)) }
{
    write_unsigned(out, kinds::HEADER, VERSION)?;
    write_date(out, kinds::BGNLIB)?;
    write_text(out, kinds::LIBNAME, library.name.as_slice())?;
    write_record(out, kinds::UNITS, EIGHT_BYTE_REALS, &library.units)
}

/// A structure.
fn write_structure(out: &mut Vec<u8>, structure: &Structure) -> Result<(), NoMemory>
    requires { IsWritableStructure structure.now }
    ensures { IfOk result (λ _. out.new.items ≡ out.old.items ++ spellings (written_structure structure.now)) }
{
    write_date(out, kinds::BGNSTR)?;
    write_text(out, kinds::STRNAME, structure.name.as_slice())?;
    for element in structure.elements.as_slice() {
        write_element(out, element)?;
    }
    write_bare(out, kinds::ENDSTR)
}
