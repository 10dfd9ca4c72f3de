ghost use Rattle.std.specs.Prelude.{◌≡◌, ◌↔◌, [], IsTrue, Contains, IfOk, IfErr, length};
ghost use Rattle.first_refusal.specs.Answers.{Answers};
ghost use Rattle.lists.specs.ByteLists.{AreBytes};
ghost use Rattle.library_grammar.specs.Places.{Place, before_header};
ghost use Rattle.gds_syntax.specs.inside.LibraryReaders.{IsHeadPlace, IsReady, ReadsHead, ReadsHeadRecords, ReadsOrStops, Standing, Stops, standing};
ghost use Rattle.library_grammar.specs.Grammar.{head_kinds};

use super::records::{expect, next_record, unexpected};
use gds_records::{Record, Records, kinds, text};
use library_grammar::fault::SyntaxFault;
use lists::Name;
use std::alloc::Global;

/// What a library's head says: its name, and its units as they stand there.
#[derive(Drop)]
pub struct Head {
    pub name: Name,
    pub units: [u8; 16],
    pub ghost name_fits: { AreBytes name },
    pub ghost units_count: { length units ≡ 16 },
    pub ghost units_fit: { AreBytes units },
}

/// The kinds of records that may stand in the head, any number of them in any order.
const HEAD_KINDS: &[u8] = &[
    kinds::LIBDIRSIZE,
    kinds::SRFNAME,
    kinds::LIBSECUR,
    kinds::REFLIBS,
    kinds::FONTS,
    kinds::ATTRTABLE,
    kinds::GENERATIONS,
    kinds::FORMAT,
    kinds::MASK,
    kinds::ENDMASKS,
];

/// Whether records of this kind may stand in the head.
fn is_head_kind(kind: u8) -> bool
    ensures { IsTrue result ↔ Contains head_kinds kind }
{
    HEAD_KINDS.contains(&kind)
}

/// The next record of this kind, behind records of the head.
#[tactic(auto, using(crate::proofs::ReaderLaws::one_less_left))]
fn behind_head_records<'a>(records: &mut Records<'a>, kind: u8) -> Result<Record<'a>, SyntaxFault>
    requires { IsReady records.old }
    ensures found { IfOk result (ReadsHeadRecords kind records.old records.new) }
    ensures faulty { IfErr result (λ fault. (from : Standing) (to : Place) → IsHeadPlace from.place kind to → Stops records.old from fault) }
{
    let mut found = next_record(records)?;
    while found.kind != kind {
        if !is_head_kind(found.kind) {
            return Err(unexpected(&found));
        }
        found = next_record(records)?;
    }
    Ok(found)
}

/// The head of a library, up to its structures.
pub fn read_head(alloc: Global, records: &mut Records<'_>) -> Result<Head, SyntaxFault>
    requires { IsReady records.old }
    ensures { Answers SyntaxFault.Memory (ReadsOrStops (λ head. ReadsHead records.old records.new head.name head.units)
        (Stops records.old (standing before_header []))) result }
{
    let _version = expect(records, kinds::HEADER)?;
    let _dates = expect(records, kinds::BGNLIB)?;
    let name = behind_head_records(records, kinds::LIBNAME)?;
    let name = Vec::from_slice(alloc, text(&name))?;
    let found = behind_head_records(records, kinds::UNITS)?;
    let mut units = [0; 16];
    units.copy_from_slice(found.body);
    Ok(Head {
        name: Name::from_vec(name),
        units,
    })
}
