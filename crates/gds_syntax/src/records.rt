ghost use Rattle.std.specs.Prelude.{◌≡◌, ◌≢◌, ◌<◌, ◌^◌, ℕ, List, [], ◌∷◌, ◌++◌, None, Some, IfOk, IfErr, false, length, All, Contains, if◌then◌else◌, ◌==◌};
ghost use Rattle.gds_records.specs.declared.kinds.TheConstants as kind;
ghost use Rattle.gds_records.specs.Reading.{entry_of};
ghost use Rattle.gds_records.specs.RecordSpelling.{Entry};
ghost use Rattle.library_grammar.specs.Places.{next_place};
ghost use Rattle.gds_syntax.specs.inside.LibraryReaders.{IsReady, Standing, Stops, TakesRecord};
ghost use Rattle.library_grammar.specs.Grammar.{head_kinds};

use gds_records::{Record, Records, kinds};
use library_grammar::fault::SyntaxFault;

/// The fault of a record that may not stand where it does.
pub fn unexpected(found: &Record<'_>) -> SyntaxFault
    ensures { result ≡ SyntaxFault.Unexpected found.now.at found.now.kind }
{
    SyntaxFault::Unexpected {
        at: found.at,
        kind: found.kind,
    }
}

/// The next record.
pub fn next_record<'a>(records: &mut Records<'a>) -> Result<Record<'a>, SyntaxFault>
    requires { IsReady records.old }
    ensures found { IfOk result (TakesRecord records.old records.new) }
    ensures faulty { IfErr result (λ fault. (from : Standing) → Stops records.old from fault) }
{
    match records.next() {
        Ok(Some(found)) => Ok(found),
        Ok(None) => unreachable!(),
        Err(fault) => Err(SyntaxFault::Record(fault)),
    }
}

/// The next record, which has to be of this kind.
pub fn expect<'a>(records: &mut Records<'a>, kind: u8) -> Result<Record<'a>, SyntaxFault>
    requires { IsReady records.old }
    ensures found { IfOk result (TakesRecord records.old records.new) }
    ensures of_kind { IfOk result (λ r. r.kind ≡ kind) }
    ensures faulty { IfErr result (λ fault. (from : Standing)
        → ((other : ℕ) → other ≢ kind → next_place from.place other ≡ None) → Stops records.old from fault) }
{
    let found = next_record(records)?;
    if found.kind != kind {
        return Err(unexpected(&found));
    }
    Ok(found)
}
