ghost use Rattle.std.specs.Prelude.{◌≡◌, [], ◌∷◌, ◌++◌, ℕ, List, IfOk, IfErr, option_to_list};
ghost use Rattle.first_refusal.specs.Answers.{Answers};
ghost use Rattle.gds_records.specs.Reading.{entry_of};
ghost use Rattle.gds_records.specs.RecordSpelling.{Entry};
ghost use Rattle.library_grammar.specs.ElementForms.{Opens};
ghost use Rattle.gds_syntax.specs.ElementKinds.{form_for};
ghost use Rattle.library_grammar.specs.Libraries.{behind};
ghost use Rattle.library_grammar.specs.Places.{among_own, behind_attribute, behind_strname};
ghost use Rattle.gds_syntax.specs.inside.LibraryReaders.{IsAt, IsFirstBehind, IsReady, ReadsElement, ReadsElements, ReadsElementsSoFar, ReadsOrStops, ReadsOwn, ReadsProperties, Stops, StopsAt, standing};

use super::element_kind::ElementKind;
use super::kept::kept_of;
use super::own_records::OwnRecords;
use super::records::{expect, next_record, unexpected};
use gds_records::{Record, Records, kinds};
use library_grammar::fault::SyntaxFault;
use library_model::element::Element;
use lists::NoMemory;
use std::alloc::Global;

/// Reads the own records of an element, and gives the record behind them, which ends them.
fn read_own<'a>(
    records: &mut Records<'a>,
    kind: ElementKind,
    own: &mut OwnRecords<'a>,
) -> Result<Record<'a>, SyntaxFault>
    requires ready { IsReady records.old }
    requires none { own.old ≡ [] }
    ensures { Answers SyntaxFault.Memory (ReadsOrStops (ReadsOwn records.old records.new (form_for kind) own.new)
        (StopsAt records.old (among_own (form_for kind) []))) result }
{
    let mut found = next_record(records)?;
    while kind.owns(found.kind) && !own.has(found.kind) {
        own.push(found)?;
        found = next_record(records)?;
    }
    if found.kind != kinds::PROPATTR && found.kind != kinds::ENDEL {
        return Err(unexpected(&found));
    }
    Ok(found)
}

/// Reads the properties of an element behind the first PROPATTR, and its end.
#[tactic(auto, using(crate::proofs::ReaderLaws::has_less_left))]
fn read_properties(records: &mut Records<'_>) -> Result<(), SyntaxFault>
    requires { IsReady records.old }
    ensures read { IfOk result (λ _. ReadsProperties records.old records.new) }
    ensures faulty { IfErr result (λ fault. (names : List (List ℕ)) → Stops records.old (standing behind_attribute names) fault) }
{
    let _text = expect(records, kinds::PROPVALUE)?;
    let mut found = next_record(records)?;
    while found.kind == kinds::PROPATTR {
        let _text = expect(records, kinds::PROPVALUE)?;
        found = next_record(records)?;
    }
    if found.kind != kinds::ENDEL {
        return Err(unexpected(&found));
    }
    Ok(())
}

/// Reads an element behind the record that opens it, and gives what is kept of it. The list of own records is used for those of
/// this element.
fn read_element<'a>(
    alloc: Global,
    records: &mut Records<'a>,
    opening: &Record<'a>,
    kind: ElementKind,
    own: &mut OwnRecords<'a>,
) -> Result<Option<Element>, SyntaxFault>
    requires ready { IsReady records.old }
    requires opens { Opens opening.now.kind (form_for kind) }
    ensures { Answers SyntaxFault.Memory (ReadsOrStops (ReadsElement records.old records.new opening.now (form_for kind))
        (λ fault. (earlier : List Entry) (names : List (List ℕ)) → opening.now.at ≡ behind 0 earlier
        → IsAt records.old (earlier ++ entry_of opening.now ∷ []) (standing (among_own (form_for kind) []) names)
        → IsFirstBehind (earlier ++ entry_of opening.now ∷ []) records.old fault)) result }
{
    own.clear();
    let closing = read_own(records, kind, own)?;
    let kept = kept_of(alloc, opening.at, kind, own)?;
    if closing.kind == kinds::PROPATTR {
        read_properties(records)?;
    }
    Ok(kept)
}

/// The first record behind the name of a structure, or behind its class if it has one.
fn behind_class<'a>(records: &mut Records<'a>) -> Result<Record<'a>, SyntaxFault>
    requires { IsReady records.old }
    ensures found { IfOk result (ReadsElementsSoFar records.old records.new []) }
    ensures faulty { IfErr result (λ fault. (names : List (List ℕ)) → Stops records.old (standing behind_strname names) fault) }
{
    let mut found = next_record(records)?;
    if found.kind == kinds::STRCLASS {
        found = next_record(records)?;
    }
    Ok(found)
}

/// Puts what is kept of an element behind the others. The first gets room for itself alone, since most structures of a deep
/// hierarchy have one element.
fn keep(elements: &mut Vec<Element>, kept: Option<Element>) -> Result<(), NoMemory>
    ensures { IfOk result (λ _. elements.new.items ≡ elements.old.items ++ option_to_list kept) }
{
    if let Some(element) = kept {
        if elements.is_empty() {
            elements.reserve_exact(1)?;
        }
        elements.push(element)?;
    }
    Ok(())
}

/// Reads the elements of a structure behind its name, and its end.
pub fn read_elements<'a>(
    alloc: Global,
    records: &mut Records<'a>,
    own: &mut OwnRecords<'a>,
) -> Result<Vec<Element>, SyntaxFault>
    requires { IsReady records.old }
    ensures { Answers SyntaxFault.Memory (ReadsOrStops (λ elements. ReadsElements records.old records.new elements.items)
        (StopsAt records.old behind_strname)) result }
{
    let mut elements = Vec::new(alloc);
    let mut found = behind_class(records)?;
    while found.kind != kinds::ENDSTR {
        let Some(kind) = ElementKind::opened_by(found.kind) else {
            return Err(unexpected(&found));
        };
        let kept = read_element(alloc, records, &found, kind, own)?;
        keep(&mut elements, kept)?;
        found = next_record(records)?;
    }
    Ok(elements)
}
