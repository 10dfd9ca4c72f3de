ghost use Rattle.std.specs.Prelude.{◌≡◌, ◌↔◌, [], ◌∷◌, ◌++◌, IsTrue, Contains, IfOk, IfSome, option_map};
ghost use Rattle.gds_records.specs.Fields.{IsText};
ghost use Rattle.gds_records.specs.Profile.{IsInProfile};
ghost use Rattle.gds_records.specs.Reading.{entry_of};
ghost use Rattle.lists.specs.ByteLists.{AreBytes};
ghost use Rattle.library_grammar.specs.OwnRecords.{body_of, field, long_of, short_of, unsigned_of};
ghost use Rattle.library_grammar.specs.Grammar.{kinds_of};
ghost use Rattle.library_grammar.specs.Sizes.{BodiesHave};

use gds_records::{Record, i16_at, i32_at, text, u16_at};
use lists::NoMemory;
use std::alloc::Global;
use std::marker::Model;

/// The own records of an element, in the order of the stream. Contracts see the list of their contents.
#[derive(Drop)]
pub struct OwnRecords<'a> {
    records: Vec<Record<'a>>,
}

impl<'a> Model for OwnRecords<'a> {
    ghost use Rattle.std.specs.Prelude.{List, map, All};
    ghost use Rattle.gds_records.specs.Profile.{IsInProfile};
    ghost use Rattle.gds_records.specs.Reading.{entry_of};
    ghost use Rattle.gds_records.specs.RecordSpelling.{Entry};

    ghost Value = { List Entry };

    ghost view = { λ own. map entry_of own.records.items };

    ghost invariant = { λ own. All (λ r. IsInProfile (entry_of r)) own.records.items };
}

impl<'a> OwnRecords<'a> {
    /// No records yet.
    pub fn new(alloc: Global) -> OwnRecords<'a>
        ensures { result ≡ [] }
    {
        OwnRecords {
            records: Vec::new(alloc),
        }
    }

    /// Lets all records go.
    pub fn clear(&mut self)
        ensures { self.new ≡ [] }
    {
        self.records.clear();
    }

    /// Takes one record more.
    pub fn push(&mut self, found: Record<'a>) -> Result<(), NoMemory>
        requires { IsInProfile (entry_of found) }
        ensures { IfOk result (λ _. self.new ≡ self.old ++ entry_of found.entry ∷ []) }
    {
        self.records.push(found)?;
        Ok(())
    }

    /// The record of this kind, if there is one: the first, where there are several.
    pub fn find(&self, kind: u8) -> Option<Record<'a>>
        ensures body { option_map (λ r. r.body.now) result ≡ field kind self.now }
        ensures of_kind { IfSome result (λ r. r.kind ≡ kind) }
        ensures in_profile { IfSome result (λ r. IsInProfile (entry_of r)) }
    {
        for record in self.records.as_slice() {
            if record.kind == kind {
                return Some(*record);
            }
        }
        None
    }

    /// Whether there is a record of this kind.
    #[tactic(auto, using(crate::proofs::OwnLaws::has_kind_where_found))]
    pub fn has(&self, kind: u8) -> bool
        ensures { IsTrue result ↔ Contains (kinds_of self.now) kind }
    {
        self.find(kind).is_some()
    }

    /// The number of two bytes without sign in the record of this kind, or 0 where there is none.
    pub fn u16_in(&self, kind: u8) -> u16
        requires { BodiesHave 2 kind }
        ensures { result ≡ unsigned_of kind self.now }
    {
        match self.find(kind) {
            Some(found) => u16_at(&found, 0),
            None => 0,
        }
    }

    /// The number of two bytes with sign in the record of this kind, or 0 where there is none.
    pub fn i16_in(&self, kind: u8) -> i16
        requires { BodiesHave 2 kind }
        ensures { result ≡ short_of kind self.now }
    {
        match self.find(kind) {
            Some(found) => i16_at(&found, 0),
            None => 0,
        }
    }

    /// The number of four bytes with sign in the record of this kind, or 0 where there is none.
    pub fn i32_in(&self, kind: u8) -> i32
        requires { BodiesHave 4 kind }
        ensures { result ≡ long_of kind self.now }
    {
        match self.find(kind) {
            Some(found) => i32_at(&found, 0),
            None => 0,
        }
    }

    /// The text in the record of this kind, or no text where there is none.
    pub fn text_in(&self, kind: u8) -> &'a [u8]
        ensures text { IsText (body_of kind self.now) result.now }
        ensures bytes { AreBytes result.now }
    {
        match self.find(kind) {
            Some(found) => text(&found),
            None => &[],
        }
    }
}
