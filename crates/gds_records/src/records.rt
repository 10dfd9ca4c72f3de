ghost use Rattle.std.specs.Prelude.{◌≡◌, ◌^◌, ◌<◌, ◌↔◌, false, List, length, IsTrue, IfOk, IfErr, IfSome, IfNone, OnErr};
ghost use Rattle.gds_records.specs.declared.fault.RecordFault.{RecordFault};
ghost use Rattle.gds_records.specs.RecordSpelling.{Entry};
ghost use Rattle.gds_records.specs.Profile.{IsInProfile};
ghost use Rattle.gds_records.specs.RecordChecks.{IsFaultOf};
ghost use Rattle.gds_records.specs.Split.{End};
ghost use Rattle.gds_records.specs.Reading.{BeginsWith, IsGivenOrLeft, IsLeft, MovesPast, entry_of, left_in, start_of};

use crate::fault::RecordFault;
use crate::kinds::ENDLIB;
use crate::record::Record;
use crate::table::rule_for;
use byteorder::{BigEndian, ByteOrder};
use std::marker::Model;

/// How many bytes a record's head has: two of length, one of kind, one of form.
const HEAD: usize = 4;

/// The record that begins at `at`, the offset of the first of these bytes.
fn record_at<'a>(rest: &'a [u8], at: u32) -> Result<Record<'a>, RecordFault>
    ensures found { IfOk result (BeginsWith at rest.now) }
    ensures fault { IfErr result (IsFaultOf at rest.now) }
{
    if rest.len() < HEAD {
        return Err(RecordFault::Truncated { at });
    }
    let len = BigEndian::read_u16(rest);
    if len < 4 || len % 2 == 1 {
        return Err(RecordFault::BadLength { at, len });
    }
    let end = len as usize;
    if rest.len() < end {
        return Err(RecordFault::Truncated { at });
    }
    let kind = rest[2];
    let form = rest[3];
    let Some(rule) = rule_for(kind, form) else {
        return Err(RecordFault::BadRecord { at, kind, form });
    };
    if !rule.takes_size(end - HEAD) {
        return Err(RecordFault::BadSize { at });
    }
    Ok(Record {
        at,
        kind,
        form,
        body: &rest[HEAD..end],
    })
}

/// A reader of the records of a stream, one after the other up to ENDLIB (GDSII Stream Format Manual, Release 6.0,
/// 'Record Description'). Contracts see its bytes, the offset of the next record, and whether ENDLIB was given.
#[derive(Drop)]
pub struct Records<'a> {
    bytes: &'a [u8],
    at: u32,
    ended: bool,
}

impl<'a> Model for Records<'a> {
    ghost use Rattle.std.specs.Prelude.{◌^◌, ◌<◌, ◌≤◌, length};
    ghost use Rattle.gds_records.specs.Reading.{Reading};

    ghost Value = { Reading };

    ghost view = { λ r. record { bytes = r.bytes.now; at = r.at; ended = r.ended } };

    ghost invariant = { λ r. (r.at ≤ length r.bytes.now) × (length r.bytes.now < 2 ^ 32) };
}

impl<'a> Records<'a> {
    /// A reader of these bytes, fewer than 2^32, from their first byte on.
    pub fn new(bytes: &'a [u8]) -> Records<'a>
        requires { length bytes.now < 2 ^ 32 }
        ensures { result ≡ start_of bytes.now }
    {
        Records {
            bytes,
            at: 0,
            ended: false,
        }
    }

    /// The next record, or `None` once ENDLIB was given, whatever the bytes behind it are. An error says why the bytes
    /// that are left do not begin with a record that is taken, by the first check of `record_checks` that fails:
    /// `Truncated` for a head or a body that is cut, `BadLength` for a length of less than the head or an odd one,
    /// `BadRecord` for a kind that is not in the table of records or that has another form there, and `BadSize` for a
    /// body of a size that the table does not give its kind. What is no record is not passed over: `None` and an error
    /// are given at each further call, too.
    pub fn next(&mut self) -> Result<Option<Record<'a>>, RecordFault>
        // What was still to come is what the call gave, and then what is still to come.
        ensures split { (entries : List Entry) (end : End) →
            IsLeft self.old entries end ↔ IsGivenOrLeft result self.new entries end }

        // What is given is taken by the table of records.
        ensures in_profile { IfOk result (λ o. IfSome o (λ r. IsInProfile (entry_of r))) }

        // When there is no record.
        ensures finished { (result ≡ Ok None) ↔ IsTrue self.old.ended }
        ensures fault { (f : RecordFault) →
            (result ≡ Err f) ↔ ((self.old.ended ≡ false) × IsFaultOf self.old.at (left_in self.old) f) }

        // Where the reader stands afterwards.
        ensures moves_past { IfOk result (λ o. IfSome o (MovesPast self.old self.new)) }
        ensures stays_at_end { IfOk result (λ o. IfNone o (self.new ≡ self.old)) }
        ensures stays_at_fault { OnErr result (self.new ≡ self.old) }
    {
        if self.ended {
            return Ok(None);
        }
        let bytes = self.bytes;
        let at = self.at;
        match record_at(&bytes[at as usize..], at) {
            Err(fault) => Err(fault),
            Ok(found) => {
                self.at = at + (HEAD + found.body.len()) as u32;
                self.ended = found.kind == ENDLIB;
                Ok(Some(found))
            }
        }
    }
}
