//! The table of records, as a reader looks a kind up in it.

ghost use Rattle.std.specs.Prelude.{◌≡◌, ◌↔◌, IsTrue, IfSome, IfNone};
ghost use Rattle.gds_records.specs.Table.{IsListed, IsRuleFor, TakesForm, TakesSize, rule_at};

use crate::forms::{BITS, EIGHT_BYTE_REALS, FOUR_BYTE_NUMBERS, NO_DATA, TEXT, TWO_BYTE_NUMBERS};

/// How many bytes a body may have.
#[derive(Clone, Copy)]
pub(crate) enum Sizes {
    /// As many as a record can have.
    Any,
    /// This many alone.
    Exactly(usize),
    /// Those of whole points.
    MultipleOfEight,
}

/// What the table asks of the records of a kind.
#[derive(Clone, Copy)]
pub(crate) struct Rule {
    /// The one form that their data may have, or `None` where it is not looked at.
    pub form: Option<u8>,
    /// The sizes that their bodies may have.
    pub sizes: Sizes,
}

const EMPTY: Rule = Rule {
    form: Some(NO_DATA),
    sizes: Sizes::Exactly(0),
};

const ANY_BITS: Rule = Rule {
    form: Some(BITS),
    sizes: Sizes::Any,
};

const SIXTEEN_BITS: Rule = Rule {
    form: Some(BITS),
    sizes: Sizes::Exactly(2),
};

const ANY_NUMBERS: Rule = Rule {
    form: Some(TWO_BYTE_NUMBERS),
    sizes: Sizes::Any,
};

const ONE_NUMBER: Rule = Rule {
    form: Some(TWO_BYTE_NUMBERS),
    sizes: Sizes::Exactly(2),
};

const TWO_NUMBERS: Rule = Rule {
    form: Some(TWO_BYTE_NUMBERS),
    sizes: Sizes::Exactly(4),
};

const ANY_LONG_NUMBERS: Rule = Rule {
    form: Some(FOUR_BYTE_NUMBERS),
    sizes: Sizes::Any,
};

const ONE_LONG_NUMBER: Rule = Rule {
    form: Some(FOUR_BYTE_NUMBERS),
    sizes: Sizes::Exactly(4),
};

const POINTS: Rule = Rule {
    form: Some(FOUR_BYTE_NUMBERS),
    sizes: Sizes::MultipleOfEight,
};

const ONE_REAL: Rule = Rule {
    form: Some(EIGHT_BYTE_REALS),
    sizes: Sizes::Exactly(8),
};

const TWO_REALS: Rule = Rule {
    form: Some(EIGHT_BYTE_REALS),
    sizes: Sizes::Exactly(16),
};

const ANY_TEXT: Rule = Rule {
    form: Some(TEXT),
    sizes: Sizes::Any,
};

const ANY_FORM: Rule = Rule {
    form: None,
    sizes: Sizes::Any,
};

/// The rule of each kind, at the kind's number.
static RULES: [Option<Rule>; 60] = [
    Some(ANY_NUMBERS), // HEADER
    Some(ANY_NUMBERS), // BGNLIB
    Some(ANY_TEXT), // LIBNAME
    Some(TWO_REALS), // UNITS
    Some(EMPTY), // ENDLIB
    Some(ANY_NUMBERS), // BGNSTR
    Some(ANY_TEXT), // STRNAME
    Some(EMPTY), // ENDSTR
    Some(EMPTY), // BOUNDARY
    Some(EMPTY), // PATH
    Some(EMPTY), // SREF
    Some(EMPTY), // AREF
    Some(EMPTY), // TEXT
    Some(ONE_NUMBER), // LAYER
    Some(ONE_NUMBER), // DATATYPE
    Some(ONE_LONG_NUMBER), // WIDTH
    Some(POINTS), // XY
    Some(EMPTY), // ENDEL
    Some(ANY_TEXT), // SNAME
    Some(TWO_NUMBERS), // COLROW
    None,
    Some(EMPTY), // NODE
    Some(ANY_NUMBERS), // TEXTTYPE
    Some(ANY_BITS), // PRESENTATION
    None,
    Some(ANY_TEXT), // STRING
    Some(SIXTEEN_BITS), // STRANS
    Some(ONE_REAL), // MAG
    Some(ONE_REAL), // ANGLE
    None,
    None,
    Some(ANY_TEXT), // REFLIBS
    Some(ANY_TEXT), // FONTS
    Some(ONE_NUMBER), // PATHTYPE
    Some(ANY_NUMBERS), // GENERATIONS
    Some(ANY_TEXT), // ATTRTABLE
    None,
    None,
    Some(ANY_BITS), // ELFLAGS
    None,
    None,
    None,
    Some(ANY_NUMBERS), // NODETYPE
    Some(ANY_NUMBERS), // PROPATTR
    Some(ANY_TEXT), // PROPVALUE
    Some(EMPTY), // BOX
    Some(ONE_NUMBER), // BOXTYPE
    Some(ANY_LONG_NUMBERS), // PLEX
    Some(ONE_LONG_NUMBER), // BGNEXTN
    Some(ONE_LONG_NUMBER), // ENDEXTN
    None,
    None,
    Some(ANY_FORM), // STRCLASS
    None,
    Some(ANY_NUMBERS), // FORMAT
    Some(ANY_TEXT), // MASK
    Some(EMPTY), // ENDMASKS
    Some(ANY_FORM), // LIBDIRSIZE
    Some(ANY_FORM), // SRFNAME
    Some(ANY_FORM), // LIBSECUR
];

/// The rule of a kind, where the table has one.
fn rule_of(kind: u8) -> Option<Rule>
    ensures { result ≡ rule_at kind }
{
    let number = usize::from(kind);
    if number < RULES.len() {
        RULES[number]
    } else {
        None
    }
}

/// The rule of a kind, where the table has one that takes this form.
pub(crate) fn rule_for(kind: u8, form: u8) -> Option<Rule>
    ensures some { IfSome result (IsRuleFor kind form) }
    ensures none { IfNone result (IsListed kind form → ⊥) }
{
    let rule = rule_of(kind)?;
    if rule.takes_form(form) {
        Some(rule)
    } else {
        None
    }
}

impl Rule {
    /// Whether data of this form is taken.
    fn takes_form(self, form: u8) -> bool
        ensures { IsTrue result ↔ TakesForm self.form form }
    {
        match self.form {
            Some(only) => form == only,
            None => true,
        }
    }

    /// Whether a body of this size is taken.
    pub fn takes_size(self, size: usize) -> bool
        ensures { IsTrue result ↔ TakesSize self.sizes size }
    {
        match self.sizes {
            Sizes::Any => true,
            Sizes::Exactly(only) => size == only,
            Sizes::MultipleOfEight => size % 8 == 0,
        }
    }
}
