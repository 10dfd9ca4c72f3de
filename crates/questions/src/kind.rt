ghost use Rattle.std.specs.Prelude.{Some};
ghost use Rattle.questions.specs.KindTexts.{kind_text};

use std::fmt;

/// What a defect does to the wires and vias under it.
#[derive(Clone, Copy, PartialEq, Eq)]
pub enum Kind {
    /// It touches two nets of a metal.
    Short,
    /// It parts two terminals that a metal joins.
    Open,
    /// It covers a whole cluster of contacts.
    Via,
}

impl fmt::Display for Kind {
    ghost output = { λ kind. Some (kind_text kind) };

    fn fmt<W: fmt::Write>(&self, f: &mut fmt::Formatter<W>) -> fmt::Result {
        f.write_str(match self {
            Kind::Short => "short",
            Kind::Open => "open",
            Kind::Via => "via",
        })
    }
}
