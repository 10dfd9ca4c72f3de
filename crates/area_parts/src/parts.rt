ghost use Rattle.std.specs.Prelude.{◌≡◌, ◌≤◌, All, length};
ghost use Rattle.questions.specs.Questions.{IsAskable};
ghost use Rattle.questions.specs.declared.row.TheConstants.{MOST_ROWS};

use fault_model::Island;
use geo_core::{Labelled, RectList};
use lists::Items;
use questions::Question;

/// The pieces of a metal, labelled.
pub type MetalPieces = Items<Labelled>;

/// The islands of a metal that opens are counted from.
pub type MetalIslands = Items<Island>;

/// What all areas of a layout are counted from.
#[derive(Drop)]
pub struct Parts {
    /// What is asked, in the order of the report.
    pub questions: Items<Question>,
    /// The pieces of each metal, labelled by their nets.
    pub metals: Items<MetalPieces>,
    /// The islands of each metal that have two terminals or more, each once.
    pub islands: Items<MetalIslands>,
    /// The boxes of each cut's via clusters, one for each cluster.
    pub cuts: Items<RectList>,
    pub ghost islands_each: { length islands ≡ length metals },
    pub ghost askable: { All (IsAskable (length metals) (length cuts)) questions },
    pub ghost few: { length questions ≤ MOST_ROWS },
}

/// Questions, and the parts of which they are asked.
#[derive(Clone, Copy)]
pub struct Asked<'a> {
    pub parts: &'a Parts,
    pub questions: &'a [Question],
    pub ghost askable: { All (IsAskable (length parts.now.metals) (length parts.now.cuts)) questions.now },
    pub ghost few: { length questions.now ≤ MOST_ROWS },
}

impl Parts {
    /// The questions of the parts.
    pub fn asked(&self) -> Asked<'_>
        ensures parts { result.parts.now ≡ self.now }
        ensures questions { result.questions.now ≡ self.now.questions }
    {
        Asked {
            parts: self,
            questions: self.questions.as_slice(),
        }
    }
}
