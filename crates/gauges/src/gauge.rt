ghost use Rattle.std.specs.Prelude.{◌≡◌, ◌++◌, ◌∷◌, [], List, ℕ, OnOk, OnErr};
ghost use Rattle.report.specs.Gains.{Gains, GainsPrefix};
ghost use Rattle.questions.specs.declared.row.Row.{Row};

use lists::NoMemory;
use questions::Row;

/// An object that is told the rows of a report, one after the other, and prints a text of all that it has seen. It may be
/// told the rows of several reports. A caller may write gauges of its own: whoever prints a report knows no more of a gauge
/// than these clauses.
pub trait Gauge: Drop {
    /// The rows that it has seen, in their order.
    ghost seen: { Self → List Row };

    /// What it prints once it has seen these rows and no others. No call changes it.
    ghost text: { Self → List Row → List ℕ };

    /// Tells it a row, which it has seen from then on. Where it refuses, as for want of memory, it has not seen the row.
    fn note(&mut self, row: &Row) -> Result<(), NoMemory>
        ensures seen { OnOk result (seen self.new ≡ seen self.old ++ row.now ∷ []) }
        ensures unseen { OnErr result (seen self.new ≡ seen self.old) }
        ensures text { text self.new ≡ text self.old };

    /// Appends its text of all that it has seen to `into`. Where it refuses, as for want of memory, `into` has gained the
    /// first part of that text, perhaps none of it.
    fn line(&self, into: &mut Vec<u8>) -> Result<(), NoMemory>
        ensures written { OnOk result (Gains into.old.items into.new.items (text self.now (seen self.now))) }
        ensures prefix { OnErr result (GainsPrefix into.old.items into.new.items (text self.now (seen self.now))) };
}
