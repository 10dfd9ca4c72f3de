ghost use Rattle.std.specs.Prelude.{◌≡◌, ◌++◌, ◌∷◌, [], List, ℕ, OnOk, OnErr};
ghost use Rattle.report.specs.Gains.{Gains, GainsPrefix};
ghost use Rattle.gauges.specs.declared.pair_row.PairRow.{PairRow};

use super::pair_row::PairRow;
use lists::NoMemory;

/// An object that is told rows of pairs of nets, one after the other, and prints a text of all that it has seen. It may be
/// told the rows of several layers and sizes. A caller may write gauges of its own: whoever prints areas of pairs knows no
/// more of such a gauge than these clauses.
pub trait PairGauge: Drop {
    /// The rows that it has seen, in their order.
    ghost pairs_seen: { Self → List PairRow };

    /// What it prints once it has seen these rows and no others. No call changes it.
    ghost pairs_text: { Self → List PairRow → List ℕ };

    /// Tells it a row, which it has seen from then on. Where it refuses, as for want of memory, it has not seen the row.
    fn note(&mut self, row: &PairRow) -> Result<(), NoMemory>
        ensures seen { OnOk result (pairs_seen self.new ≡ pairs_seen self.old ++ row.now ∷ []) }
        ensures unseen { OnErr result (pairs_seen self.new ≡ pairs_seen self.old) }
        ensures text { pairs_text self.new ≡ pairs_text self.old };

    /// Appends its text of all that it has seen to `into`. Where it refuses, as for want of memory, `into` has gained the
    /// first part of that text, perhaps none of it.
    fn line(&self, into: &mut Vec<u8>) -> Result<(), NoMemory>
        ensures written { OnOk result
            (Gains into.old.items into.new.items (pairs_text self.now (pairs_seen self.now))) }
        ensures prefix { OnErr result
            (GainsPrefix into.old.items into.new.items (pairs_text self.now (pairs_seen self.now))) };
}
