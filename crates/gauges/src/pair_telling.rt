ghost use Rattle.std.specs.Prelude.{◌≡◌, ◌∷◌, [], OnOk, OnErr};
ghost use Rattle.report.specs.Gains.{Gains, GainsPrefix};
ghost use Rattle.gauges.specs.GaugeViews.{AreTold, AreToldPrefixes, IsTold, text_of, texts_of, view_of, views_of};

use super::pair_gauge::PairGauge;
use super::pair_row::PairRow;
use lists::NoMemory;

/// Tells each gauge a row, one gauge after the other, and stops where a gauge refuses it. Those before that one have then seen
/// the row after what they had seen, and the others have not.
pub fn tell_pair_row(gauges: &mut Vec<Box<dyn PairGauge>>, row: &PairRow) -> Result<(), NoMemory>
    ensures told { OnOk result (AreTold (row.now ∷ [])
        (views_of pairs_seen pairs_text gauges.old.items) (views_of pairs_seen pairs_text gauges.new.items)) }
    ensures prefixes { OnErr result (AreToldPrefixes (row.now ∷ [])
        (views_of pairs_seen pairs_text gauges.old.items) (views_of pairs_seen pairs_text gauges.new.items)) }
{
    for gauge in gauges.iter_mut() {
        tell_gauge(gauge, row)?;
    }
    Ok(())
}

/// Tells a gauge a row: all that the loop over gauges has to know of the object in the box.
fn tell_gauge(gauge: &mut Box<dyn PairGauge>, row: &PairRow) -> Result<(), NoMemory>
    ensures told { OnOk result
        (IsTold (row.now ∷ []) (view_of pairs_seen pairs_text gauge.old) (view_of pairs_seen pairs_text gauge.new)) }
    ensures untold { OnErr result
        (IsTold [] (view_of pairs_seen pairs_text gauge.old) (view_of pairs_seen pairs_text gauge.new)) }
{
    gauge.note(row)
}

/// Appends what each gauge prints of all that it has seen to `into`, in the order of the gauges. Where a gauge refuses,
/// `into` has gained the first part of these texts, perhaps none of it.
pub fn append_pair_texts(gauges: &[Box<dyn PairGauge>], into: &mut Vec<u8>) -> Result<(), NoMemory>
    ensures written { OnOk result
        (Gains into.old.items into.new.items (texts_of (views_of pairs_seen pairs_text gauges.now))) }
    ensures prefix { OnErr result
        (GainsPrefix into.old.items into.new.items (texts_of (views_of pairs_seen pairs_text gauges.now))) }
{
    for gauge in gauges {
        append_text(gauge, into)?;
    }
    Ok(())
}

/// Appends what a gauge prints: all that the loop over gauges has to know of the object in the box.
fn append_text(gauge: &Box<dyn PairGauge>, into: &mut Vec<u8>) -> Result<(), NoMemory>
    ensures written { OnOk result
        (Gains into.old.items into.new.items (text_of (view_of pairs_seen pairs_text gauge.now))) }
    ensures prefix { OnErr result
        (GainsPrefix into.old.items into.new.items (text_of (view_of pairs_seen pairs_text gauge.now))) }
{
    gauge.line(into)
}
