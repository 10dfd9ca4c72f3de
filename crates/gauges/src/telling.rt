ghost use Rattle.std.specs.Prelude.{◌≡◌, ◌∷◌, [], OnOk, OnErr};
ghost use Rattle.report.specs.Gains.{Gains, GainsPrefix};
ghost use Rattle.gauges.specs.GaugeViews.{AreTold, AreToldPrefixes, IsTold, IsToldPrefix, text_of, texts_of, view_of, views_of};

use super::gauge::Gauge;
use lists::NoMemory;
use questions::Row;

/// Tells each gauge all rows in order, one gauge after the other, and stops where a gauge refuses a row. Each has then seen
/// the first few of the rows, perhaps none or all, after what it had seen.
pub fn tell(gauges: &mut Vec<Box<dyn Gauge>>, rows: &[Row]) -> Result<(), NoMemory>
    ensures told { OnOk result
        (AreTold rows.now (views_of seen text gauges.old.items) (views_of seen text gauges.new.items)) }
    ensures prefixes { OnErr result
        (AreToldPrefixes rows.now (views_of seen text gauges.old.items) (views_of seen text gauges.new.items)) }
{
    for gauge in gauges.iter_mut() {
        tell_gauge(gauge, rows)?;
    }
    Ok(())
}

/// Tells a gauge all rows in order, and stops where it refuses one.
fn tell_gauge(gauge: &mut Box<dyn Gauge>, rows: &[Row]) -> Result<(), NoMemory>
    ensures told { OnOk result (IsTold rows.now (view_of seen text gauge.old) (view_of seen text gauge.new)) }
    ensures prefix { OnErr result (IsToldPrefix rows.now (view_of seen text gauge.old) (view_of seen text gauge.new)) }
{
    for row in rows {
        tell_row(gauge, row)?;
    }
    Ok(())
}

/// Tells a gauge a row: all that the loop over rows has to know of the object in the box.
fn tell_row(gauge: &mut Box<dyn Gauge>, row: &Row) -> Result<(), NoMemory>
    ensures told { OnOk result (IsTold (row.now ∷ []) (view_of seen text gauge.old) (view_of seen text gauge.new)) }
    ensures untold { OnErr result (IsTold [] (view_of seen text gauge.old) (view_of seen text gauge.new)) }
{
    gauge.note(row)
}

/// Appends what each gauge prints of all that it has seen to `into`, in the order of the gauges. Where a gauge refuses,
/// `into` has gained the first part of these texts, perhaps none of it.
pub fn append_texts(gauges: &[Box<dyn Gauge>], into: &mut Vec<u8>) -> Result<(), NoMemory>
    ensures written { OnOk result
        (Gains into.old.items into.new.items (texts_of (views_of seen text gauges.now))) }
    ensures prefix { OnErr result
        (GainsPrefix into.old.items into.new.items (texts_of (views_of seen text gauges.now))) }
{
    for gauge in gauges {
        append_text(gauge, into)?;
    }
    Ok(())
}

/// Appends what a gauge prints: all that the loop over gauges has to know of the object in the box.
fn append_text(gauge: &Box<dyn Gauge>, into: &mut Vec<u8>) -> Result<(), NoMemory>
    ensures written { OnOk result
        (Gains into.old.items into.new.items (text_of (view_of seen text gauge.now))) }
    ensures prefix { OnErr result
        (GainsPrefix into.old.items into.new.items (text_of (view_of seen text gauge.now))) }
{
    gauge.line(into)
}
