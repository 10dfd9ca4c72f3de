ghost use Rattle.std.specs.Prelude.{◌≡◌, ◌++◌, OnOk, OnErr, codes};
ghost use Rattle.lists.specs.Words.{decimal};
ghost use Rattle.report.specs.Gains.{Gains};
ghost use Rattle.gauges.specs.GaugeViews.{AreTold, AreToldPrefixes, views_of};
ghost use Rattle.pair_report.specs.PairRows.{pair_rows};
ghost use Rattle.pair_report.specs.PairReport.{whole_pair_text};

use super::rows::{count_rows, write_rows};
use super::tables::PairTables;
use gauges::{PairGauge, append_pair_texts};
use lists::NoMemory;

/// Appends the text of the pairs to `into`, and tells the gauges each row as it goes: a line for each pair, such as
/// `pair m1 0 1 r=5 area=120`, metal by metal in the order of the tables, then `pairs` with how many there are, and then
/// what each gauge prints of all that it has seen. All is ASCII, numbers are decimal, and each line ends with a newline.
/// Where memory runs out or a gauge refuses, each gauge has seen the first few of the rows, perhaps none or all, and what
/// `into` has gained is not to be used.
pub fn write_pairs(
    tables: &PairTables,
    gauges: &mut Vec<Box<dyn PairGauge>>,
    into: &mut Vec<u8>,
) -> Result<(), NoMemory>
    ensures written { OnOk result (Gains into.old.items into.new.items
        (whole_pair_text (pair_rows tables.now) (views_of pairs_seen pairs_text gauges.old.items))) }
    ensures told { OnOk result (AreTold (pair_rows tables.now)
        (views_of pairs_seen pairs_text gauges.old.items) (views_of pairs_seen pairs_text gauges.new.items)) }
    ensures prefixes { OnErr result (AreToldPrefixes (pair_rows tables.now)
        (views_of pairs_seen pairs_text gauges.old.items) (views_of pairs_seen pairs_text gauges.new.items)) }
{
    write_rows(tables, gauges, into)?;
    write_count(count_rows(tables), into)?;
    append_pair_texts(gauges.as_slice(), into)?;
    Ok(())
}

/// Appends the line that tells how many rows there are.
fn write_count(count: u128, into: &mut Vec<u8>) -> Result<(), NoMemory>
    ensures { OnOk result
        (Gains into.old.items into.new.items (codes "pairs " ++ decimal count ++ codes "\n")) }
{
    let line = format!(in *into.allocator(); "pairs {count}\n")?;
    into.extend_from_slice(line.as_bytes())?;
    Ok(())
}
