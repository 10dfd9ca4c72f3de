//! Pairs of nets, and what gauges make of them.

use crate::reports::{size_of, words_of};
use crate::texts::text_of;
use gauge_samples::{MutePairs, PairAreas, PairGaugeKind, TightPairs};
use gauges::{PairGauge, PairRow, Worst, append_pair_texts};
use lists::Items;
use map_model::{LayerName, Measure};
use pair_report::{MetalPairs, PairTables, write_pairs};
use row_tables::Case;

/// The row of a pair that a line says: layer, the two nets, size and area.
fn pair_of(line: &str) -> Option<PairRow> {
    let [layer, first, second, size, area] = words_of(line);
    let (measure, size) = size_of(size)?;
    Some(PairRow {
        layer: LayerName::new(layer.as_bytes())?,
        first: first.parse().ok()?,
        second: second.parse().ok()?,
        measure,
        size,
        area: area.parse().ok()?,
    })
}

/// `[[worst]]`: what the gauge prints that has seen these `rows`, behind what stands there, `- `.
pub fn worst(case: &mut Case<'_>) {
    let mut gauge = Worst::new(case.alloc);
    for line in case.texts("rows").as_slice() {
        match pair_of(line) {
            Some(pair) => case.kept(gauge.note(&pair)),
            None => case.note("rows", "not rows of pairs"),
        }
    }
    let mut text = case.list(Vec::from_slice(case.alloc, b"- "));
    case.kept(gauge.line(&mut text));
    case.expect_text("prints", text_of(text.as_slice()));
}

/// The pairs that a text says, two nets and an area for each.
fn pairs_in<'a>(case: &mut Case<'a>, key: &'a str, text: &str) -> Vec<(usize, usize, u64)> {
    let mut pairs = Vec::new(case.alloc);
    let mut words = text.split(' ');
    while let Some(first) = words.next() {
        let second = words.next().unwrap_or("");
        let area = words.next().unwrap_or("");
        match (first.parse(), second.parse(), area.parse()) {
            (Ok(first), Ok(second), Ok(area)) => case.push(&mut pairs, (first, second, area)),
            _ => case.note(key, "not two nets and an area for each pair"),
        }
    }
    pairs
}

/// The tables of the metals at a key, for defects of the size at another. A metal is its name, and two nets and an area for each of
/// its pairs.
fn tables_of<'a>(case: &mut Case<'a>, size_key: &'a str, metals_key: &'a str) -> PairTables {
    let mut metals = Vec::new(case.alloc);
    for line in case.texts(metals_key).as_slice() {
        let (name, pairs) = match line.split_once(' ') {
            Some((name, text)) => (name, pairs_in(case, metals_key, text)),
            None => (*line, Vec::new(case.alloc)),
        };
        let pairs = Items::from_vec(pairs);
        match LayerName::new(name.as_bytes()) {
            Some(layer) => case.push(&mut metals, MetalPairs { layer, pairs }),
            None => case.note(metals_key, "not a name of a metal"),
        }
    }
    let (measure, size) = match size_of(case.text(size_key)) {
        Some(size) => size,
        None => {
            case.note(size_key, "not a size");
            (Measure::Radius, 0)
        }
    };
    PairTables {
        measure,
        size,
        metals: Items::from_vec(metals),
    }
}

/// What is written, or that it is refused.
fn written_or_refused(is_written: bool, text: &[u8]) -> &str {
    if is_written { text_of(text) } else { "refused" }
}

/// `[[paired]]`: what is written of the pairs of these `metals` for defects of this `size`, behind what stands there, `- `, with the
/// texts of `gauges`, or that it is refused. With `more_metals` of a `more_size` the same gauges go on, and `more_writes` is what comes
/// then. At last they print what they have seen, and `printed` is whether they do so without a refusal.
pub fn paired(case: &mut Case<'_>) {
    let alloc = case.alloc;
    let mut gauges: Vec<Box<dyn PairGauge>> = Vec::new(alloc);
    for name in case.texts("gauges").as_slice() {
        match PairGaugeKind::named(name) {
            Some(PairGaugeKind::Worst) => push_boxed!(case, gauges, Worst::new(alloc)),
            Some(PairGaugeKind::Tight(room)) => {
                push_boxed!(case, gauges, TightPairs::new(alloc, room))
            }
            Some(PairGaugeKind::Areas) => push_boxed!(case, gauges, PairAreas::new(alloc)),
            Some(PairGaugeKind::Mute) => push_boxed!(case, gauges, MutePairs::new(alloc)),
            None => case.note("gauges", "not gauges of pairs"),
        }
    }
    let tables = tables_of(case, "size", "metals");
    let mut text = case.list(Vec::from_slice(alloc, b"- "));
    let is_written = write_pairs(&tables, &mut gauges, &mut text).is_ok();
    case.expect_text("writes", written_or_refused(is_written, text.as_slice()));
    if case.has("more_metals") {
        let tables = tables_of(case, "more_size", "more_metals");
        let mut text = case.list(Vec::from_slice(alloc, b"- "));
        let is_written = write_pairs(&tables, &mut gauges, &mut text).is_ok();
        case.expect_text(
            "more_writes",
            written_or_refused(is_written, text.as_slice()),
        );
    }
    if case.has("prints") {
        let mut text = Vec::new(alloc);
        let printed = append_pair_texts(gauges.as_slice(), &mut text).is_ok();
        case.expect("printed", printed);
        case.expect_text("prints", text_of(text.as_slice()));
    }
}
