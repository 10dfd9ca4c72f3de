//! Reports, and what gauges make of their rows.

use crate::texts::text_of;
use gauge_samples::{GaugeKind, Mute, Silent, Tight};
use gauges::{Gauge, Nonzero, Peak, append_texts, tell};
use map_model::limits::GREATEST_WEIGHT;
use map_model::{LayerName, Measure};
use report::{Kind, MOST_ROWS, Row, product, write_report};
use row_tables::{Case, Text};

/// The greatest area.
const GREATEST_AREA: u64 = 9_223_372_036_854_775_807;

/// The first five words of a line, each empty where the line has none.
pub fn words_of(line: &str) -> [&str; 5] {
    let mut words = line.split(' ');
    [
        words.next().unwrap_or(""),
        words.next().unwrap_or(""),
        words.next().unwrap_or(""),
        words.next().unwrap_or(""),
        words.next().unwrap_or(""),
    ]
}

/// The measure and the size that are written as `r=5` or `s=5`.
pub fn size_of(text: &str) -> Option<(Measure, u32)> {
    let (letter, size) = text.split_once('=')?;
    let measure = if letter == "r" {
        Measure::Radius
    } else {
        Measure::Side
    };
    Some((measure, size.parse().ok()?))
}

/// The row of a report that a line says: kind, layer, size, area and weight.
fn row_of(line: &str) -> Option<Row> {
    let [kind, layer, size, area, weight] = words_of(line);
    let kind = match kind {
        "short" => Kind::Short,
        "open" => Kind::Open,
        _ => Kind::Via,
    };
    let layer = LayerName::new(layer.as_bytes())?;
    let (measure, size) = size_of(size)?;
    let area = area.parse().ok()?;
    let weight = weight.parse().ok()?;
    if area > GREATEST_AREA || weight > GREATEST_WEIGHT {
        return None;
    }
    Some(Row {
        kind,
        layer,
        measure,
        size,
        area,
        weight,
    })
}

/// The rows of a report that the lines at the key say, so many times.
fn rows_of<'a>(case: &mut Case<'a>, key: &'a str, times: u32) -> Vec<Row> {
    let mut rows = Vec::new(case.alloc);
    for _ in 0..times {
        for line in case.texts(key).as_slice() {
            match row_of(line) {
                Some(row) => case.push(&mut rows, row),
                None => case.note(key, "not rows of a report"),
            }
        }
    }
    rows
}

/// `[[report]]`: what stands `before` stays, and behind it come the `lines` of the `rows`, all of them so many `times`, and the
/// `totals`.
pub fn written(case: &mut Case<'_>) {
    let before = if case.has("before") {
        case.text("before")
    } else {
        ""
    };
    let times = if case.has("times") {
        case.number("times")
    } else {
        1
    };
    let rows = rows_of(case, "rows", times);
    if rows.len() > MOST_ROWS {
        return case.note("rows", "too many");
    }
    let lines = case.text("lines");
    let mut wanted = Text::new(case.alloc);
    wanted.say(before);
    for _ in 0..times {
        wanted.say(lines);
    }
    wanted.say(case.text("totals"));
    let mut came = case.list(Vec::from_slice(case.alloc, before.as_bytes()));
    case.kept(write_report(case.alloc, rows.as_slice(), &mut came));
    case.compare("report", wanted.shown(), text_of(came.as_slice()));
}

/// `[[product]]`: the product of the area and the weight of a `row`.
pub fn products(case: &mut Case<'_>) {
    match row_of(case.text("row")) {
        Some(row) => case.expect("gives", product(&row)),
        None => case.note("row", "not a row of a report"),
    }
}

/// `[[gauged]]`: whether the `gauges` are `told` the `rows`, and then those that are `more`, without a refusal, what they print then
/// behind what stands there, `- `, and whether they are `printed` without a refusal.
pub fn gauged(case: &mut Case<'_>) {
    let rows = rows_of(case, "rows", 1);
    let times = u32::from(case.has("more"));
    let more = rows_of(case, "more", times);
    let alloc = case.alloc;
    let mut gauges: Vec<Box<dyn Gauge>> = Vec::new(alloc);
    for name in case.texts("gauges").as_slice() {
        match GaugeKind::named(name) {
            Some(GaugeKind::Nonzero) => push_boxed!(case, gauges, Nonzero::new(alloc)),
            Some(GaugeKind::Peak) => push_boxed!(case, gauges, Peak::new(alloc)),
            Some(GaugeKind::Tight(room)) => push_boxed!(case, gauges, Tight::new(alloc, room)),
            Some(GaugeKind::Silent) => push_boxed!(case, gauges, Silent::new(alloc)),
            Some(GaugeKind::Mute) => push_boxed!(case, gauges, Mute::new(alloc)),
            None => case.note("gauges", "not gauges"),
        }
    }
    let told = tell(&mut gauges, rows.as_slice()).is_ok()
        && tell(&mut gauges, more.as_slice()).is_ok();
    case.expect("told", told);
    let mut text = case.list(Vec::from_slice(alloc, b"- "));
    let printed = append_texts(gauges.as_slice(), &mut text).is_ok();
    case.expect("printed", printed);
    case.expect_text("prints", text_of(text.as_slice()));
}
