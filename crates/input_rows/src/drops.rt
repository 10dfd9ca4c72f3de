//! Gauges are dropped with their list, and not before.

use gauge_samples::{Counted, CountedPairs};
use gauges::{Gauge, PairGauge, append_texts, tell};
use lists::Items;
use map_model::{LayerName, Measure};
use pair_report::{MetalPairs, PairTables, write_pairs};
use report::{Kind, Row};
use std::process::Abort;
use std::sync::Arc;
use std::sync::atomic::{AtomicU64, Ordering};

/// What a test says that ends because no memory is left.
const MEMORY: &str = "no memory is left";

/// A layer.
fn layer(rt: &impl Abort) -> LayerName {
    LayerName::new(b"m1").expect(rt, "not a name")
}

/// Checks that two gauges are not dropped by a row that they are told, nor by their texts. They are dropped with their list behind that.
fn check_rows(rt: &(impl Abort + AllocGlobal), drops: &Arc<AtomicU64>) {
    let alloc = rt.alloc();
    let mut gauges: Vec<Box<dyn Gauge>> = Vec::new(alloc);
    for _ in 0..2 {
        let shared = Arc::try_clone(drops).expect(rt, MEMORY);
        let counted = Box::new(alloc, Counted::new(alloc, shared)).expect(rt, MEMORY);
        gauges.push(counted).expect(rt, MEMORY);
    }
    let row = Row {
        kind: Kind::Short,
        layer: layer(rt),
        measure: Measure::Radius,
        size: 5,
        area: 72_788,
        weight: 1,
    };
    tell(&mut gauges, &[row]).expect(rt, MEMORY);
    append_texts(gauges.as_slice(), &mut Vec::new(alloc)).expect(rt, MEMORY);
    assert!(rt; drops.load(Ordering::SeqCst) == 0);
}

/// Checks that two gauges of pairs are not dropped by a pair that is written. They are dropped with their list behind that.
fn check_pairs(rt: &(impl Abort + AllocGlobal), drops: &Arc<AtomicU64>) {
    let alloc = rt.alloc();
    let mut gauges: Vec<Box<dyn PairGauge>> = Vec::new(alloc);
    for _ in 0..2 {
        let shared = Arc::try_clone(drops).expect(rt, MEMORY);
        let counted = Box::new(alloc, CountedPairs::new(alloc, shared)).expect(rt, MEMORY);
        gauges.push(counted).expect(rt, MEMORY);
    }
    let pairs = Vec::from_slice(alloc, &[(0, 1, 120)]).expect(rt, MEMORY);
    let metal = MetalPairs {
        layer: layer(rt),
        pairs: Items::from_vec(pairs),
    };
    let tables = PairTables {
        measure: Measure::Radius,
        size: 5,
        metals: Items::from_vec(Vec::from_array(alloc, [metal]).expect(rt, MEMORY)),
    };
    write_pairs(&tables, &mut gauges, &mut Vec::new(alloc)).expect(rt, MEMORY);
    assert!(rt; drops.load(Ordering::SeqCst) == 0);
}

#[test]
fn gauges_are_dropped_with_their_list(rt: HostRuntime) {
    let drops = Arc::new(rt.alloc(), AtomicU64::new(0)).expect(&rt, MEMORY);
    check_rows(&rt, &drops);
    assert!(rt; drops.load(Ordering::SeqCst) == 2);
}

#[test]
fn gauges_of_pairs_are_dropped_with_their_list(rt: HostRuntime) {
    let drops = Arc::new(rt.alloc(), AtomicU64::new(0)).expect(&rt, MEMORY);
    check_pairs(&rt, &drops);
    assert!(rt; drops.load(Ordering::SeqCst) == 2);
}
