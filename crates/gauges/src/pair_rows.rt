ghost use Rattle.std.specs.Prelude.{[], ◌∷◌, ◌++◌, ◌≡◌, ◌≤◌, ◌↔◌, ◌==◌, All, Contains, IfOk, IfSome, IsNone, OnErr, OnOk, Some, find, map, slice_get};
ghost use Rattle.gauges.specs.WorstText.{worst_of};
ghost use Rattle.gauges.specs.inside.KeptRows.{KeepPlaces, pair_row};

use super::pair_row::PairRow;
use lists::NoMemory;
use map_model::{LayerName, Measure};
use std::alloc::Global;
use std::marker::Model;

/// A row without the name of its layer, but with the place of the name in a list.
#[derive(Clone, Copy)]
pub struct KeptRow {
    pub layer: usize,
    pub first: usize,
    pub second: usize,
    pub measure: Measure,
    pub size: u32,
    pub area: u64,
}

/// A list of rows of pairs that keeps the name of each layer once. Contracts see it as the list of the rows.
#[derive(Drop)]
pub struct PairRows {
    layers: Vec<LayerName>,
    rows: Vec<KeptRow>,
}

impl Model for PairRows {
    ghost use Rattle.std.specs.Prelude.{List};
    ghost use Rattle.gauges.specs.declared.pair_row.PairRow.{PairRow};
    ghost use Rattle.gauges.specs.inside.KeptRows.{AreNamed, pair_rows};

    ghost Value = { List PairRow };

    ghost view = { λ list. pair_rows list.layers.items list.rows.items };

    ghost invariant = { λ list. AreNamed list.layers.items list.rows.items };
}

impl PairRows {
    /// No rows. It takes no memory.
    pub fn new(alloc: Global) -> PairRows
        ensures { result ≡ [] }
    {
        PairRows {
            layers: Vec::new(alloc),
            rows: Vec::new(alloc),
        }
    }

    /// Appends the row.
    pub fn push(&mut self, row: &PairRow) -> Result<(), NoMemory>
        ensures pushed { OnOk result (self.new ≡ self.old ++ row.now ∷ []) }
        ensures unchanged { OnErr result (self.new ≡ self.old) }
    {
        let layer = place_of(&mut self.layers, row.layer)?;
        self.rows.push(kept(layer, row))?;
        Ok(())
    }

    /// The first row with the greatest area.
    pub fn worst(&self) -> Option<PairRow>
        ensures { result ≡ worst_of self.now }
    {
        let greatest = greatest_area(self.rows.as_slice())?;
        let row = first_with_area(self.rows.as_slice(), greatest)?;
        Some(named(self.layers[row.layer], &row))
    }
}

/// The place of the name among these, to which it is appended where it is none of them.
fn place_of(names: &mut Vec<LayerName>, name: LayerName) -> Result<usize, NoMemory>
    ensures place { IfOk result (λ place. slice_get names.new.items place ≡ Some name) }
    ensures kept { KeepPlaces names.old.items names.new.items }
{
    if let Some(place) = find_name(names.as_slice(), name.as_slice()) {
        return Ok(place);
    }
    let place = names.len();
    names.push(name)?;
    Ok(place)
}

/// The place of the name among these, where it is one of them.
fn find_name(names: &[LayerName], name: &[u8]) -> Option<usize>
    ensures { IfSome result (λ place. slice_get names.now place ≡ Some name.now) }
{
    for (place, other) in names.iter().enumerate() {
        if other.as_slice() == name {
            return Some(place);
        }
    }
    None
}

/// The row, with the place of its layer's name.
fn kept(layer: usize, row: &PairRow) -> KeptRow
    ensures layer { result.layer ≡ layer }
    ensures row { pair_row row.now.layer result ≡ row.now }
{
    KeptRow {
        layer,
        first: row.first,
        second: row.second,
        measure: row.measure,
        size: row.size,
        area: row.area,
    }
}

/// The row with the name of its layer.
fn named(layer: LayerName, row: &KeptRow) -> PairRow
    ensures { result ≡ pair_row layer row.now }
{
    PairRow {
        layer,
        first: row.first,
        second: row.second,
        measure: row.measure,
        size: row.size,
        area: row.area,
    }
}

/// The greatest area.
fn greatest_area(rows: &[KeptRow]) -> Option<u64>
    ensures none { IsNone result ↔ (rows.now ≡ []) }
    ensures reached { IfSome result (Contains (map (λ row. row.area) rows.now)) }
    ensures bound { IfSome result (λ greatest. All (λ row. row.area ≤ greatest) rows.now) }
{
    rows.iter().map(|row| row.area).max()
}

/// The first row with this area.
fn first_with_area(rows: &[KeptRow], wanted: u64) -> Option<KeptRow>
    ensures { result ≡ find (λ row. row.area == wanted) rows.now }
{
    rows.iter().copied().find(|row| row.area == wanted)
}
