//! The terminals, and whether via clusters are terminals as well.

ghost use Rattle.std.specs.Prelude.{◌≡◌, ◌≤◌, ◌^◌, ◌<◌, List, [], length, IfOk};
ghost use Rattle.first_refusal.specs.Checks.{Checks};
ghost use Rattle.toml.specs.Data.{Data, get_member, integer};
ghost use Rattle.toml.specs.View.{table_view, view};
ghost use Rattle.layer_map.specs.MapChecks.{Holds, checks_of_terminals, fault_of, last_checks};
ghost use Rattle.first_refusal.specs.Answers.{Answers};
ghost use Rattle.layer_map.specs.inside.ReadValues.{Finds, IsThere, IsWritten};
ghost use Rattle.layer_map.specs.inside.ReadMetals.{HaveNamesOf, TakesMetals};
ghost use Rattle.layer_map.specs.inside.ReadTerminals.{AddsPlace, TakesTerminal, TakesTerminals, place_of_terminal};
ghost use Rattle.layer_map.specs.TerminalChecks.{TerminalHolds, place_checks, terminal_fault, IsCellNumber};
ghost use Rattle.layer_map.specs.Values.{contacts_in, truth_in};
ghost use Rattle.map_model.specs.declared.limits.TheConstants.{MOST_METALS};
ghost use Rattle.layer_map.specs.declared.seen.Seen.{Seen};

use super::fault::MapFault;
use super::items::{metal_at, table_of};
use super::paths;
use super::values::{array_or_none_at, value_at};
use geo_core::{Cell, FARTHEST};
use indexmap::IndexSet;
use lists::NoMemory;
use map_model::layers::{Metal, Terminal, Terminals};
use map_model::limits::MOST_TERMINALS;
use std::alloc::Global;
use toml::{Table, Value};

/// The keys of a terminal.
pub const TERMINAL_KEYS: [&str; 3] = ["metal", "x", "y"];

/// The terminals on these metals, at most 10,000.
pub fn read_terminals(
    alloc: Global,
    document: &Table,
    metals: &[Metal],
) -> Result<Terminals, MapFault>
    requires { length metals.now ≤ MOST_METALS }
    ensures { (seen : Seen) → TakesMetals (table_view document.now) seen metals.now →
        Answers MapFault.Memory (Checks
        (Holds (table_view document.now)) (checks_of_terminals (table_view document.now)) fault_of
        (TakesTerminals (table_view document.now) metals.now)) result }
{
    let mut places = IndexSet::new(alloc);
    read_each(alloc, document, metals, &mut places)
}

/// The terminals on these metals, whose places are added to an empty set.
fn read_each(
    alloc: Global,
    document: &Table,
    metals: &[Metal],
    places: &mut IndexSet<(u32, i32, i32)>,
) -> Result<Terminals, MapFault>
    requires few { length metals.now ≤ MOST_METALS }
    requires empty { places.old.keys ≡ [] }
    ensures { (seen : Seen) → TakesMetals (table_view document.now) seen metals.now →
        Answers MapFault.Memory (Checks
        (Holds (table_view document.now)) (checks_of_terminals (table_view document.now)) fault_of
        (TakesTerminals (table_view document.now) metals.now)) result }
{
    let items = array_or_none_at(document, "terminal", paths::TERMINALS)?;
    if items.len() > MOST_TERMINALS {
        return Err(MapFault::LimitPassed {
            path: paths::TERMINALS,
        });
    }
    let mut terminals = Vec::new(alloc);
    for (number, item) in items.iter().enumerate() {
        let path = paths::terminal(number);
        let terminal = read_terminal(item, metals, path)?;
        if !add_place(places, terminal)? {
            return Err(MapFault::RepeatedTerminal { path });
        }
        terminals.push(terminal)?;
    }
    Ok(Terminals::from_vec(terminals))
}

/// Adds the place of a terminal, if it is a new one; whether it is.
fn add_place(places: &mut IndexSet<(u32, i32, i32)>, terminal: Terminal) -> Result<bool, NoMemory>
    ensures { IfOk result (λ is_new. AddsPlace is_new places.old.keys places.new.keys (place_of_terminal terminal)) }
{
    let Cell { i, j } = terminal.cell;
    Ok(places.insert((terminal.metal, i, j))?)
}

/// What the item says of a terminal.
fn read_terminal(item: &Value, metals: &[Metal], path: u32) -> Result<Terminal, MapFault>
    requires few { length metals.now ≤ MOST_METALS }
    requires small { path < 2 ^ 31 }
    ensures { (items earlier : List Data) → HaveNamesOf items metals.now →
        Answers MapFault.Memory (Checks (TerminalHolds items earlier (view item.now)) place_checks (terminal_fault path)
        (TakesTerminal metals.now (view item.now))) result }
{
    let table = table_of(item, &TERMINAL_KEYS, path)?;
    let metal = metal_at(table, "metal", metals, path + paths::METAL)?;
    match cell_number_at(table, "x") {
        Some(i) => match cell_number_at(table, "y") {
            Some(j) => Ok(Terminal {
                metal,
                cell: Cell { i, j },
            }),
            None => Err(MapFault::BadValue {
                path: path + paths::Y,
            }),
        },
        None => Err(MapFault::BadValue {
            path: path + paths::X,
        }),
    }
}

/// The column or row that stands at the key.
#[tactic(auto, using(crate::proofs::CellLaws::cell_number_there, crate::proofs::CellLaws::nothing_there))]
fn cell_number_at(table: &Table, key: &str) -> Option<i32>
    ensures { Finds (IsThere integer IsCellNumber (get_member key.now (table_view table.now))) result }
{
    match value_at(table, key) {
        Some(value) => cell_number_in(value),
        None => None,
    }
}

/// The column or row that the value is.
fn cell_number_in(value: &Value) -> Option<i32>
    ensures { Finds (IsWritten integer IsCellNumber (view value.now)) result }
{
    match value.as_integer() {
        Some(number) => match i32::try_from(number) {
            Ok(number) => {
                if number < -FARTHEST {
                    return None;
                }
                if number >= FARTHEST {
                    return None;
                }
                Some(number)
            }
            Err(_) => None,
        },
        None => None,
    }
}

/// Whether the document says that via clusters are terminals as well. Where it says nothing they are not.
#[tactic(auto, using(crate::proofs::ContactLaws::truth_stands, crate::proofs::ContactLaws::no_truth_stands, crate::proofs::ContactLaws::nothing_stands))]
pub fn read_contacts(document: &Table) -> Result<bool, MapFault>
    ensures { Answers MapFault.Memory (Checks
        (Holds (table_view document.now)) last_checks fault_of
        (λ contacts. contacts ≡ truth_in (contacts_in (table_view document.now)))) result }
{
    match value_at(document, "contacts") {
        Some(value) => match value.as_bool() {
            Some(contacts) => Ok(contacts),
            None => Err(MapFault::BadValue {
                path: paths::CONTACTS,
            }),
        },
        None => Ok(false),
    }
}
