//! The islands and nets of rectangles on metals and cuts.

ghost use Rattle.std.specs.Prelude.{◌≡◌, ◌+◌, length};

use crate::{clusters, handed, names, opens, spotted};
use fault_model::Island;
use map_model::{Layers, Map};
use net_extract::{Nets, extract};
use row_tables::Case;

/// The islands of all metals that have two terminals or more, once or as many times as the row says. If the row has spots, the last
/// island has these in place of its own.
fn islands_of(case: &mut Case<'_>, nets: &Nets) -> Vec<Island>
    requires { length nets.now.pieces ≡ 2 }
{
    let times = if case.has("times") {
        case.number("times")
    } else {
        1
    };
    let mut islands = Vec::new(case.alloc);
    for _ in 0..times {
        for metal in 0..2 {
            let mut found = case.list(nets.islands(case.alloc, metal));
            case.kept(islands.append(&mut found));
        }
    }
    if case.has("spots") {
        spotted::put_spots(case, &mut islands);
    }
    islands
}

/// Checks a row on the nets of two metals and a cut between them.
fn check_two(case: &mut Case<'_>, nets: &Nets)
    requires metals { length nets.now.pieces ≡ 2 }
    requires cuts { length nets.now.contacts ≡ 1 }
{
    let lower = nets.pieces(0);
    let upper = nets.pieces(1);
    let contacts = nets.contacts(0);
    let groups = nets.contact_groups(0);
    match case.kind {
        "anchors" => handed::anchors(case, nets.anchors(), lower, upper),
        "clusters" => clusters::boxes(case, nets),
        "contact_groups" => clusters::groups(case, groups, lower, upper),
        "net_fault" => case.expect_list("fault", &[0, 0]),
        "nets" => names::names(case, contacts, &[lower, upper]),
        "pieces" => clusters::pieces(case, groups, contacts, lower, upper),
        _ => {
            let islands = islands_of(case, nets);
            opens::check(case, islands.as_slice());
        }
    }
}

/// Checks a row on the nets of so many metals and cuts.
fn check_nets(case: &mut Case<'_>, nets: &Nets, metals: u32, cuts: usize)
    requires metals { length nets.now.pieces ≡ metals }
    requires cuts { length nets.now.contacts ≡ cuts }
{
    match case.kind {
        "chain" => handed::chain(case, nets, metals),
        "islands" => handed::islands(case, nets, metals),
        _ if metals == 2 && cuts == 1 => check_two(case, nets),
        _ => case.note("map", "not two metals and a cut"),
    }
}

/// Checks a row on the nets of layers, or compares the number and the place of the fault of its shapes and terminals, and what the fault
/// says.
pub fn check(case: &mut Case<'_>, map: &Map, layers: &Layers)
    requires { length layers.now.lists.items ≡ length map.now.metals + length map.now.cuts }
{
    let metals = map.metals.as_slice().len() as u32;
    let cuts = map.cuts.as_slice().len();
    match extract(case.alloc, layers, map) {
        Ok(nets) => check_nets(case, &nets, metals, cuts),
        Err(fault) => {
            case.expect_list("fault", &[u64::from(fault.number()), fault.place()]);
            case.expect("says", fault);
        }
    }
}
