ghost use Rattle.std.specs.Prelude.{ℕ, ◌≡◌, ◌<◌, ◌↔◌, ◌++◌, All, Contains, IfOk, OnOk, length, map};
ghost use Rattle.net_extract.specs.inside.Numbering.{AreNetNumbers, IsLink, piece_of};

use super::metals::IslandList;
use super::pieces::{ContactList, ContactPiece, Piece, PieceList};
use classes::classes;
use geo_core::Labelled;
use lists::{Items, NoMemory};
use std::alloc::Global;

/// A number for each island, the same for two exactly where contact pieces lead from the one to the other.
pub fn net_numbers(
    alloc: Global,
    count: usize,
    contacts: &[ContactList],
) -> Result<Vec<usize>, NoMemory>
    requires { (i k : ℕ) → IsLink contacts.now i k → (i < count) × (k < count) }
    ensures { IfOk result (λ nets. AreNetNumbers count contacts.now nets.items) }
{
    let links = links(alloc, contacts)?;
    Ok(classes(alloc, count, &links)?)
}

/// The pairs of islands that contact pieces carry.
fn links(alloc: Global, contacts: &[ContactList]) -> Result<Vec<(usize, usize)>, NoMemory>
    ensures { IfOk result (λ links. (i k : ℕ) → Contains links.items (i, k) ↔ IsLink contacts.now i k) }
{
    let mut links = Vec::new(alloc);
    for list in contacts {
        add_links(list.as_slice(), &mut links)?;
    }
    Ok(links)
}

/// Adds the pairs of islands that these contact pieces carry.
fn add_links(contacts: &[ContactPiece], links: &mut Vec<(usize, usize)>) -> Result<(), NoMemory>
    ensures { OnOk result
        (links.new.items ≡ links.old.items ++ map (λ contact. (contact.lower, contact.upper)) contacts.now) }
{
    for contact in contacts {
        links.push((contact.lower, contact.upper))?;
    }
    Ok(())
}

/// The pieces of each metal, with the nets of their islands.
pub fn piece_lists(
    alloc: Global,
    islands: &[IslandList],
    nets: &[usize],
) -> Result<Items<PieceList>, NoMemory>
    requires { All (All (λ island. island.label < length nets.now)) islands.now }
    ensures { IfOk result (λ pieces. pieces ≡ map (map (piece_of nets.now)) islands.now) }
{
    let mut lists = Vec::new(alloc);
    for list in islands {
        lists.push(pieces_of(alloc, list.as_slice(), nets)?)?;
    }
    Ok(Items::from_vec(lists))
}

/// The rectangles as pieces, with the nets of their islands.
fn pieces_of(alloc: Global, islands: &[Labelled], nets: &[usize]) -> Result<PieceList, NoMemory>
    requires { All (λ island. island.label < length nets.now) islands.now }
    ensures { IfOk result (λ pieces. pieces ≡ map (piece_of nets.now) islands.now) }
{
    let mut pieces = Vec::with_capacity(alloc, islands.len())?;
    for island in islands {
        pieces.push(Piece {
            rect: island.rect,
            island: island.label,
            net: nets[island.label],
        })?;
    }
    Ok(PieceList::from_vec(pieces))
}
