ghost use Rattle.std.specs.Prelude.{◌≡◌, ◌≤◌, IfOk, length};
ghost use Rattle.layout_gen.specs.Generated.{generated_layout, generated_map};

use super::library::{MOST_COLUMNS, library_of};
use super::maps::LAYER_MAP;
use gds_write::write_library;
use lists::NoMemory;
use std::alloc::Global;

/// A layout of `n` columns and as many rows of one cell, and its layer map: the bytes of a GDSII stream, and those of a TOML
/// document.
///
/// `n` is 1 to 500. The library is `GEN`, and its structure `TOP` places four shapes of `CELL` for each column
/// of each row: 4 to 1,000,000 shapes. Columns and rows are 20 database units apart. By the law `generated_layouts_read` the bytes
/// read as this library.
///
/// The only error is that no memory is left.
pub fn generate(alloc: Global, n: u32) -> Result<(Vec<u8>, Vec<u8>), NoMemory>
    requires some { 1 ≤ n }
    requires few { n ≤ MOST_COLUMNS }
    ensures layout { IfOk result (λ made. made.0.items ≡ generated_layout n) }
    ensures map { IfOk result (λ made. made.1.items ≡ generated_map) }

    // An array is one element, however large it is. This follows from the bytes.
    ensures size { IfOk result (λ made. length made.0.items ≡ 454) }
{
    let library = library_of(alloc, n as u16)?;
    let layout = write_library(alloc, &library)?;
    let map = Vec::from_slice(alloc, LAYER_MAP.as_bytes())?;
    Ok((layout, map))
}
