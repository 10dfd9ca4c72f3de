ghost use Rattle.std.specs.Prelude.{◌≡◌, ◌<◌, ◌≤◌, ◌^◌, IfOk, All, length};
ghost use Rattle.area_parts.specs.Rows.{AreRowsOf};
ghost use Rattle.critical_areas.specs.inside.CountedRows.{AreCountedRows};
ghost use Rattle.questions.specs.declared.row.TheConstants.{MOST_ROWS};

use super::counting::amounts;
use super::sharing::Sharing;
use area_parts::Asked;
use geo_core::Rect;
use lists::NoMemory;
use questions::Row;
use std::alloc::Global;
use std::thread::Threads;
use tile_work::Gate;

/// The rows that answer the questions by these amounts, in order. The only error is that no memory is left.
pub fn rows(alloc: Global, asked: Asked<'_>, amounts: &[u64]) -> Result<Vec<Row>, NoMemory>
    requires one_each { length amounts.now ≡ length asked.questions.now }
    requires small { All (λ amount. amount < 2 ^ 63) amounts.now }
    ensures { IfOk result (λ rows. AreRowsOf asked.entry.questions.now amounts.now rows.items) }
{
    let mut rows = Vec::new(alloc);
    for (k, question) in asked.questions.iter().enumerate() {
        rows.push(question.row(amounts[k]))?;
    }
    Ok(rows)
}

/// The rows that answer the questions over the window, in order. The only error is that no memory is left.
pub fn counted_rows<G: Gate + Sync>(
    rt: &(impl Threads + Sync),
    alloc: Global,
    asked: Asked<'_>,
    window: Option<Rect>,
    sharing: Sharing<'_, G>,
) -> Result<Vec<Row>, NoMemory>
    ensures counted { IfOk result (λ rows. AreCountedRows asked.entry.parts.now window asked.entry.questions.now rows.items) }
    ensures few { IfOk result (λ rows. length rows.items ≤ MOST_ROWS) }
{
    let counted = amounts(rt, alloc, asked, window, sharing)?;
    rows(alloc, asked, &counted)
}
