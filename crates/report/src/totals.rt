ghost use Rattle.std.specs.Prelude.{◌≡◌, ◌*◌, ◌^◌, ◌<◌, ◌≤◌, length};
ghost use Rattle.report.specs.Report.{product_of, total_of_kind, total_of};

use questions::{Kind, MOST_ROWS, Row};

/// Area times weight, which is below 2^93.
pub fn product(row: &Row) -> u128
    ensures exact { result ≡ product_of row.now }
    ensures small { result < 2 ^ 93 }
{
    u128::from(row.area) * u128::from(row.weight)
}

/// The products of the rows of one kind, added up.
pub fn sum_of_kind(rows: &[Row], kind: Kind) -> u128
    requires few { length rows.now ≤ MOST_ROWS }
    ensures { result ≡ total_of_kind kind rows.now }
{
    let mut total = 0u128;
    for row in rows {
        if row.kind == kind {
            total += product(row);
        }
    }
    total
}

/// The products of all rows, added up.
pub fn sum_of_all(rows: &[Row]) -> u128
    requires few { length rows.now ≤ MOST_ROWS }
    ensures { result ≡ total_of rows.now }
{
    let mut total = 0u128;
    for row in rows {
        total += product(row);
    }
    total
}
