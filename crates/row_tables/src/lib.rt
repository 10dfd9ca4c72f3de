//! Tables of rows as text: what is given to a call, and the answer that it must give.
//!
//! A table is a TOML document. Each `[[kind]]` in it is a row of that kind, and `#` lines say why its answer is right. A table
//! `[kind.name]` is no row: rows share it by its name. To check a row is to read its keys, make the call and compare the answer (`Case`). A row disagrees if an answer is not the wanted one, a value is missing or has the wrong
//! form, it has a key that is neither read nor compared, or nothing was compared. Each such row is printed with what is wrong in it,
//! and each kind with the number of rows that agree.
#![tactic(auto)]

mod case;
mod text;
mod values;

pub use case::Case;
pub use text::Text;
pub use values::{bytes_of, rect_of, sides_of};
