//! For each two labels, at how many cells of a window a square defect touches pieces of both.
//!
//! The cells of the window that are near a piece are a rectangle, the *zone* of the piece, and what is asked for is, for each two
//! labels, how many cells lie in zones of both. Each part of the window goes one of these ways (`ways`):
//!
//! - Where one label or none is left nothing is added.
//! - Of few zones those that meet another label are kept (`beside`), and rectangles without common cells, *runs*, take the place
//!   of each label's zones (`runs`). Each two runs that meet have different labels then, and what they have in common is added for
//!   the two (`meetings`).
//! - Of many zones with two labels and no third, all cells are counted that lie in zones of two labels (`short_area`).
//! - Where few zones lie over the middle the part is halved. Of a label with a zone that has all of a half this one alone is left
//!   there (`whole`).
//! - Else runs are tried with four looks for each zone, and so they are where a part cannot be halved. Mostly each two that meet
//!   are added again. But where strips of several labels lie across strips of others very many meet (`crossings`). There what runs
//!   cover is told by *slabs*, few and wide, and by *changes* from row to row (`corners`, `changes`, `slabs`): row by row, what two
//!   labels have in common changes where the one changes within the other (`dense`). So time follows the ends of runs.
//! - Where four looks do not suffice the part is halved. Then runs are not tried again before an eighth of the zones is left.
//!
//! The cells of a pair in the window are those in the one part and those in the other, so whatever is halved and wherever runs
//! are taken changes the time alone. What two rectangles have in common is added as soon as they are found to meet (`search`,
//! `sweeps`): no list is made of those that meet. What is added for one pair of labels is kept as items of a list, which are sorted
//! and added up whenever the list has doubled (`sums`): so between parts the memory follows the pairs, and within one part the
//! runs. Changes take away too, so all is added up in 64 bits (`weighted`): an area has fewer cells, and so it is what is left at
//! the end.
#![tactic(auto)]

mod areas;
mod beside;
mod changes;
mod corners;
mod crossings;
mod dense;
mod laws;
mod meetings;
mod part_case;
mod places;
mod runs;
mod search;
mod slabs;
mod sums;
mod sweeps;
mod ways;
mod weighted;
mod whole;

pub use areas::pair_areas;
pub use laws::area_lists_agree;
