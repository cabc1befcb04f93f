// The array behind a chip: kinds of part, what a sheet is, and the flat sheet.
#![tactic(auto)]

mod flat;
mod geometry;
mod kind;
mod kinds;
mod sheet;

pub use flat::Flat;
pub use geometry::Geometry;
pub use kind::{Kind, LARGEST_SECTOR};
pub use kinds::{Nx25f011a, Nx25f080b};
pub use sheet::Sheet;
