// What follows from the contract of a sheet, on calls that know no particular sheet.
#![tactic(auto)]

mod copying;
mod programming;

pub use copying::copy_sector;
pub use programming::program_sector;
