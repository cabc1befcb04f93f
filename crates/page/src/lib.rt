// The page: the text of one bag of items.
#![tactic(auto)]

mod adding;
mod bag;
mod blanking;
mod checks;
mod codec;
mod contents;
mod crafting;
mod format;
mod layout;
mod removing;
mod search;
mod trial;

pub use adding::add;
pub use bag::read;
pub use blanking::blank;
pub use codec::read_place;
pub use contents::{Place, Stack};
pub use crafting::craft;
pub use format::{COLUMNS, PAGE_LENGTH, PLACES};
pub use removing::remove;
pub use search::find;
