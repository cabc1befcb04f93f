// The places of a page rewritten and moved, each eight columns wide. That a place is one of the 32 stands in contracts and is no
// type: a search also answers 32, past a full bag's last place, and whoever made the type would have to show the same.
ghost use Rattle.std.specs.Prelude.{◌≡◌, ◌+◌, ◌-◌, ◌*◌, ◌<◌, ◌≤◌};
ghost use Rattle.page.specs.declared.format.TheConstants.{COLUMNS, PAGE_LENGTH, PLACES};
ghost use Rattle.page.specs.Layout.{copied, overwritten, with_closed, with_inserted};
ghost use Rattle.page.specs.Places.{empty_text, text};

use crate::contents::Stack;
use crate::format::{COLUMNS, PAGE_LENGTH, PLACES};

// Where a place starts, and after the last one where the page ends.
pub(crate) fn start_of(place: usize) -> usize
    requires { place ≤ PLACES }
    ensures { result ≡ 1 + COLUMNS * place }
{
    1 + COLUMNS * place
}

// Writes a stack into a place.
pub(crate) fn write_stack(page: &mut [u8; PAGE_LENGTH], place: usize, stack: Stack)
    requires { place < PLACES }
    ensures { page.new ≡ overwritten page.old (1 + COLUMNS * place) (text stack) }
{
    let start = start_of(place);
    page[start..start + COLUMNS].copy_from_slice(&stack.columns());
}

// Copies so many places over others.
fn copy_places(page: &mut [u8; PAGE_LENGTH], from: usize, to: usize, count: usize)
    requires source { from + count ≤ PLACES }
    requires target { to + count ≤ PLACES }
    ensures { page.new ≡ copied page.old from to count }
{
    page.copy_within(start_of(from)..start_of(from + count), start_of(to));
}

// Empties the last place.
fn empty_last(page: &mut [u8; PAGE_LENGTH])
    ensures { page.new ≡ overwritten page.old (PAGE_LENGTH - COLUMNS) empty_text }
{
    page[PAGE_LENGTH - COLUMNS..].fill(b' ');
}

// Puts a stack into a place, and moves those from there on by one place to the right. The last place is lost.
pub(crate) fn insert_stack(page: &mut [u8; PAGE_LENGTH], place: usize, stack: Stack)
    requires { place < PLACES }
    ensures { page.new ≡ with_inserted page.old place stack }
{
    copy_places(page, place, place + 1, PLACES - 1 - place);
    write_stack(page, place, stack);
}

// Takes the stack out of a place, and moves those after it by one place to the left.
pub(crate) fn remove_stack(page: &mut [u8; PAGE_LENGTH], place: usize)
    requires { place < PLACES }
    ensures { page.new ≡ with_closed page.old place }
{
    copy_places(page, place + 1, place, PLACES - 1 - place);
    empty_last(page);
}
