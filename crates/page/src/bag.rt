// Whether a page is a bag, and what is known of one that is.
ghost use Rattle.std.specs.Prelude.{◌≡◌, ◌<◌, true, false, MatchOption};
ghost use Rattle.page.specs.declared.format.TheConstants.{PLACES};
ghost use Rattle.page.specs.Calls.{read_answer};
ghost use Rattle.page.specs.Pages.{in_order, is_bag, place_at, places};
ghost use Rattle.page.specs.Steps.{kind_at, may_follow};
ghost use Rattle.refusal.specs.Answers.{by_number};

use crate::codec::read_place;
use crate::contents::Place;
use crate::format::{COLUMNS, PAGE_LENGTH, TAG};
use crate::layout::start_of;
use refusal::Refusal;

// A page that is known to be a bag.
#[derive(Clone, Copy)]
pub(crate) struct Bag<'a> {
    pub(crate) page: &'a [u8; PAGE_LENGTH],
    ghost is_bag: { is_bag page.now ≡ true },
}

// Says whether a page is a bag.
pub fn read(page: &[u8]) -> Result<bool, Refusal>
    ensures { by_number result ≡ read_answer page.now }
{
    let page = page.first_chunk().ok_or(Refusal::ShortPage)?;
    Ok(Bag::on(page).is_some())
}

impl<'a> Bag<'a> {
    // The bag on a page, if it is one.
    #[tactic(auto, using(crate::proofs::Places::is_bag_long))]
    pub(crate) fn on(page: &'a [u8; PAGE_LENGTH]) -> Option<Bag<'a>>
        ensures { MatchOption result (is_bag page.now ≡ false) (λ bag. bag.page.now ≡ page.now) }
    {
        if page[0] == TAG && is_in_order(page) {
            Some(Bag { page })
        } else {
            None
        }
    }

    // What a place of the bag holds.
    pub(crate) fn place_at(self, place: usize) -> Place
        requires { place < PLACES }
        ensures { result ≡ place_at self.entry.page.now place }
    {
        let Bag { page } = self;
        let start = start_of(place);
        read_place(&page[start..start + COLUMNS])
    }
}

// Whether the filled places come first, with rising kinds.
fn is_in_order(page: &[u8; PAGE_LENGTH]) -> bool
    ensures { result ≡ in_order 0 (places page.now) }
{
    // The kind of the stack before, 0 before the first; none after an empty place.
    let mut above = Some(0);
    for columns in page[1..].chunks_exact(COLUMNS) {
        let place = read_place(columns);
        if !may_follow(above, place) {
            return false;
        }
        above = kind_at(place);
    }
    true
}

// Whether a place may come after one whose stack has that kind, or after an empty one: a stack has to have a larger kind, and
// none may come after an empty place.
fn may_follow(above: Option<u32>, place: Place) -> bool
    ensures { result ≡ may_follow above place }
{
    match (above, place) {
        (_, Place::Empty) => true,
        (Some(kind), Place::Filled(stack)) => stack.kind > kind,
        _ => false,
    }
}

// The kind of the stack at a place, if there is one.
fn kind_at(place: Place) -> Option<u32>
    ensures { result ≡ kind_at place }
{
    match place {
        Place::Filled(stack) => Some(stack.kind),
        _ => None,
    }
}
