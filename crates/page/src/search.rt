// Where a kind stands in a bag, and how many items of it there are.
ghost use Rattle.std.specs.Prelude.{◌≡◌, ◌<◌, ◌≤◌, length, IfOk};
ghost use Rattle.page.specs.declared.format.TheConstants.{PLACES};
ghost use Rattle.page.specs.Calls.{find_answer};
ghost use Rattle.page.specs.Holdings.{StopsAt};
ghost use Rattle.page.specs.Pages.{stacks};
ghost use Rattle.page.specs.Stacks.{held, spot};
ghost use Rattle.page.specs.Steps.{stops_with};
ghost use Rattle.refusal.specs.Answers.{by_number};

use crate::bag::Bag;
use crate::checks::check_kind;
use crate::contents::Place;
use crate::format::PLACES;
use refusal::Refusal;

// Answers the place where the search for a kind stops, and how many items of it the bag holds. The amount is no `Option`: no
// stack has 0 items, so 0 says that the kind is absent, and scripts add and compare what they get. The pair is the project's form for it.
pub fn find(page: &[u8], kind: u32) -> Result<(usize, u32), Refusal>
    ensures answers { by_number result ≡ find_answer page.now kind }
    ensures stops { IfOk result (λ found. StopsAt kind (stacks page.now) found.0 found.1) }
{
    let page = page.first_chunk().ok_or(Refusal::ShortPage)?;
    check_kind(kind)?;
    let bag = Bag::on(page).ok_or(Refusal::NotABag)?;
    Ok(bag.find(kind))
}

impl Bag<'_> {
    // What `find` answers, the pair that add and remove take apart. The search goes on past smaller kinds, to the end of the places;
    // a loop that yields its place by `break` is the project's form for it. The stacks lie in a module's text, so there is no list
    // that a library could search.
    pub(crate) fn find(self, kind: u32) -> (usize, u32)
        ensures place { result.0 ≡ spot kind (stacks self.entry.page.now) }
        ensures amount { result.1 ≡ held kind (stacks self.entry.page.now) }
        ensures found { 0 < result.1 → result.0 < PLACES }
        ensures room { length (stacks self.entry.page.now) < PLACES → result.0 < PLACES }
    {
        let mut place = 0;
        loop {
            if place == PLACES {
                break (place, 0);
            }
            if let Some(amount) = stops_with(kind, self.place_at(place)) {
                break (place, amount);
            }
            place += 1;
        }
    }
}

// The amount with which the search stops at a place; none where it goes on.
fn stops_with(kind: u32, place: Place) -> Option<u32>
    ensures { result ≡ stops_with kind place }
{
    match place {
        Place::Filled(stack) if stack.kind < kind => None,
        Place::Filled(stack) if stack.kind == kind => Some(stack.amount),
        _ => Some(0),
    }
}
