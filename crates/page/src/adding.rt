// Adding items to a bag.
ghost use Rattle.std.specs.Prelude.{◌≡◌, ◌+◌, ◌≤◌, true, [], ◌∷◌, length, nat_le, OnOk};
ghost use Rattle.page.specs.declared.format.TheConstants.{PLACES};
ghost use Rattle.page.specs.Calls.{add_tests, added_page, no_room, stack_too_large};
ghost use Rattle.page.specs.Holdings.{Raised};
ghost use Rattle.page.specs.Pages.{is_bag, stacks};
ghost use Rattle.page.specs.Stacks.{InRange};
ghost use Rattle.refusal.specs.Answers.{answer, by_number, on_ok};

use crate::bag::Bag;
use crate::checks::check_items;
use crate::contents::{Place, Stack};
use crate::format::{MOST_ITEMS, PAGE_LENGTH, PLACES};
use crate::layout::{insert_stack, write_stack};
use refusal::Refusal;

// Raises a stack by some items, or puts a new one in its order.
pub fn add(page: &mut [u8], items: Stack) -> Result<(), Refusal>
    ensures answers { by_number result ≡ answer (add_tests page.old items) tt }
    ensures leaves { page.new ≡ on_ok result (added_page page.old items) page.old }
    ensures holds { OnOk result (Raised page.old page.new items) }
{
    let bytes = page.first_chunk_mut().ok_or(Refusal::ShortPage)?;
    put(bytes, items)
}

// Adds items to a page of exactly 257 bytes.
fn put(page: &mut [u8; PAGE_LENGTH], items: Stack) -> Result<(), Refusal>
    ensures answers { by_number result ≡ answer (add_tests page.old items) tt }
    ensures leaves { page.new ≡ on_ok result (added_page page.old items) page.old }
{
    check_items(items)?;
    Bag::on(page).ok_or(Refusal::NotABag)?;
    raise(page, items)
}

// Adds items that are in range to a page that is a bag. It tests neither, so that a craft tests its page once: what a removal leaves
// is a bag again.
pub(crate) fn raise(page: &mut [u8; PAGE_LENGTH], items: Stack) -> Result<(), Refusal>
    requires bag { is_bag page.old ≡ true }
    requires range { InRange items }
    ensures answers { by_number result ≡ answer (no_room items (stacks page.old) ∷ []) tt }
    ensures leaves { page.new ≡ on_ok result (added_page page.old items) page.old }
{
    let bag = Bag { page };
    let (place, held) = bag.find(items.kind);
    if held == 0 {
        if bag.is_full() {
            return Err(Refusal::NoRoom);
        }
        insert_stack(page, place, items);
    } else {
        let amount = raised(held, items.amount)?;
        write_stack(page, place, Stack { amount, ..items });
    }
    Ok(())
}

// The amount of a stack that is raised, unless it would pass 99,999.
fn raised(held: u32, amount: u32) -> Result<u32, Refusal>
    ensures { by_number result ≡ answer (stack_too_large held amount ∷ []) (held + amount) }
{
    match held.checked_add(amount) {
        Some(sum) if sum <= MOST_ITEMS => Ok(sum),
        _ => Err(Refusal::NoRoom),
    }
}

impl Bag<'_> {
    // Whether the bag has 32 stacks: then its last place is filled.
    #[tactic(auto, using(crate::proofs::Fullness::bag_full))]
    fn is_full(self) -> bool
        ensures { result ≡ nat_le PLACES (length (stacks self.entry.page.now)) }
    {
        matches!(self.place_at(PLACES - 1), Place::Filled(_))
    }
}
