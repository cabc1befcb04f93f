// Removing items from a bag. It is like adding in shape alone: one function for both would take the tests, the edit and the law as
// parameters.
ghost use Rattle.std.specs.Prelude.{◌≡◌, true, [], ◌∷◌, OnOk};
ghost use Rattle.page.specs.Calls.{held_too_few, not_enough, remove_tests, removed_page};
ghost use Rattle.page.specs.Holdings.{Lowered};
ghost use Rattle.page.specs.Pages.{is_bag, stacks};
ghost use Rattle.page.specs.Stacks.{InRange};
ghost use Rattle.page.specs.Steps.{left_of};
ghost use Rattle.refusal.specs.Answers.{answer, by_number, on_ok};

use crate::bag::Bag;
use crate::checks::check_items;
use crate::contents::Stack;
use crate::format::PAGE_LENGTH;
use crate::layout::{remove_stack, write_stack};
use refusal::Refusal;

// Lowers a stack by some items, and closes the gap where nothing is left.
pub fn remove(page: &mut [u8], items: Stack) -> Result<(), Refusal>
    ensures answers { by_number result ≡ answer (remove_tests page.old items) tt }
    ensures leaves { page.new ≡ on_ok result (removed_page page.old items) page.old }
    ensures holds { OnOk result (Lowered page.old page.new items) }
{
    let bytes = page.first_chunk_mut().ok_or(Refusal::ShortPage)?;
    take(bytes, items)
}

// Removes items from a page of exactly 257 bytes.
fn take(page: &mut [u8; PAGE_LENGTH], items: Stack) -> Result<(), Refusal>
    ensures answers { by_number result ≡ answer (remove_tests page.old items) tt }
    ensures leaves { page.new ≡ on_ok result (removed_page page.old items) page.old }
{
    check_items(items)?;
    Bag::on(page).ok_or(Refusal::NotABag)?;
    lower(page, items)
}

// Removes items that are in range from a page that is a bag. It tests neither, like `raise`.
pub(crate) fn lower(page: &mut [u8; PAGE_LENGTH], items: Stack) -> Result<(), Refusal>
    requires bag { is_bag page.old ≡ true }
    requires range { InRange items }
    ensures answers { by_number result ≡ answer (not_enough items (stacks page.old) ∷ []) tt }
    ensures leaves { page.new ≡ on_ok result (removed_page page.old items) page.old }
{
    let bag = Bag { page };
    let (place, held) = bag.find(items.kind);
    match lowered(held, items.amount)? {
        Some(amount) => write_stack(page, place, Stack { amount, ..items }),
        None => remove_stack(page, place),
    }
    Ok(())
}

// What is left of a stack that is lowered, if anything.
fn lowered(held: u32, amount: u32) -> Result<Option<u32>, Refusal>
    ensures { by_number result ≡ answer (held_too_few held amount ∷ []) (left_of held amount) }
{
    match held.checked_sub(amount) {
        None => Err(Refusal::NotEnough),
        Some(0) => Ok(None),
        Some(rest) => Ok(Some(rest)),
    }
}
