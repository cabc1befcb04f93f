// Making items of one kind into items of another.
ghost use Rattle.std.specs.Prelude.{◌≡◌, OnOk};
ghost use Rattle.page.specs.Calls.{craft_tests, crafted_page, recipe_tests};
ghost use Rattle.page.specs.Holdings.{Exchanged};
ghost use Rattle.refusal.specs.Answers.{answer, by_number, on_ok};

use crate::adding::raise;
use crate::bag::Bag;
use crate::checks::{check_amount, check_kind};
use crate::contents::Stack;
use crate::format::PAGE_LENGTH;
use crate::removing::lower;
use crate::trial::Trial;
use refusal::Refusal;

// Removes items of one kind and adds items of another; on a refusal the page is as it was.
pub fn craft(page: &mut [u8], out: Stack, into: Stack) -> Result<(), Refusal>
    ensures answers { by_number result ≡ answer (craft_tests page.old out into) tt }
    ensures leaves { page.new ≡ on_ok result (crafted_page page.old out into) page.old }
    ensures holds { OnOk result (Exchanged page.old page.new out into) }
{
    let bytes = page.first_chunk_mut().ok_or(Refusal::ShortPage)?;
    exchange(bytes, out, into)
}

// Crafts on a page of exactly 257 bytes: the removal is a trial, put back unless the adding is good too. What the removal leaves is
// a bag again, so the page is tested once. Items in range are no type: it would be made of one stack after the other, but both kinds
// are tested before both amounts.
fn exchange(page: &mut [u8; PAGE_LENGTH], out: Stack, into: Stack) -> Result<(), Refusal>
    ensures answers { by_number result ≡ answer (craft_tests page.old out into) tt }
    ensures leaves { page.new ≡ on_ok result (crafted_page page.old out into) page.old }
{
    check_recipe(out, into)?;
    Bag::on(page).ok_or(Refusal::NotABag)?;
    let mut trial = Trial::begin(page);
    lower(trial.page, out)?;
    raise(trial.page, into)?;
    trial.keep();
    Ok(())
}

// Two stacks that are both in range, and of two kinds. They are no type of their own: craft is the one call that takes two.
fn check_recipe(out: Stack, into: Stack) -> Result<(), Refusal>
    ensures { by_number result ≡ answer (recipe_tests out into) tt }
{
    check_kind(out.kind)?;
    check_kind(into.kind)?;
    check_amount(out.amount)?;
    check_amount(into.amount)?;
    if out.kind == into.kind {
        return Err(Refusal::NamedTwice);
    }
    Ok(())
}
