// The tests of kinds and amounts, each with its refusal. A call makes them in the order of their numbers.
ghost use Rattle.std.specs.Prelude.{◌≡◌, [], ◌∷◌};
ghost use Rattle.page.specs.Calls.{no_such_amount, no_such_kind, outside};
ghost use Rattle.refusal.specs.Answers.{answer, by_number};

use crate::contents::Stack;
use crate::format::{LAST_KIND, MOST_ITEMS};
use refusal::Refusal;

pub(crate) fn check_kind(kind: u32) -> Result<(), Refusal>
    ensures { by_number result ≡ answer (no_such_kind kind ∷ []) tt }
{
    check_range(kind, LAST_KIND, Refusal::NoSuchKind)
}

pub(crate) fn check_amount(amount: u32) -> Result<(), Refusal>
    ensures { by_number result ≡ answer (no_such_amount amount ∷ []) tt }
{
    check_range(amount, MOST_ITEMS, Refusal::NoSuchAmount)
}

// Refuses a number that is not one of 1 to the largest.
fn check_range(number: u32, largest: u32, refusal: Refusal) -> Result<(), Refusal>
    ensures { by_number result ≡ answer (outside number largest refusal ∷ []) tt }
{
    if (1..=largest).contains(&number) {
        Ok(())
    } else {
        Err(refusal)
    }
}

// Items of a kind and an amount that are both in range.
pub(crate) fn check_items(items: Stack) -> Result<(), Refusal>
    ensures { by_number result ≡ answer (no_such_kind items.kind ∷ no_such_amount items.amount ∷ []) tt }
{
    check_kind(items.kind)?;
    check_amount(items.amount)
}
