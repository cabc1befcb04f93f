// What follows from the rules of the page, on calls that rely on it.
#![tactic(auto)]

ghost use Rattle.std.specs.Prelude.{◌≡◌, IfOk, codes, Decides};
ghost use Rattle.page.specs.Pages.{stacks};
ghost use Rattle.page_laws.specs.Comparing.{same_text};
ghost use Rattle.page_laws.specs.Plays.{Plays, items};
ghost use Rattle.page_laws.specs.Refusals.{RefusedFirst};
ghost use Rattle.page_laws.specs.Texts.{Texts};
ghost use Rattle.refusal.specs.Answers.{by_number};
ghost use Rattle.std.specs.Str.{bytes_eq};

use page::{PAGE_LENGTH, Stack, read};
use refusal::Refusal;

// Says whether two bags hold the same stacks. It compares bytes, which is enough since stacks have one text.
pub fn same_stacks(one: &[u8], other: &[u8]) -> Result<bool, Refusal>
    ensures answers { by_number result ≡ same_text one.now other.now }
    ensures decides { IfOk result (λ same. Decides same (stacks one.now ≡ stacks other.now)) }
    ensures texts { Texts }
    ensures refusals { RefusedFirst }
{
    compare(one, other)
}

// Compares the first 257 bytes of two bags. Both lengths are tested before either page is read, in the order of the numbers.
fn compare(one: &[u8], other: &[u8]) -> Result<bool, Refusal>
    ensures { by_number result ≡ same_text one.now other.now }
{
    let one_text = one.first_chunk::<PAGE_LENGTH>().ok_or(Refusal::ShortPage)?;
    let other_text = other
        .first_chunk::<PAGE_LENGTH>()
        .ok_or(Refusal::ShortPage)?;
    let one_bag = read(one)?;
    let other_bag = read(other)?;
    if one_bag && other_bag {
        Ok(have_one_text(one_text, other_text))
    } else {
        Err(Refusal::NotABag)
    }
}

// Whether two pages are the same bytes: a function of its own, so that an edit of it is refused where it stands.
fn have_one_text(one: &[u8; PAGE_LENGTH], other: &[u8; PAGE_LENGTH]) -> bool
    ensures { result ≡ bytes_eq one.now other.now }
{
    one == other
}

// The eight columns of 12 items of kind 7.
pub fn first_play() -> [u8; 8]
    ensures columns { result ≡ codes "  7   12" }
    ensures plays { Plays }
{
    twelve_of_kind_seven().columns()
}

fn twelve_of_kind_seven() -> Stack
    ensures { result ≡ items 12 7 }
{
    Stack {
        kind: 7,
        amount: 12,
    }
}
