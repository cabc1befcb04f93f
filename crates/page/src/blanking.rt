// Making a page the blank page.
ghost use Rattle.std.specs.Prelude.{◌≡◌, ◌-◌, ◌∷◌, replicate, slice_set, OnOk};
ghost use Rattle.page.specs.declared.format.TheConstants.{PAGE_LENGTH, TAG};
ghost use Rattle.page.specs.Calls.{blank_page, blank_tests};
ghost use Rattle.page.specs.Holdings.{Emptied};
ghost use Rattle.refusal.specs.Answers.{answer, by_number, on_ok};

use crate::format::{PAGE_LENGTH, TAG};
use refusal::Refusal;

// Makes a page a bag with no stacks.
pub fn blank(page: &mut [u8]) -> Result<(), Refusal>
    ensures answers { by_number result ≡ answer (blank_tests page.old) tt }
    ensures leaves { page.new ≡ on_ok result (blank_page page.old) page.old }
    ensures holds { OnOk result (Emptied page.old page.new) }
{
    let bytes = page.first_chunk_mut().ok_or(Refusal::ShortPage)?;
    clear(bytes);
    Ok(())
}

// Writes the text of a bag with no stacks: the tag, then spaces only.
fn clear(page: &mut [u8; PAGE_LENGTH])
    ensures { page.new ≡ TAG ∷ replicate (PAGE_LENGTH - 1) 32 }
{
    write_tag(page);
    page[1..].fill(b' ');
}

// Writes the tag alone: a function of its own, so that an edit of it is refused where it stands.
fn write_tag(page: &mut [u8; PAGE_LENGTH])
    ensures { page.new ≡ slice_set page.old 0 TAG }
{
    page[0] = TAG;
}
