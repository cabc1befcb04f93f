// A page as lines of text, for people and for tools that inspect module images.
#![tactic(auto)]

ghost use Rattle.std.specs.Prelude.{◌≡◌, ◌≤◌, [], ◌∷◌, ◌++◌, length, IfOk, OnOk};
ghost use Rattle.listing.specs.Lines.{dumped, line, lines as lines_of};
ghost use Rattle.page.specs.declared.format.TheConstants.{PAGE_LENGTH};
ghost use Rattle.page.specs.Calls.{not_bag, short_page};
ghost use Rattle.page.specs.Pages.{stacks};
ghost use Rattle.refusal.specs.Answers.{answer, by_number};

use page::{COLUMNS, PAGE_LENGTH, Place, Stack, read, read_place};
use refusal::Refusal;
use std::alloc::{AllocError, Global};

// The text of some bytes: a line for each stack of a bag, or one line that says why they are no bag.
pub fn dump(heap: Global, bytes: &[u8]) -> Result<Vec<u8>, AllocError>
    ensures { IfOk result (λ v. v.items ≡ dumped bytes.now) }
{
    let mut lines = Vec::new(heap);
    match check_bag(bytes) {
        Ok(()) => write_stacks(&mut lines, bytes)?,
        Err(refusal) => lines.extend_from_slice(&refusal.line())?,
    }
    Ok(lines)
}

// Refuses what is no bag. The page has such a test of its own, but not for others to call.
fn check_bag(bytes: &[u8]) -> Result<(), Refusal>
    ensures { by_number result ≡ answer (short_page bytes.now ∷ not_bag bytes.now ∷ []) tt }
{
    if read(bytes)? {
        Ok(())
    } else {
        Err(Refusal::NotABag)
    }
}

// Writes a line for each stack of a page, up to the first place that is not filled. Its one caller has tested the length.
fn write_stacks(lines: &mut Vec<u8>, page: &[u8]) -> Result<(), AllocError>
    requires { PAGE_LENGTH ≤ length page.now }
    ensures { OnOk result (lines.new.items ≡ lines.old.items ++ lines_of (stacks page.now)) }
{
    for columns in page[1..PAGE_LENGTH].chunks_exact(COLUMNS) {
        let Place::Filled(stack) = read_place(columns) else {
            break;
        };
        write_line(lines, stack)?;
    }
    Ok(())
}

fn write_line(lines: &mut Vec<u8>, stack: Stack) -> Result<(), AllocError>
    ensures { OnOk result (lines.new.items ≡ lines.old.items ++ line stack) }
{
    lines.extend_from_slice(&stack.columns())?;
    lines.push(b'\n')?;
    Ok(())
}

#[cfg(test)]
mod tests;
