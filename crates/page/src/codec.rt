// One place of a page: a stack as eight columns of text, and back.
ghost use Rattle.std.specs.Prelude.{◌≡◌};
ghost use Rattle.page.specs.Places.{place_in, text};

use crate::contents::{Place, Stack};
use decimal::{columns, is_blank, is_numeral, value};

// What a place holds: three columns of a kind and five of an amount, or eight spaces. The eight named bytes and their guards are
// the project's form. `read_place` and `columns` are no `From`: their names say what the text is.
#[tactic(auto, using(crate::proofs::Columns::reads_empty, crate::proofs::Columns::reads_filled, crate::proofs::Columns::reads_malformed))]
pub fn read_place(columns: &[u8]) -> Place
    ensures { result ≡ place_in columns.now }
{
    match columns {
        [a, b, c, d, e, f, g, h] if is_blank(&[*a, *b, *c, *d, *e, *f, *g, *h]) => Place::Empty,
        [a, b, c, d, e, f, g, h]
            if is_numeral(&[*a, *b, *c]) && is_numeral(&[*d, *e, *f, *g, *h]) => {
            Place::Filled(Stack {
                kind: value(&[*a, *b, *c]),
                amount: value(&[*d, *e, *f, *g, *h]),
            })
        }
        _ => Place::Malformed,
    }
}

impl Stack {
    // The eight columns of the stack's place.
    pub fn columns(self) -> [u8; 8]
        ensures { result ≡ text self }
    {
        let [a, b, c] = columns::<3>(self.kind);
        let [d, e, f, g, h] = columns::<5>(self.amount);
        [a, b, c, d, e, f, g, h]
    }
}
