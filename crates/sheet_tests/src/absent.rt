// The smallest sheet that there can be: a socket with no module in it.
ghost use Rattle.std.specs.Prelude.{false, []};

use sheet::{Kind, Sheet};

// A sheet of any kind that is never fit.
#[derive(Drop)]
pub struct Absent;

impl<K: Kind> Sheet<K> for Absent {
    ghost fit = { λ _. false };

    ghost sectors = { λ _. [] };

    fn is_fit(&self) -> bool {
        false
    }

    fn read(&self, _sector: usize, _byte: usize) -> u8 {
        0xFF
    }

    fn program(&mut self, _sector: usize, _bytes: &[u8]) {}
}
