// The flat sheet: lent memory in which the sectors lie one after another.
ghost use Rattle.std.specs.Prelude.{◌≡◌, ◌≤◌, IfSome, length};
ghost use Rattle.sheet.specs.Flat.{HoldsSectors, flat_fit, flat_programmed, flat_sectors, flat_span};
ghost use Rattle.sheet.specs.Sectors.{programmed};

use crate::kind::Kind;
use crate::sheet::Sheet;
use std::ops::Range;

// Sector s lies at s × Z of the memory; the sheet is fit when the memory has N × Z bytes.
#[derive(Drop)]
pub struct Flat<'a> {
    memory: &'a mut [u8],
}

impl<'a> Flat<'a> {
    // Makes a flat sheet of lent memory.
    pub fn new(memory: &'a mut [u8]) -> Flat<'a>
        ensures { result.memory.now ≡ memory.old }
    {
        Flat { memory }
    }

    // Ends the sheet and gives its memory back.
    #[tactic(auto, using(crate::proofs::FlatSectors::holds_sectors))]
    pub fn into_memory(self) -> &'a mut [u8]
        ensures holds { result.now ≡ self.entry.memory.now }
        ensures sectors { HoldsSectors result.now }
    {
        let Flat { memory } = self;
        memory
    }

    // Whether the memory has the bytes of all sectors and no more.
    fn fits<K: Kind>(&self) -> bool
        ensures { result ≡ flat_fit K.Kind.geometry self.now.memory.now }
    {
        self.memory.len() == K::sectors() * K::sector_size()
    }

    // Where a sector lies in the memory, if it is there.
    fn span<K: Kind>(&self, sector: usize) -> Option<Range<usize>>
        ensures span { result ≡ flat_span K.Kind.geometry self.now.memory.now sector }
        ensures within { IfSome result (λ span. span.end ≤ length self.now.memory.now) }
    {
        if !self.fits::<K>() || sector >= K::sectors() {
            return None;
        }
        let start = sector * K::sector_size();
        Some(start..start + K::sector_size())
    }
}

impl<'a, K: Kind> Sheet<K> for Flat<'a> {
    ghost fit = { λ s. flat_fit K.Kind.geometry s.memory.now };

    ghost sectors = { λ s. flat_sectors K.Kind.geometry s.memory.now };

    #[tactic(auto, using(crate::proofs::FlatSectors::flat_shaped))]
    fn is_fit(&self) -> bool {
        self.fits::<K>()
    }

    #[tactic(auto, using(crate::proofs::Listed::listed_there))]
    fn read(&self, sector: usize, byte: usize) -> u8 {
        let Some(span) = self.span::<K>(sector) else {
            return 0xFF;
        };
        self.memory[span].get(byte).copied().unwrap_or(0xFF)
    }

    // The clauses `stays` and `leaves` are the trait's, which a clause of one's own has to stand beside; `memory` says more:
    // where nothing is programmed even a memory that is not fit is as it was.
    #[tactic(auto, using(std::proofs::lemmas::Grind::common_steps, crate::proofs::FlatPrograms::flat_programs))]
    fn program(&mut self, sector: usize, bytes: &[u8])
        ensures stays { flat_fit K.Kind.geometry self.new.memory.now ≡ flat_fit K.Kind.geometry self.old.memory.now }
        ensures leaves { flat_sectors K.Kind.geometry self.new.memory.now ≡ programmed K.Kind.geometry (flat_sectors K.Kind.geometry self.old.memory.now) sector bytes.now }
        ensures memory { self.new.memory.now ≡ flat_programmed K.Kind.geometry self.old.memory.now sector bytes.now }
    {
        let Some(span) = self.span::<K>(sector) else {
            return;
        };
        if bytes.len() == K::sector_size() {
            self.memory[span].copy_from_slice(bytes);
        }
    }
}
