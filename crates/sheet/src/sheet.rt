// What a sheet is: the array behind a chip of some kind.
ghost use Rattle.std.specs.Prelude.{◌≡◌, ℕ, Bool, List};
ghost use Rattle.sheet.specs.Sectors.{Shaped, byte_at, programmed};

use crate::kind::Kind;

// A sheet of a kind's sectors. `fit` and `sectors` are what it means, and all that its callers can know of it.
pub trait Sheet<K: Kind> {
    // Whether the sheet is fit. This never changes.
    ghost fit: { Self → Bool };

    // The bytes of each sector; an unfit sheet has no sectors.
    ghost sectors: { Self → List (List ℕ) };

    // Says whether the sheet is fit.
    fn is_fit(&self) -> bool
        ensures answers { result ≡ fit self.now }
        ensures shape { Shaped K.Kind.geometry (fit self.now) (sectors self.now) };

    // Answers a byte of a sector. It is no `Option`: where there is none the part drives FFH.
    fn read(&self, sector: usize, byte: usize) -> u8
        ensures { result ≡ byte_at (sectors self.now) sector byte };

    // Gives a sector its bytes; does nothing where there is no such sector or the bytes are not a whole one.
    fn program(&mut self, sector: usize, bytes: &[u8])
        ensures stays { fit self.new ≡ fit self.old }
        ensures leaves { sectors self.new ≡ programmed K.Kind.geometry (sectors self.old) sector bytes.now };
}
