// What a kind of part is: four numbers within bounds.
ghost use Rattle.std.specs.Prelude.{◌≡◌};
ghost use Rattle.sheet.specs.declared.geometry.Geometry.{Geometry};
ghost use Rattle.sheet.specs.Kinds.{InBounds};

use crate::geometry::Geometry;

// The most bytes that a sector of any kind has.
pub const LARGEST_SECTOR: usize = 536;

// A kind of part. A constant has no value in the proof of code that is written over any kind; such code asks for the
// numbers by the functions, whose contracts tie them to `geometry`.
pub trait Kind {
    // How many sectors the array has.
    const N: usize;
    // How many bytes a sector has.
    const Z: usize;
    // What a byte address on the wire is taken modulo.
    const MODULUS: usize;
    // Whether the SRAM is held while a sector is programmed.
    const HELD: bool;

    // The four numbers as contracts have them.
    ghost geometry: { Geometry };

    // The four constants together.
    fn numbers() -> Geometry
        ensures { result ≡ geometry };

    // Each of the four by itself.
    fn sectors() -> usize
        ensures { result ≡ geometry.sectors }
    {
        Self::numbers().sectors
    }

    fn sector_size() -> usize
        ensures { result ≡ geometry.size }
    {
        Self::numbers().size
    }

    fn byte_modulus() -> usize
        ensures { result ≡ geometry.modulus }
    {
        Self::numbers().modulus
    }

    fn holds_sram() -> bool
        ensures { result ≡ geometry.held }
    {
        Self::numbers().held
    }

    // What any kind must show.
    ghost bounds: { InBounds geometry };
}
