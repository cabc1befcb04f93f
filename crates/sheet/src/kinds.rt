// The kinds of part that are built.
ghost use Rattle.sheet.specs.Kinds.{nx25f011a, nx25f080b};
ghost use Rattle.std.proofs.Common.{rules};

use crate::geometry::Geometry;
use crate::kind::Kind;

// The part with 512 sectors of 264 bytes.
pub struct Nx25f011a;

impl Kind for Nx25f011a {
    const N: usize = 512;

    const Z: usize = 264;

    const MODULUS: usize = 512;

    const HELD: bool = false;

    ghost geometry = { nx25f011a };

    ghost bounds = { Prim.search rules };

    fn numbers() -> Geometry {
        Geometry {
            sectors: Self::N,
            size: Self::Z,
            modulus: Self::MODULUS,
            held: Self::HELD,
        }
    }
}

// The part with 2,048 sectors of 536 bytes.
pub struct Nx25f080b;

impl Kind for Nx25f080b {
    const N: usize = 2_048;

    const Z: usize = 536;

    const MODULUS: usize = 1_024;

    const HELD: bool = true;

    ghost geometry = { nx25f080b };

    ghost bounds = { Prim.search rules };

    fn numbers() -> Geometry {
        Geometry {
            sectors: Self::N,
            size: Self::Z,
            modulus: Self::MODULUS,
            held: Self::HELD,
        }
    }
}
