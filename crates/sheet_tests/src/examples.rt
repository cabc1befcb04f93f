// The kinds of part in numbers that are written out, and not worked out as the code does.
use sheet::{Kind, Nx25f011a, Nx25f080b};

#[derive(Clone, Copy)]
pub(crate) struct Numbers {
    // How many bytes a fit memory has.
    pub(crate) length: usize,
    pub(crate) sectors: usize,
    pub(crate) last_sector: usize,
    pub(crate) size: usize,
    pub(crate) last_byte: usize,
    // What a filled memory holds at the first and the last byte of the first and of the last sector.
    pub(crate) corners: [u8; 4],
    // Where the first sector ends, the second begins, the last but one ends and the last begins, and what a filled memory
    // holds there.
    pub(crate) borders: [(usize, u8); 4],
}

// A kind of part whose numbers are written out.
pub(crate) trait Example: Kind {
    const NUMBERS: Numbers;
}

impl Example for Nx25f011a {
    const NUMBERS: Numbers = Numbers {
        length: 135_168,
        sectors: 512,
        last_sector: 511,
        size: 264,
        last_byte: 263,
        corners: [0, 12, 117, 129],
        borders: [(263, 12), (264, 13), (134_903, 116), (134_904, 117)],
    };
}

impl Example for Nx25f080b {
    const NUMBERS: Numbers = Numbers {
        length: 1_097_728,
        sectors: 2_048,
        last_sector: 2_047,
        size: 536,
        last_byte: 535,
        corners: [0, 33, 71, 104],
        borders: [(535, 33), (536, 34), (1_097_191, 70), (1_097_192, 71)],
    };
}
