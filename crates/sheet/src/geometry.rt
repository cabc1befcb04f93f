// The four numbers of a kind of part.

#[derive(Clone, Copy, Debug, PartialEq, Eq)]
pub struct Geometry {
    // How many sectors the array has.
    pub sectors: usize,
    // How many bytes a sector has.
    pub size: usize,
    // What a byte address on the wire is taken modulo.
    pub modulus: usize,
    // Whether the SRAM is held while a sector is programmed.
    pub held: bool,
}
