// Memories for the tests: filled so that a byte tells where it stands.
use std::alloc::{AllocError, Global};

// The byte at a place of a filled memory: neighbours differ, and FFH is none of them.
fn filling(place: usize) -> u8 {
    (place % 251) as u8
}

pub(crate) fn filled(heap: Global, length: usize) -> Result<Vec<u8>, AllocError> {
    (0..length).map(filling).collect(heap)
}

// Whether a memory is as it was filled.
pub(crate) fn is_filled(memory: &[u8]) -> bool {
    memory
        .iter()
        .enumerate()
        .all(|(place, byte)| *byte == filling(place))
}

// What stands at four places of a memory, FFH past its end.
pub(crate) fn bytes_at(memory: &[u8], places: [usize; 4]) -> [u8; 4] {
    places.map(|place| memory.get(place).copied().unwrap_or(0xFF))
}
