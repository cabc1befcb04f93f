// Copying a sector between any two sheets of one kind of part.
ghost use Rattle.std.specs.Prelude.{◌≡◌, ℕ, ◌<◌, length, nat_lt, slice_index};
ghost use Rattle.sheet.specs.Sectors.{Shaped, byte_at};
ghost use Rattle.sheet_laws.specs.Copying.{can_copy, copied};

use sheet::{Kind, LARGEST_SECTOR, Sheet};

// Copies a sector of one sheet to a sector of another, and says whether that was done. Like `program_sector` it answers no
// `Result`: which refusal it would be is for the layers above.
pub fn copy_sector<K: Kind, S: Sheet<K>, T: Sheet<K>>(
    source: &S,
    from: usize,
    target: &mut T,
    to: usize,
) -> bool
    ensures answers { result ≡ can_copy (S.Sheet.sectors source.now) from (T.Sheet.sectors target.old) to }
    ensures stays { T.Sheet.fit target.new ≡ T.Sheet.fit target.old }
    ensures leaves { T.Sheet.sectors target.new ≡ copied (S.Sheet.sectors source.now) from (T.Sheet.sectors target.old) to }
{
    if !has_sector::<K, S>(source, from) || !has_sector::<K, T>(target, to) {
        return false;
    }
    // A buffer for the largest sector, cut to size: a handheld has no heap, and an array cannot be as long as its kind says.
    let mut buffer = [0xFF; LARGEST_SECTOR];
    let bytes = &mut buffer[..K::sector_size()];
    read_sector::<K, S>(source, from, bytes);
    target.program(to, bytes);
    true
}

// Whether a sheet has such a sector.
pub(crate) fn has_sector<K: Kind, S: Sheet<K>>(sheet: &S, sector: usize) -> bool
    ensures answers { result ≡ nat_lt sector (length (S.Sheet.sectors sheet.now)) }
    ensures shape { Shaped K.Kind.geometry (S.Sheet.fit sheet.now) (S.Sheet.sectors sheet.now) }
{
    sheet.is_fit() && sector < K::sectors()
}

// Fills a buffer with the bytes of a sector, from the first on.
fn read_sector<K: Kind, S: Sheet<K>>(sheet: &S, sector: usize, bytes: &mut [u8])
    ensures long { length bytes.new ≡ length bytes.old }
    ensures reads { (byte : ℕ) → byte < length bytes.old → slice_index bytes.new byte ≡ byte_at (S.Sheet.sectors sheet.now) sector byte }
{
    for (byte, target) in bytes.iter_mut().enumerate() {
        *target = sheet.read(sector, byte);
    }
}
