// Programming a sector of any sheet.
ghost use Rattle.std.specs.Prelude.{◌≡◌};
ghost use Rattle.sheet.specs.Sectors.{can_program, programmed};
ghost use Rattle.sheet_laws.specs.Programming.{ProgramReads};

use crate::copying::has_sector;
use sheet::{Kind, Sheet};

// Programs a sector, and says whether that was done. It is no `Result`: which refusal it would be is for the layers above.
pub fn program_sector<K: Kind, S: Sheet<K>>(sheet: &mut S, sector: usize, bytes: &[u8]) -> bool
    ensures answers { result ≡ can_program K.Kind.geometry (S.Sheet.fit sheet.old) sector bytes.now }
    ensures stays { S.Sheet.fit sheet.new ≡ S.Sheet.fit sheet.old }
    ensures leaves { S.Sheet.sectors sheet.new ≡ programmed K.Kind.geometry (S.Sheet.sectors sheet.old) sector bytes.now }
    ensures reads { ProgramReads result (S.Sheet.sectors sheet.old) (S.Sheet.sectors sheet.new) sector bytes.now }
{
    let done = has_sector::<K, S>(sheet, sector) && bytes.len() == K::sector_size();
    sheet.program(sector, bytes);
    done
}
