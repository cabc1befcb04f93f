// Tests of sheets on examples, in a crate of their own so that the sheets are not proved twice for them.
#![tactic(auto)]

mod absent;
mod examples;
mod memories;

use crate::memories::is_filled;
use sheet::{Flat, Kind, Sheet};
use sheet_laws::program_sector;

// What a sheet reads at byte 0 and another byte of sector 0 and of another sector.
fn corners<K: Kind, S: Sheet<K>>(sheet: &S, sector: usize, byte: usize) -> [u8; 4] {
    [
        sheet.read(0, 0),
        sheet.read(0, byte),
        sheet.read(sector, 0),
        sheet.read(sector, byte),
    ]
}

// Whether a program of a filled memory is refused and leaves every byte of it.
fn is_refused<K: Kind>(memory: &mut [u8], sector: usize, bytes: &[u8]) -> bool {
    let mut sheet = Flat::new(memory);
    let done = program_sector::<K, Flat>(&mut sheet, sector, bytes);
    !done && is_filled(sheet.into_memory())
}

#[cfg(test)]
mod tests {
    use super::*;
    use crate::absent::Absent;
    use crate::examples::Example;
    use crate::memories::{bytes_at, filled};
    use sheet::{Nx25f011a, Nx25f080b};
    use sheet_laws::copy_sector;
    use std::process::Abort;
    use std::test::Fail;

    fn corners_are_read<K: Example>(rt: &(impl Abort + AllocGlobal)) -> Result<(), Fail> {
        let example = K::NUMBERS;
        let mut memory = filled(rt.alloc(), example.length)?;
        let sheet = Flat::new(memory.as_mut_slice());
        assert!(rt; Sheet::<K>::is_fit(&sheet));
        assert_eq!(rt;
            corners::<K, Flat>(&sheet, example.last_sector, example.last_byte),
            example.corners
        );
        assert_eq!(rt;
            corners::<K, Flat>(&sheet, example.sectors, example.size),
            [0, 0xFF, 0xFF, 0xFF]
        );
        assert_eq!(rt;
            corners::<K, Flat>(&sheet, usize::MAX, usize::MAX),
            [0, 0xFF, 0xFF, 0xFF]
        );
        Ok(())
    }

    // Programs the last sector like the first of a filled memory, then the first with other bytes, and opens the memory again.
    fn programs_change_one_sector<K: Example>(rt: &(impl Abort + AllocGlobal)) -> Result<(), Fail> {
        let example = K::NUMBERS;
        let mut memory = filled(rt.alloc(), example.length)?;
        let mut sheet = Flat::new(memory.as_mut_slice());
        let [first, last, _, _] = example.corners;
        let bytes = filled(rt.alloc(), example.size)?;
        assert!(rt; program_sector::<K, Flat>(&mut sheet, example.last_sector, bytes.as_slice()));
        assert_eq!(rt;
            corners::<K, Flat>(&sheet, example.last_sector, example.last_byte),
            [first, last, first, last]
        );
        let others = vec![in rt.alloc(); 0xA5; example.size]?;
        assert!(rt; program_sector::<K, Flat>(&mut sheet, 0, others.as_slice()));
        assert_eq!(rt;
            corners::<K, Flat>(&sheet, example.last_sector, example.last_byte),
            [0xA5, 0xA5, first, last]
        );
        let memory = sheet.into_memory();
        let [_, (_, second), (_, before_last), _] = example.borders;
        assert_eq!(rt;
            bytes_at(memory, example.borders.map(|(place, _)| place)),
            [0xA5, second, before_last, first]
        );
        let again = Flat::new(memory);
        assert_eq!(rt;
            corners::<K, Flat>(&again, example.last_sector, example.last_byte),
            [0xA5, 0xA5, first, last]
        );
        Ok(())
    }

    fn past_the_end_and_wrong_lengths_are_refused<K: Example>(
        rt: &(impl Abort + AllocGlobal),
    ) -> Result<(), Fail> {
        let example = K::NUMBERS;
        let mut memory = filled(rt.alloc(), example.length)?;
        let memory = memory.as_mut_slice();
        let bytes = vec![in rt.alloc(); 0xA5; example.size]?;
        assert!(rt; is_refused::<K>(memory, example.sectors, bytes.as_slice()));
        assert!(rt; is_refused::<K>(memory, usize::MAX, bytes.as_slice()));
        let short = vec![in rt.alloc(); 0xA5; example.last_byte]?;
        assert!(rt; is_refused::<K>(memory, 0, short.as_slice()));
        let long = vec![in rt.alloc(); 0xA5; example.size.saturating_add(1)]?;
        assert!(rt; is_refused::<K>(memory, example.last_sector, long.as_slice()));
        assert!(rt; is_refused::<K>(memory, 0, &[]));
        Ok(())
    }

    // A memory of another length reads as FFH and programs nothing.
    fn is_unfit<K: Kind>(
        rt: &(impl Abort + AllocGlobal),
        length: usize,
        size: usize,
    ) -> Result<(), Fail> {
        let mut memory = filled(rt.alloc(), length)?;
        let bytes = vec![in rt.alloc(); 0xA5; size]?;
        assert!(rt; is_refused::<K>(memory.as_mut_slice(), 0, bytes.as_slice()));
        let sheet = Flat::new(memory.as_mut_slice());
        assert!(rt; !Sheet::<K>::is_fit(&sheet));
        assert_eq!(rt; corners::<K, Flat>(&sheet, 1, 1), [0xFF; 4]);
        Ok(())
    }

    fn other_lengths_are_unfit<K: Example>(rt: &(impl Abort + AllocGlobal)) -> Result<(), Fail> {
        let example = K::NUMBERS;
        is_unfit::<K>(rt, example.length.saturating_sub(1), example.size)?;
        is_unfit::<K>(rt, example.length.saturating_add(1), example.size)?;
        is_unfit::<K>(rt, 0, example.size)
    }

    #[test]
    fn both_kinds_have_their_numbers(rt: HostRuntime) {
        assert_eq!(rt;
            [Nx25f011a::N, Nx25f011a::Z, Nx25f011a::MODULUS],
            [512, 264, 512]
        );
        assert!(rt; !Nx25f011a::HELD);
        assert_eq!(rt;
            [Nx25f080b::N, Nx25f080b::Z, Nx25f080b::MODULUS],
            [2_048, 536, 1_024]
        );
        assert!(rt; Nx25f080b::HELD);
    }

    #[test]
    fn corners_are_read_on_both_kinds(rt: HostRuntime) -> Result<(), Fail> {
        corners_are_read::<Nx25f011a>(&rt)?;
        corners_are_read::<Nx25f080b>(&rt)
    }

    #[test]
    fn programs_change_one_sector_on_both_kinds(rt: HostRuntime) -> Result<(), Fail> {
        programs_change_one_sector::<Nx25f011a>(&rt)?;
        programs_change_one_sector::<Nx25f080b>(&rt)
    }

    #[test]
    fn past_the_end_and_wrong_lengths_are_refused_on_both_kinds(
        rt: HostRuntime,
    ) -> Result<(), Fail> {
        past_the_end_and_wrong_lengths_are_refused::<Nx25f011a>(&rt)?;
        past_the_end_and_wrong_lengths_are_refused::<Nx25f080b>(&rt)
    }

    #[test]
    fn other_lengths_are_unfit_on_both_kinds(rt: HostRuntime) -> Result<(), Fail> {
        other_lengths_are_unfit::<Nx25f011a>(&rt)?;
        other_lengths_are_unfit::<Nx25f080b>(&rt)
    }

    #[test]
    fn a_memory_of_one_kind_is_unfit_for_the_other(rt: HostRuntime) -> Result<(), Fail> {
        is_unfit::<Nx25f080b>(&rt, Nx25f011a::NUMBERS.length, 536)?;
        is_unfit::<Nx25f011a>(&rt, Nx25f080b::NUMBERS.length, 264)
    }

    #[test]
    fn a_sector_is_copied_to_another_sheet(rt: HostRuntime) -> Result<(), Fail> {
        let mut memory = filled(rt.alloc(), 135_168)?;
        let source = Flat::new(memory.as_mut_slice());
        let mut other = vec![in rt.alloc(); 0x5A; 135_168]?;
        let mut target = Flat::new(other.as_mut_slice());
        assert!(rt; copy_sector::<Nx25f011a, Flat, Flat>(&source, 511, &mut target, 1));
        assert!(rt; !copy_sector::<Nx25f011a, Flat, Flat>(&source, 512, &mut target, 0));
        assert!(rt; !copy_sector::<Nx25f011a, Flat, Flat>(&source, 0, &mut target, 512));
        assert_eq!(rt;
            bytes_at(target.into_memory(), [263, 264, 527, 528]),
            [0x5A, 117, 129, 0x5A]
        );
        Ok(())
    }

    #[test]
    fn an_absent_sheet_reads_as_ones_and_takes_nothing(rt: HostRuntime) -> Result<(), Fail> {
        let mut absent = Absent;
        assert_eq!(rt; corners::<Nx25f080b, Absent>(&absent, 1, 1), [0xFF; 4]);
        assert!(rt; !program_sector::<Nx25f080b, Absent>(&mut absent, 0, &[0xA5; 536]));
        let mut memory = filled(rt.alloc(), 135_168)?;
        let mut sheet = Flat::new(memory.as_mut_slice());
        assert!(rt; !copy_sector::<Nx25f011a, Flat, Absent>(&sheet, 0, &mut absent, 0));
        assert!(rt; !copy_sector::<Nx25f011a, Absent, Flat>(&absent, 0, &mut sheet, 0));
        assert!(rt; is_filled(sheet.into_memory()));
        Ok(())
    }
}
