// Tests of the page's calls on examples, in a crate of their own so that the page is not proved twice for them.
#![tactic(auto)]

use page::{Stack, add, blank};
use refusal::Refusal;
use std::ops::RangeInclusive;

fn items(amount: u32, kind: u32) -> Stack {
    Stack { kind, amount }
}

// A page that is a bag of one item of each kind from 1 to `last`.
fn one_of_each(last: u32) -> Result<[u8; 257], Refusal> {
    let mut page = [0; 257];
    blank(&mut page)?;
    put_one_of_kinds(&mut page, 1..=last)?;
    Ok(page)
}

fn put_one_of_kinds(page: &mut [u8], kinds: RangeInclusive<u32>) -> Result<(), Refusal> {
    for kind in kinds {
        add(page, items(1, kind))?;
    }
    Ok(())
}

fn write_first_place(page: &mut [u8; 257], columns: &[u8; 8]) {
    page[1..9].copy_from_slice(columns);
}

#[cfg(test)]
mod tests {
    use super::*;
    use page::{craft, find, read, remove};
    use std::test::Fail;

    #[test]
    fn a_leading_zero_makes_a_page_no_bag(rt: HostRuntime) -> Result<(), Fail> {
        let mut page = one_of_each(0)?;
        assert_eq!(rt; read(&page), Ok(true));
        write_first_place(&mut page, b"  7   12");
        assert_eq!(rt; read(&page), Ok(true));
        write_first_place(&mut page, b"007   12");
        assert_eq!(rt; read(&page), Ok(false));
        Ok(())
    }

    #[test]
    fn one_more_than_the_most_is_refused(rt: HostRuntime) -> Result<(), Fail> {
        let mut page = one_of_each(0)?;
        assert_eq!(rt; add(&mut page, items(99_998, 7)), Ok(()));
        assert_eq!(rt; add(&mut page, items(1, 7)), Ok(()));
        let before = page;
        assert_eq!(rt; add(&mut page, items(1, 7)), Err(Refusal::NoRoom));
        assert_eq!(rt; page, before);
        Ok(())
    }

    #[test]
    fn a_full_bag_takes_a_new_kind_only_for_a_whole_stack(rt: HostRuntime) -> Result<(), Fail> {
        let mut page = one_of_each(5)?;
        put_one_of_kinds(&mut page, 7..=33)?;
        assert_eq!(rt; add(&mut page, items(1, 5)), Ok(()));
        assert_eq!(rt; add(&mut page, items(1, 6)), Err(Refusal::NoRoom));
        let before = page;
        assert_eq!(rt;
            craft(&mut page, items(1, 5), items(4, 6)),
            Err(Refusal::NoRoom)
        );
        assert_eq!(rt; page, before);
        assert_eq!(rt; craft(&mut page, items(2, 5), items(4, 6)), Ok(()));
        assert_eq!(rt; find(&page, 5), Ok((4, 0)));
        assert_eq!(rt; find(&page, 6), Ok((4, 4)));
        Ok(())
    }

    #[test]
    fn a_search_stops_at_the_first_kind_that_is_not_smaller(rt: HostRuntime) -> Result<(), Fail> {
        let mut page = one_of_each(0)?;
        assert_eq!(rt; find(&page, 999), Ok((0, 0)));
        add(&mut page, items(99_999, 999))?;
        add(&mut page, items(12, 7))?;
        assert_eq!(rt; &page[1..17], b"  7   1299999999".as_slice());
        assert_eq!(rt; find(&page, 6), Ok((0, 0)));
        assert_eq!(rt; find(&page, 7), Ok((0, 12)));
        assert_eq!(rt; find(&page, 8), Ok((1, 0)));
        assert_eq!(rt; find(&page, 999), Ok((1, 99_999)));
        Ok(())
    }

    #[test]
    fn removing_a_whole_stack_closes_the_gap(rt: HostRuntime) -> Result<(), Fail> {
        let mut page = one_of_each(32)?;
        assert_eq!(rt; remove(&mut page, items(1, 1)), Ok(()));
        assert_eq!(rt; find(&page, 2), Ok((0, 1)));
        assert_eq!(rt; find(&page, 32), Ok((30, 1)));
        assert_eq!(rt; find(&page, 33), Ok((31, 0)));
        assert_eq!(rt; remove(&mut page, items(2, 2)), Err(Refusal::NotEnough));
        assert_eq!(rt; remove(&mut page, items(1, 1)), Err(Refusal::NotEnough));
        Ok(())
    }

    #[test]
    fn a_page_of_256_bytes_is_refused_before_anything_else(rt: HostRuntime) {
        let mut page = [0; 256];
        assert_eq!(rt; read(&page), Err(Refusal::ShortPage));
        assert_eq!(rt; find(&page, 0), Err(Refusal::ShortPage));
        assert_eq!(rt; blank(&mut page), Err(Refusal::ShortPage));
        assert_eq!(rt; add(&mut page, items(0, 0)), Err(Refusal::ShortPage));
        assert_eq!(rt; remove(&mut page, items(0, 0)), Err(Refusal::ShortPage));
        assert_eq!(rt;
            craft(&mut page, items(0, 0), items(0, 0)),
            Err(Refusal::ShortPage)
        );
        assert_eq!(rt; page, [0; 256]);
    }

    #[test]
    fn the_first_refusal_that_fits_is_given(rt: HostRuntime) {
        let mut page = [0; 257];
        assert_eq!(rt; find(&page, 1000), Err(Refusal::NoSuchKind));
        assert_eq!(rt; find(&page, u32::MAX), Err(Refusal::NoSuchKind));
        assert_eq!(rt; find(&page, 1), Err(Refusal::NotABag));
        assert_eq!(rt; add(&mut page, items(0, 0)), Err(Refusal::NoSuchKind));
        assert_eq!(rt;
            add(&mut page, items(100_000, 1)),
            Err(Refusal::NoSuchAmount)
        );
        assert_eq!(rt;
            add(&mut page, items(u32::MAX, 1)),
            Err(Refusal::NoSuchAmount)
        );
        assert_eq!(rt; add(&mut page, items(1, 1)), Err(Refusal::NotABag));
        assert_eq!(rt;
            remove(&mut page, items(0, 999)),
            Err(Refusal::NoSuchAmount)
        );
        assert_eq!(rt; remove(&mut page, items(1, 999)), Err(Refusal::NotABag));
    }

    #[test]
    fn a_craft_tests_both_kinds_before_both_amounts(rt: HostRuntime) {
        let mut page = [0; 257];
        assert_eq!(rt;
            craft(&mut page, items(0, 1), items(1, 0)),
            Err(Refusal::NoSuchKind)
        );
        assert_eq!(rt;
            craft(&mut page, items(1, 1), items(0, 1)),
            Err(Refusal::NoSuchAmount)
        );
        assert_eq!(rt;
            craft(&mut page, items(1, 1), items(1, 1)),
            Err(Refusal::NamedTwice)
        );
        assert_eq!(rt;
            craft(&mut page, items(1, 1), items(1, 2)),
            Err(Refusal::NotABag)
        );
    }

    #[test]
    fn bytes_after_the_page_are_kept(rt: HostRuntime) -> Result<(), Fail> {
        let mut sector = [0xA5; 264];
        blank(&mut sector)?;
        add(&mut sector, items(3, 4))?;
        craft(&mut sector, items(2, 4), items(5, 6))?;
        remove(&mut sector, items(1, 4))?;
        assert_eq!(rt; &sector[1..9], b"  6    5".as_slice());
        assert_eq!(rt; &sector[257..264], [0xA5; 7].as_slice());
        Ok(())
    }
}
