// What is printed of some inputs.
use super::dump;
use std::process::Abort;
use std::test::Fail;

// A page with nothing in it, and some bytes after it.
fn empty_bag() -> [u8; 600] {
    let mut bytes = [b' '; 600];
    bytes[0] = 0xC9;
    bytes
}

// Writes a text byte by byte, and not by `copy_from_slice`, for which each test would have to show that there is room.
fn write(bytes: &mut [u8], start: usize, text: &[u8]) {
    for (byte, letter) in bytes.iter_mut().skip(start).zip(text) {
        *byte = *letter;
    }
}

// Writes one item of kinds 111, 121, and so on into all 32 places.
fn fill_places(bytes: &mut [u8; 600]) {
    for (columns, place) in bytes[1..257].chunks_exact_mut(8).zip(0..32u8) {
        columns.copy_from_slice(b"111    1");
        columns[0] += place / 9;
        columns[1] += place % 9;
    }
}

fn prints(rt: &(impl Abort + AllocGlobal), bytes: &[u8], lines: &[u8]) -> Result<(), Fail> {
    let printed = dump(rt.alloc(), bytes)?;
    assert_eq!(rt; printed.as_slice(), lines);
    Ok(())
}

#[test]
fn an_empty_bag_has_no_line(rt: HostRuntime) -> Result<(), Fail> {
    prints(&rt, &empty_bag()[0..257], b"")
}

#[test]
fn a_full_bag_has_a_line_for_each_place(rt: HostRuntime) -> Result<(), Fail> {
    let mut bytes = empty_bag();
    fill_places(&mut bytes);
    let printed = dump(rt.alloc(), &bytes[0..264])?;
    let lines = printed.as_slice();
    assert_eq!(rt; lines.len(), 288);
    assert_eq!(rt; &lines[..9], b"111    1\n".as_slice());
    assert_eq!(rt; &lines[279..], b"451    1\n".as_slice());
    Ok(())
}

#[test]
fn two_hundred_and_fifty_six_bytes_are_too_few(rt: HostRuntime) -> Result<(), Fail> {
    prints(&rt, &empty_bag()[0..256], b"refused  1\n")
}

#[test]
fn a_leading_zero_is_no_bag(rt: HostRuntime) -> Result<(), Fail> {
    let mut bytes = empty_bag();
    write(&mut bytes, 1, b"007   12");
    prints(&rt, &bytes[0..257], b"refused 10\n")
}

#[test]
fn a_gap_is_no_bag(rt: HostRuntime) -> Result<(), Fail> {
    let mut bytes = empty_bag();
    write(&mut bytes, 9, b"  7   12");
    prints(&rt, &bytes[0..257], b"refused 10\n")
}

#[test]
fn falling_kinds_are_no_bag(rt: HostRuntime) -> Result<(), Fail> {
    let mut bytes = empty_bag();
    write(&mut bytes, 1, b"  8    1  7    1");
    prints(&rt, &bytes[0..257], b"refused 10\n")
}

#[test]
fn bytes_after_the_page_change_nothing(rt: HostRuntime) -> Result<(), Fail> {
    let mut bytes = empty_bag();
    write(&mut bytes, 1, b"  7   1299999999");
    write(&mut bytes, 257, &[b'9'; 343]);
    prints(&rt, &bytes, b"  7   12\n99999999\n")
}
