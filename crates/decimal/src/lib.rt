// Whole numbers as decimal text, right-justified in columns of one byte each.
#![tactic(auto)]

ghost use Rattle.std.specs.Prelude.{◌≡◌, ◌-◌, ◌^◌, min};
ghost use Rattle.decimal.specs.Columns.{blank, columns as columns_of, digit as digit_of, digits, last_column, numeral, value as value_of};

// The column furthest right of a number, a space where nothing is left to write.
pub fn last_column(value: u32) -> u8
    ensures { result ≡ last_column value }
{
    if value == 0 {
        b' '
    } else {
        b'0' + (value % 10) as u8
    }
}

// A number right-justified in that many columns, spaces on its left.
pub fn columns<const WIDTH: usize>(value: u32) -> [u8; WIDTH]
    ensures { result ≡ columns_of WIDTH value }
{
    // Turned round at the end: a proof knows nothing of what is written through `iter_mut().rev()`.
    let mut columns = [b' '; WIDTH];
    let mut rest = value;
    for column in columns.iter_mut() {
        *column = last_column(rest);
        rest /= 10;
    }
    columns.reverse();
    columns
}

// What a column adds to the number that it stands in.
pub fn digit(column: u8) -> u32
    ensures { result ≡ digit_of column }
{
    u32::from(column.saturating_sub(b'0'))
}

// The number that the columns spell, or the largest u32 where it is larger.
pub fn value(columns: &[u8]) -> u32
    ensures { result ≡ min (value_of columns.now) (2 ^ 32 - 1) }
{
    columns.iter().fold(0, |value, column| {
        value.saturating_mul(10).saturating_add(digit(*column))
    })
}

// Whether the columns hold nothing but spaces.
pub fn is_blank(columns: &[u8]) -> bool
    ensures { result ≡ blank columns.now }
{
    columns.iter().all(|column| *column == b' ')
}

// Whether the columns hold nothing but digits.
fn are_digits(columns: &[u8]) -> bool
    ensures { result ≡ digits columns.now }
{
    columns.iter().all(u8::is_ascii_digit)
}

// Whether the columns hold a number, right-justified and with no leading zero.
pub fn is_numeral(columns: &[u8]) -> bool
    ensures { result ≡ numeral columns.now }
{
    let mut number = columns;
    while let [b' ', rest @ ..] = number {
        number = rest;
    }
    match number {
        [b'1'..=b'9', digits @ ..] => are_digits(digits),
        _ => false,
    }
}
