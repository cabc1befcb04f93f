// Why a call is refused, for all layers, in the order of their numbers: a call that could be refused for
// several reasons is refused for the first of them.
#[derive(Clone, Copy, Debug, PartialEq, Eq)]
pub enum Refusal {
    // a page that was handed in has fewer than 257 bytes
    ShortPage = 1,
    // the two buffers of a sequence differ in length
    UnequalBuffers = 2,
    // the sheet behind the chip is unfit
    UnfitSheet = 3,
    // a bag's number is 64 or more
    NoSuchBag = 4,
    // a kind is outside 1 to 999
    NoSuchKind = 5,
    // an amount is outside 1 to 99,999
    NoSuchAmount = 6,
    // a move names one bag twice, or a craft one kind twice
    NamedTwice = 7,
    // a carry bears another book's mark, or no carry is out
    ForeignCarry = 8,
    // a lift comes while eight carries are out
    TooManyCarries = 9,
    // a page or a sector is not a bag
    NotABag = 10,
    // a bag is to be sewn where one is already
    AlreadyABag = 11,
    // more is to be removed than is held
    NotEnough = 12,
    // the stack would pass 99,999, or a new kind meets 32 stacks
    NoRoom = 13,
    // the write protect pin is low
    PinLow = 14,
    // the chip's write enable bit is 0
    WriteDisabled = 15,
    // a sector to be programmed is fenced
    Fenced = 16,
    // a fence has a width above 15 or a direction above 1
    NoSuchFence = 17,
}
