// Items of one kind: which kind, and how many of them.
#[derive(Clone, Copy, Debug, PartialEq, Eq)]
pub struct Stack {
    pub kind: u32,
    pub amount: u32,
}

// What the eight columns of a place hold: three cases with names of their own, which `Result<Option<Stack>, _>` would not have.
#[derive(Clone, Copy, Debug, PartialEq, Eq)]
pub enum Place {
    Empty,
    Filled(Stack),
    Malformed,
}
