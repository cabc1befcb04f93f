// The refusals of all layers, and the number by which scripts know each.
#![tactic(auto)]

ghost use Rattle.std.specs.Prelude.{◌≡◌};
ghost use Rattle.refusal.specs.Numbers.{number as number_of, refused_line};

use decimal::columns;

mod cases;

pub use cases::Refusal;

impl Refusal {
    // The number by which scripts know the refusal; they ask for it by name, so it is no `From`.
    pub fn number(self) -> u32
        ensures { result ≡ number_of self }
    {
        self as u32
    }

    // The refusal as a line of text, `refused` and its number in three columns.
    // An array and no `Display`: it needs no memory, as a handheld has no heap, and cannot fail as a formatter can.
    pub fn line(self) -> [u8; 11]
        ensures { result ≡ refused_line (number_of self) }
    {
        let [hundreds, tens, ones] = columns::<3>(self.number());
        let mut line = *b"refused   \n";
        line[7] = hundreds;
        line[8] = tens;
        line[9] = ones;
        line
    }
}
