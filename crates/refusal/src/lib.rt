// What a call is refused for: the question that said no first. C is told its number.
#![tactic(auto)]

ghost use Rattle.std.specs.Prelude.{◌≡◌};
ghost use Rattle.refusal.specs.Refusal.{refusal_number, answer_of};

#[derive(Clone, Copy, PartialEq, Eq, Debug)]
pub enum Refusal {
    Header = 1,
    Sections = 2,
    Coordinates = 3,
    Planes = 4,
    Children = 5,
    Runs = 6,
    Panels = 7,
    Patches = 8,
    Division = 9,
    View = 10,
    Lengths = 11,
    Counter = 12,
    // of a question that is struck: no call is refused by it. It has its place, so that the numbers follow each other and no table of them is kept
    Struck = 13,
    Axes = 14,
    Station = 15,
}

impl Refusal {
    pub fn number(self) -> u32
        ensures { result ≡ refusal_number self }
    {
        self as u32
    }
}

// what C is answered: 0, or the number of the question that said no
pub fn answer<T>(outcome: &Result<T, Refusal>) -> u32
    ensures { result ≡ answer_of outcome.now }
{
    match outcome {
        Ok(_) => 0,
        Err(refusal) => refusal.number(),
    }
}
