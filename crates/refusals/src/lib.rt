// The refusals by name, and the documents' number of each.
#![tactic(auto)]

ghost use Rattle.std.specs.Prelude.{◌≡◌};
ghost use Rattle.refusals.specs.Refusals.{number_of};

// Why a line, or a call beside the lines, is declined, with the number that it has in document 01, or in the request that adds it.
#[derive(Clone, Copy, Debug, PartialEq, Eq)]
pub enum Refusal {
    LineTooLong = 1,
    UnknownLetter = 2,
    FieldCount = 3,
    MalformedId = 4,
    MalformedNumber = 5,
    OutOfRange = 6,
    HalfLink = 7,
    BrokenState = 9,
    ShortBuffer = 10,
    TablesFull = 11,
    PlotsFull = 12,
    IdStands = 13,
    NoParent = 14,
    NoTable = 15,
    NoPlot = 16,
    ClassLacking = 17,
    NothingFits = 18,
    RunOver = 19,
    ShortForText = 20,
}

// What the program prints for a refusal. No `From`: the enum carries the numbers, and one would say the same with a second contract.
pub fn number_of(q: Refusal) -> u32
    ensures { result ≡ number_of q }
{
    q as u32
}
