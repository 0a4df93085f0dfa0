// Which line comes when, by its number.

// The lines that make the network: a root with two children.
const FIRST: [&str; 4] = ["T,1,7,4,0,0,0,0,0", "P,A,,,3", "P,B,A,0,3", "P,C,A,0,3"];

// The lines that come in every ten, by the last digit of their numbers. Four of them are refused.
const OFTEN: [&str; 10] = [
    "C,A,", "L,A,1", "S,B,6", "L,C,2", "X", "S,B,7", "L,D,0", "L,A,", "S,C,8", "L,C,",
];

// The lines that say where lines come from: the scanners in turn, each for as many lines.
const SCANNERS: [&str; notes::SCANNERS] = [
    "H,0", "H,1", "H,2", "H,3", "H,4", "H,5", "H,6", "H,7", "H,8", "H,9", "H,10", "H,11", "H,12",
    "H,13", "H,14", "H,15",
];

const LINES_OF_ONE: usize = 62500;

// The lines once a million are taken: one of each kind, and some that would be refused anyway.
const PAST: [&str; 10] = [
    "T,255,255,255,255,255,255,255,255,255,255",
    "T,7,7,7,0,0,0,0,0",
    "P,D,A,0,3",
    "S,A,1",
    "L,A,0",
    "R",
    "C,A",
    "H,3",
    "",
    "C,D",
];

// The line of a number. Lines come from each scanner in turn. Every thousandth asks for counts, and one halfway between for the labels to
// change.
pub(crate) fn line(number: usize) -> &'static str {
    let last_digit = number % 10;
    match number {
        1..=4 => FIRST[number - 1],
        _ if notes::MAX_LINES < number as u64 => PAST[last_digit],
        _ if number % LINES_OF_ONE == 10 => SCANNERS[number / LINES_OF_ONE],
        _ if number % 1000 == 0 => "C,B",
        _ if number % 1000 == 500 => "R",
        _ => OFTEN[last_digit],
    }
}
