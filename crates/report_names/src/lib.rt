// The names of the refusals, for whoever prints them: a constant table of padded byte strings, one row for each number.
#![tactic(auto)]

ghost use Rattle.std.specs.Prelude.{◌≡◌, length};
ghost use Rattle.model.specs.Names.{name_of};
ghost use Rattle.report_names.specs.Table.{padded_of};

// A row for each number from 1, padded with spaces: the form that document 01 names for this table.
// (a) Document 01 names this form of table.
const NAMES: [[u8; 20]; 16] = [
    *b"BadShape            ",
    *b"BadScript           ",
    *b"BadHeld             ",
    *b"TooMany             ",
    *b"BadBinding          ",
    *b"BadHeader           ",
    *b"Poisoned            ",
    *b"InvalidBucket       ",
    *b"Damaged             ",
    *b"SerialsSpent        ",
    *b"SerializationFailure",
    *b"NotHeld             ",
    *b"Protected           ",
    *b"Repeated            ",
    *b"BadCrew             ",
    *b"StaleBoot           ",
];

// The name of a refusal, padded with spaces; nothing but spaces for a number that has none.
pub fn padded(number: usize) -> [u8; 20]
    ensures value { result ≡ padded_of (name_of number) }
    ensures value_2 { 20 ≡ length result }
{
    if number < 1 || 16 < number {
        return [b' '; 20];
    }
    NAMES[number - 1]
}
