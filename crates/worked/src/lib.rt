// Worked cases of the whole way, from a file's bytes to the listed cubes and their total.
// Takes nothing, and gives the number of the cases.
// Promises that each case comes out as the specification writes it.
#![tactic(auto)]

ghost use Rattle.std.specs.Prelude.{◌≡◌};
ghost use Rattle.worked.specs.Worked.{WorkedCases, case_count};

// How many worked cases there are; all of them hold.
pub fn worked_cases() -> u32
    ensures hold { WorkedCases }
    ensures number { result ≡ case_count }
{
    cases_hold();
    14
}

// The proof runs the cases, so nothing is left to do here.
fn cases_hold()
    ensures hold { WorkedCases }
{}
