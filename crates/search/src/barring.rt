// What the barred entries do to a branch.
ghost use Rattle.std.specs.Prelude.{◌≡◌};
ghost use Rattle.search.specs.Branches.{Barred, fixes_all};

use crate::branch::{Branch, all_fixed};
use cubes::{Entry, meets};

// Three cases, so no Option or Result would be plainer.
#[derive(Clone, Copy)]
pub enum Barring {
    // They hold none of its rows.
    Free,
    // They hold some; the newest entry that does.
    Part(Entry),
    // One of them holds all its rows.
    Whole,
}

// Whether the branch fixes each input that the entry fixes.
fn fixes_all(branch: Branch, entry: Entry) -> bool
    ensures { result ≡ fixes_all branch.inputs branch.care entry.care }
{
    let care = entry.care & all_fixed(branch.inputs());
    care & branch.care() == care
}

// Of the entries that touch the branch, one that fixes all its inputs bars it whole.
pub fn bars(barred: &[Entry], branch: Branch) -> Barring
    ensures { Barred branch.inputs branch.care branch.value barred.now result }
{
    let cube = branch.cube();
    let inputs = branch.inputs();
    let mut barring = Barring::Free;
    for entry in barred {
        if meets(cube, *entry, inputs) {
            if fixes_all(branch, *entry) {
                return Barring::Whole;
            }
            barring = Barring::Part(*entry);
        }
    }
    barring
}
