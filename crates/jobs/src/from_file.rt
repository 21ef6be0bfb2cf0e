// From the bytes of a file to the text of its list.
ghost use Rattle.std.specs.Prelude.{◌≡◌, ◌≤◌, false, length, take, is_ok, IfOk};
ghost use Rattle.circuit.specs.Netlists.{netlist};
ghost use Rattle.table.specs.Tables.{table_answer};
ghost use Rattle.search.specs.Searches.{made_of};
ghost use Rattle.jobs.specs.Afterwards.{bits_after, decided_register, gates_after, register_after, search_made, table_made, tabulated};
ghost use Rattle.jobs.specs.Lists.{decided_text, list_of, room_of};
ghost use Rattle.jobs.specs.Suffices.{Suffices};
ghost use Rattle.jobs.specs.Told.{Refusals, TextsCompare, Told};

use crate::Workspace;
use crate::printing::print_list;
use circuit::{Circuit, MAX_TABLE_INPUTS, Ternary, Word};
use cubes::{Decider, Entry};
use faults::JobFault;
use search::{Made, Search};
use table::{Table, tabulate};

// Lists by a table of all rows. This and `by_search` stay two, with `bits` and `words` side by side: one value for both
// deciders would be no plainer, since it would borrow the memory of both, and a contract would have to say of each what is
// left open. Mode, register and text stay three arguments: a struct over the two `&mut` would name them by place at the
// return, in every clause.
fn by_table(
    circuit: &Circuit,
    mode: u32,
    bits: &mut [u32],
    words: &mut [Word],
    register: &mut [Entry],
    text: &mut [u8],
) -> Result<usize, JobFault>
    ensures value { (result, text.new) ≡ decided_text (table_answer (netlist circuit.now) (length bits.old) (length words.old)) mode (netlist circuit.now) register.old text.old }
    ensures register { register.new ≡ decided_register (table_answer (netlist circuit.now) (length bits.old) (length words.old)) mode (netlist circuit.now) register.old }
    ensures bits { bits.new ≡ tabulated (netlist circuit.now) (length words.old) bits.old }
    ensures words { is_ok (table_answer (netlist circuit.now) (length bits.old) (length words.old)) ≡ false → words.new ≡ words.old }
{
    tabulate(circuit, bits, words)?;
    print_list(mode, &mut Table::over(circuit, bits), register, text)
}

// Lists by a search of the rows. Its places are checked first, so its making goes well: of memory that a decider held at an
// early return nothing could be promised.
fn by_search(
    circuit: Circuit,
    mode: u32,
    signals: &mut [Ternary],
    register: &mut [Entry],
    text: &mut [u8],
) -> Result<usize, JobFault>
    ensures value { (result, text.new) ≡ decided_text (made_of (netlist circuit.entry) (length signals.old)) mode (netlist circuit.entry) register.old text.old }
    ensures register { register.new ≡ decided_register (made_of (netlist circuit.entry) (length signals.old)) mode (netlist circuit.entry) register.old }
    ensures signals { is_ok (made_of (netlist circuit.entry) (length signals.old)) ≡ false → signals.new ≡ signals.old }
{
    circuit.check_places(signals.len())?;
    let Made { mut search, .. } = Search::make(circuit, signals);
    print_list(mode, &mut search, register, text)
}

// Lists the solutions of the file's circuit, and writes the text of the list: mode 1 is of separate cubes, mode 2 of shared
// rows. The mode is a number by a rule of the project, since other numbers are refused by a number of their own. Gives the
// length of the text. A refusal leaves the text memory as it was. Afterwards the gate table holds what was read, the bits
// the table if one is made, and the register what was listed. Left open are only the value tables of the decider that is
// made: the words of a table, the signals of a search. The clauses name the fields of the workspace at the return by place:
// .0 is the gate table, .1 what comes after it, and so on.
pub fn list(
    file: &[u8],
    mode: u32,
    workspace: Workspace,
    register: &mut [Entry],
    text: &mut [u8],
) -> Result<usize, JobFault>
    ensures value { (result, text.new) ≡ list_of file.now mode (room_of workspace.entry) register.old text.old }
    ensures fits { IfOk result (λ size. size ≤ length text.new) }
    ensures told { IfOk result (λ size. Told file.now (length workspace.entry.gate_table.now) mode (take size text.new)) }
    ensures refused { Refusals file.now (length workspace.entry.gate_table.now) result }
    ensures compared { TextsCompare }
    ensures suffices { Suffices }
    ensures gates { workspace.exit.0.now ≡ gates_after file.now (room_of workspace.entry) }
    ensures bits { workspace.exit.1.0.now ≡ bits_after file.now (room_of workspace.entry) workspace.entry.bits.now }
    ensures words { table_made file.now (room_of workspace.entry) ≡ false → workspace.exit.1.1.0.now ≡ workspace.entry.words.now }
    ensures signals { search_made file.now (room_of workspace.entry) ≡ false → workspace.exit.1.1.1.0.now ≡ workspace.entry.signals.now }
    ensures register { register.new ≡ register_after file.now mode (room_of workspace.entry) register.old }
{
    let Workspace {
        gate_table,
        bits,
        words,
        signals,
    } = workspace;
    let reading = aiger::read(file, gate_table)?;
    let circuit = Circuit::take_up(reading, gate_table);
    if circuit.inputs() <= MAX_TABLE_INPUTS {
        return by_table(&circuit, mode, bits, words, register, text);
    }
    by_search(circuit, mode, signals, register, text)
}
