// A first look at a file's circuit.
ghost use Rattle.std.specs.Prelude.{◌≡◌, ◌/◌, false, not, ◌&&◌, length, if◌then◌else◌, None, IfOk, is_ok, nat_le};
ghost use Rattle.circuit.specs.Limits.{max_table_inputs};
ghost use Rattle.circuit.specs.Netlists.{netlist};
ghost use Rattle.listing.specs.Limits.{max_inputs};
ghost use Rattle.listing.specs.Widest.{lead};
ghost use Rattle.jobs.specs.Afterwards.{bits_after, gates_after, search_made, table_made, tabulated};
ghost use Rattle.jobs.specs.Lists.{room_of};
ghost use Rattle.jobs.specs.Told.{Refusals};
ghost use Rattle.inspection.specs.Inspections.{smallest_by, summary_of, counted_summary, searched_summary, circuit_summary, inspected};
ghost use Rattle.inspection.specs.Seen.{Seen};
ghost use Rattle.search.specs.Searches.{made_of};
ghost use Rattle.table.specs.Tables.{table_answer};

use crate::Summary;
use circuit::{Circuit, MAX_TABLE_INPUTS, Ternary, Word, count_solutions};
use cubes::{Decider, Row};
use faults::{JobFault, TableFault};
use jobs::Workspace;
use listing::smallest_row;
use search::{Made, Search};
use table::{Table, tabulate};

// The smallest row of the decider's set.
#[tactic(auto, using(crate::proofs::Smallest::nothing_barred))]
fn smallest<D: Decider>(decider: &mut D) -> Option<Row>
    ensures { result ≡ (if nat_le (D.Decider.arity decider.old) max_inputs then lead (D.Decider.arity decider.old) (D.Decider.rows decider.old) else None) }
{
    smallest_row(decider, &[])
}

// By a table of all rows. This and `smallest_by_search` stay two, and so do `with_table` and `with_search`: one value for
// both deciders would be no plainer, since it would borrow the memory of both, and a contract would have to say of each
// what is left open.
fn smallest_in_table(
    circuit: &Circuit,
    bits: &mut [u32],
    words: &mut [Word],
) -> Result<Option<Row>, TableFault>
    ensures value { result ≡ smallest_by (table_answer (netlist circuit.now) (length bits.old) (length words.old)) (netlist circuit.now) }
    ensures bits { bits.new ≡ tabulated (netlist circuit.now) (length words.old) bits.old }
    ensures words { is_ok (table_answer (netlist circuit.now) (length bits.old) (length words.old)) ≡ false → words.new ≡ words.old }
{
    tabulate(circuit, bits, words)?;
    Ok(smallest(&mut Table::over(circuit, bits)))
}

// By a search of the rows; its places are checked first, as for a job.
fn smallest_by_search(circuit: Circuit, signals: &mut [Ternary]) -> Result<Option<Row>, TableFault>
    ensures value { result ≡ smallest_by (made_of (netlist circuit.entry) (length signals.old)) (netlist circuit.entry) }
    ensures signals { is_ok (made_of (netlist circuit.entry) (length signals.old)) ≡ false → signals.new ≡ signals.old }
{
    circuit.check_places(signals.len())?;
    let Made { mut search, .. } = Search::make(circuit, signals);
    Ok(smallest(&mut search))
}

fn summary(circuit: &Circuit, solutions: Option<u32>, smallest: Option<Row>) -> Summary
    ensures { result ≡ summary_of (netlist circuit.now) solutions smallest }
{
    Summary {
        inputs: circuit.inputs(),
        gates: circuit.gate_count(),
        output: circuit.output(),
        solutions,
        smallest,
    }
}

fn with_table(
    circuit: &Circuit,
    bits: &mut [u32],
    words: &mut [Word],
) -> Result<Summary, TableFault>
    ensures value { result ≡ counted_summary (netlist circuit.now) (length bits.old) (length words.old) }
    ensures bits { bits.new ≡ tabulated (netlist circuit.now) (length words.old) bits.old }
    ensures words { is_ok (table_answer (netlist circuit.now) (length bits.old) (length words.old)) ≡ false → words.new ≡ words.old }
{
    let smallest = smallest_in_table(circuit, bits, words)?;
    let count = count_solutions(circuit, words)?;
    Ok(summary(circuit, Some(count), smallest))
}

fn with_search(circuit: Circuit, signals: &mut [Ternary]) -> Result<Summary, TableFault>
    ensures value { result ≡ searched_summary (netlist circuit.entry) (length signals.old) }
    ensures signals { is_ok (made_of (netlist circuit.entry) (length signals.old)) ≡ false → signals.new ≡ signals.old }
{
    let smallest = smallest_by_search(circuit, signals)?;
    Ok(summary(&circuit, None, smallest))
}

// By the decider that the number of inputs asks for.
fn look(
    circuit: Circuit,
    bits: &mut [u32],
    words: &mut [Word],
    signals: &mut [Ternary],
) -> Result<Summary, TableFault>
    ensures value { result ≡ circuit_summary (netlist circuit.entry) (length bits.old) (length words.old) (length signals.old) }
    ensures bits { bits.new ≡ tabulated (netlist circuit.entry) (length words.old) bits.old }
    ensures words { is_ok (table_answer (netlist circuit.entry) (length bits.old) (length words.old)) ≡ false → words.new ≡ words.old }
    ensures signals { (not (nat_le circuit.entry.inputs max_table_inputs) && is_ok (made_of (netlist circuit.entry) (length signals.old))) ≡ false → signals.new ≡ signals.old }
{
    if circuit.inputs() <= MAX_TABLE_INPUTS {
        return with_table(&circuit, bits, words);
    }
    with_search(circuit, signals)
}

// The numbers of the file's circuit, the number of its solutions up to 16 inputs, and the smallest solution. Afterwards the
// gate table holds what was read, and the bits the table if one is made. Left open are only the value tables of the decider
// that is made, as after a job. The clauses name the fields of the workspace at the return by place: .0 is the gate table,
// .1 what comes after it, and so on.
pub fn inspect(file: &[u8], workspace: Workspace) -> Result<Summary, JobFault>
    ensures value { result ≡ inspected file.now (room_of workspace.entry) }
    ensures seen { IfOk result (λ s. Seen file.now (length workspace.entry.gate_table.now) s) }
    ensures refused { Refusals file.now (length workspace.entry.gate_table.now) result }
    ensures gates { workspace.exit.0.now ≡ gates_after file.now (room_of workspace.entry) }
    ensures bits { workspace.exit.1.0.now ≡ bits_after file.now (room_of workspace.entry) workspace.entry.bits.now }
    ensures words { table_made file.now (room_of workspace.entry) ≡ false → workspace.exit.1.1.0.now ≡ workspace.entry.words.now }
    ensures signals { search_made file.now (room_of workspace.entry) ≡ false → workspace.exit.1.1.1.0.now ≡ workspace.entry.signals.now }
{
    let Workspace {
        gate_table,
        bits,
        words,
        signals,
    } = workspace;
    let reading = aiger::read(file, gate_table)?;
    let circuit = Circuit::take_up(reading, gate_table);
    let summary = look(circuit, bits, words, signals)?;
    Ok(summary)
}
