// Files that are built, since they are long.
use std::alloc::{AllocError, Global};

// A circuit whose output is 1. Each gate is the AND of input 1 and true.
pub fn circuit_file(heap: Global, inputs: u32, gates: u32) -> Result<String, AllocError> {
    let inputs = u64::from(inputs);
    let highest = inputs + u64::from(gates);
    let mut file = format!(in heap; "aag {highest} {inputs} 0 1 {gates}\n")?;
    for variable in 1..=inputs {
        writeln!(file, "{}", 2 * variable)?;
    }
    writeln!(file, "1")?;
    for variable in inputs + 1..=highest {
        writeln!(file, "{} 2 1", 2 * variable)?;
    }
    Ok(file)
}

// One input and a comment, which makes up so many bytes.
pub fn file_of_bytes(heap: Global, bytes: u32) -> Result<String, AllocError> {
    let start = "aag 1 1 0 1 0\n2\n1\nc\n";
    let padding = "x".repeat(heap, (bytes as usize).saturating_sub(start.len()))?;
    format!(in heap; "{start}{padding}")
}

// One input, and a highest variable of so many digits.
pub fn file_with_digits(heap: Global, digits: u32) -> Result<String, AllocError> {
    let number = "9".repeat(heap, digits as usize)?;
    format!(in heap; "aag {number} 1 0 1 0\n2\n1\n")
}

// One input with a name of so many bytes.
pub fn file_with_name(heap: Global, bytes: u32) -> Result<String, AllocError> {
    let name = "n".repeat(heap, bytes as usize)?;
    format!(in heap; "aag 1 1 0 1 0\n2\n1\ni0 {name}\n")
}

// A file with a number in the place of `#`.
pub fn file_of_pattern(heap: Global, pattern: &str, number: u32) -> Result<String, AllocError> {
    let digits = format!(in heap; "{number}")?;
    pattern.replace(heap, '#', digits.as_str())
}
