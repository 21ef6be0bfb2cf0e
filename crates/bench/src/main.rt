// Measures what takes long: with the word `count`, `table` or `search` it prints what came of one of them and how long it took.
// Without a word it does each untimed, and small ones, so that what comes of it can be compared.
#![tactic(auto)]

mod answers;
mod asking_search;
mod asking_table;
mod counting;
mod family;

use std::process::ExitCode;
use std::{env, io};

fn print_untimed(rt: &HostRuntime) -> io::Result<()> {
    counting::print_small(rt)?;
    counting::print(rt, false)?;
    answers::print(rt)?;
    asking_table::print(rt, false)?;
    asking_search::print(rt, false)
}

// Whether the call has a meaning.
fn print(rt: &HostRuntime) -> io::Result<bool> {
    match env::args(rt)?.nth(1) {
        None => print_untimed(rt)?,
        Some(word) => match word.as_str() {
            "count" => counting::print(rt, true)?,
            "table" => asking_table::print(rt, true)?,
            "search" => asking_search::print(rt, true)?,
            _ => return Ok(false),
        },
    }
    Ok(true)
}

fn main(rt: HostRuntime) -> io::Result<ExitCode> {
    if print(&rt)? {
        return Ok(ExitCode::SUCCESS);
    }
    eprintln!(rt; "usage: bench [count | table | search]")?;
    Ok(ExitCode::FAILURE)
}
