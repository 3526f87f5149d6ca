//! The most memory that the program held.
use std::rt::Files;
use std::{fs, io};

/// Prints the line of /proc/self/status that says it.
pub fn print_most_held(rt: &(impl Files + Print + AllocGlobal)) -> io::Result<()> {
    let status = fs::read_to_string(rt, "/proc/self/status")?;
    print_held(rt, status.as_str())
}

fn print_held(rt: &impl Print, status: &str) -> io::Result<()> {
    for line in status.lines() {
        if line.starts_with("VmHWM:") {
            println!(rt; "{line}")?;
        }
    }
    Ok(())
}
