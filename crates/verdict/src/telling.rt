// A line on standard error says what failed. Where it cannot be written either, nothing is left to tell it to.
use std::alloc::Global;
use std::io;

pub fn tell(rt: &impl Eprint, what: &str) {
    let _ = eprintln!(rt; "verdict: {what}");
}

// What failed, and the system's text for why.
pub fn tell_failure(rt: &impl Eprint, alloc: Global, what: &str, error: io::Error) {
    let _ = match format!(in alloc; "{error}") {
        Ok(text) => {
            let why = without_number(text.as_str());
            eprintln!(rt; "verdict: {what}: {why}")
        }
        Err(_) => eprintln!(rt; "verdict: {what}: {error}"),
    };
}

// std puts the number of the system's error behind its text.
fn without_number(text: &str) -> &str {
    match text.split_once(" (os error ") {
        Some((why, _)) => why,
        None => text,
    }
}
