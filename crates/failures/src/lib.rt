// What the programs say of a read or a write that failed.
#![tactic(auto)]

use std::io;

// Says on standard error what failed, and why, in the system's words; the number that the library writes behind these is left out.
pub fn tell(rt: &(impl Eprint + Alloc), what: &str, error: io::Error) {
    let _ = match format!(in rt.alloc(); "{error}") {
        Ok(text) => {
            let text = text.as_str();
            let words = text
                .split_once(" (os error ")
                .map_or(text, |(words, _)| words);
            eprintln!(rt; "{what}: {words}")
        }
        Err(_) => eprintln!(rt; "{what}: {error}"),
    };
}
