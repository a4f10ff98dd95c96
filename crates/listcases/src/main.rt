// Lists each house file that an argument names, from the opened file to standard output: first its name, then the listing, then what
// `lister::list_from` answered.
#![tactic(auto)]

use lister::Outcome;
use std::{env, fs, io};

fn answer(outcome: Outcome) -> &'static str {
    match outcome {
        Outcome::Consistent => "consistent",
        Outcome::Flagged => "flagged",
        Outcome::Refused => "refused",
        Outcome::Broken => "broken",
    }
}

fn main(rt: HostRuntime) -> io::Result<()> {
    for name in env::args(&rt)?.skip(1) {
        println!(rt; "{name}")?;
        match fs::open(&rt, name.as_str()) {
            Ok(mut file) => {
                let outcome = lister::list_from(&mut file, &mut io::writer(&rt));
                println!(rt; "answer {}", answer(outcome))?;
            }
            Err(_) => println!(rt; "cannot be opened")?,
        }
    }
    Ok(())
}
