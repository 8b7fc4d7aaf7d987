// What the program is asked to do.
use crate::failed::Failed;
use std::env;

#[derive(Drop)]
pub enum Command {
    BuiltIn,
    Help,
    Write(String),
    Judge(String),
}

impl Command {
    // The words behind the program's name.
    pub fn given(rt: &HostRuntime) -> Result<Command, Failed> {
        let mut words = env::args(rt)?.skip(1);
        let Some(word) = words.next() else {
            return Ok(Command::BuiltIn);
        };
        match (word.as_str(), words.next()) {
            ("--help", _) => Ok(Command::Help),
            ("write", Some(name)) => Ok(Command::Write(name)),
            ("judge", Some(name)) => Ok(Command::Judge(name)),
            _ => Err(Failed::Usage),
        }
    }
}
