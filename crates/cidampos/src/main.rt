// Reads, writes and judges procedures drawn as message sequence charts.
#![tactic(auto)]

mod command;
mod failed;
mod spot;

use command::Command;
use failed::Failed;
use judge::accepted::{Accepted, judge};
use msc::document::Document;
use msc::words::Words;
use reading::read::read;
use spot::show_spot;
use std::io::{Read, Write};
use std::process::ExitCode;
use std::{fs, io};
use writing::writer::write;

// The longest text.
const MOST: usize = 32768;

const HELP: &str = "cidampos: procedures drawn as message sequence charts

  cidampos               reads and writes the built-in document, judges it, and says so
  cidampos write FILE    prints the shortest text of the document in FILE
  cidampos judge FILE    prints 'accepted' and each list's leader
  cidampos --help        prints this

FILE may be - for standard input. A refusal is the last line of standard output,
'refused NUMBER at VALUE', and the status is then 1; what is at fault is shown on
standard error.";

fn input(rt: &HostRuntime, name: &str) -> io::Result<Vec<u8>> {
    if name == "-" {
        let mut text = Vec::new(rt.alloc());
        rt.stdin().read_to_end(&mut text)?;
        Ok(text)
    } else {
        fs::read(rt, name)
    }
}

// The document in a text; where it is refused, the spot is shown.
fn parsed(rt: &HostRuntime, text: &[u8]) -> Result<Document, Failed> {
    match read(text, &Words::standard()) {
        Ok(document) => Ok(document),
        Err(refusal) => {
            show_spot(rt, text, refusal)?;
            Err(Failed::from(refusal))
        }
    }
}

// The shortest text of a document.
fn written(rt: &HostRuntime, document: &Document) -> Result<Vec<u8>, Failed> {
    let mut text = vec![in rt.alloc(); 0u8; MOST]?;
    let n = write(document, &mut text)?;
    text.truncate(n);
    Ok(text)
}

// A text, and a line feed.
fn print(rt: &HostRuntime, text: &[u8]) -> io::Result<()> {
    rt.stdout().write_all(text)?;
    rt.println("")
}

fn print_leader(rt: &HostRuntime, accepted: &Accepted, label: usize) -> io::Result<()> {
    match accepted.leader(label) {
        Some(instance) => println!(rt; "list {label} leader {instance}"),
        None => println!(rt; "list {label} leader -"),
    }
}

// The judge's answer: the leader of each label's list and of the start list, whose number is 64.
fn judged(rt: &HostRuntime, document: &Document) -> Result<(), Failed> {
    let mut place = Accepted::built_in();
    judge(document, &mut place)?;
    println!(rt; "accepted")?;
    // by number, since the number is printed
    for label in 0..document.labels() {
        print_leader(rt, &place, label)?;
    }
    print_leader(rt, &place, 64)?;
    Ok(())
}

fn built_in(rt: &HostRuntime) -> Result<(), Failed> {
    let text = written(rt, &Document::built_in())?;
    println!(rt; "the built-in document, {} bytes:", text.len())?;
    print(rt, &text)?;
    let again = parsed(rt, &text)?;
    println!(rt; "read back:")?;
    print(rt, &written(rt, &again)?)?;
    judged(rt, &again)
}

fn run(rt: &HostRuntime) -> Result<(), Failed> {
    match Command::given(rt)? {
        Command::BuiltIn => built_in(rt),
        Command::Help => Ok(rt.println(HELP)?),
        Command::Write(name) => {
            let document = parsed(rt, &input(rt, name.as_str())?)?;
            Ok(print(rt, &written(rt, &document)?)?)
        }
        Command::Judge(name) => judged(rt, &parsed(rt, &input(rt, name.as_str())?)?),
    }
}

fn main(rt: HostRuntime) -> Result<ExitCode, Failed> {
    match run(&rt) {
        Ok(()) => Ok(ExitCode::SUCCESS),
        Err(Failed::Refused { number, value }) => {
            println!(rt; "refused {number} at {value}")?;
            Ok(ExitCode::FAILURE)
        }
        Err(Failed::Usage) => {
            rt.eprintln("cidampos: not a command; see cidampos --help")?;
            Ok(ExitCode::FAILURE)
        }
        Err(failed) => Err(failed),
    }
}
