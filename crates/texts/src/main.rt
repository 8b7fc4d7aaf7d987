// Reads, writes and judges each text of a list, and prints a line for each: its name, what reading says and what the judge says.
// A document whose text is not the one beside it is told so.
#![tactic(auto)]

use judge::accepted::{Accepted, judge};
use msc::document::Document;
use msc::words::Words;
use reading::read::read;
use std::fs;
use writing::writer::write;

const MOST: usize = 32768;

// Whether the document is written as the bytes say.
fn is_text(rt: &HostRuntime, document: &Document, wanted: &[u8]) -> anyhow::Result<bool> {
    let mut out = vec![in rt.alloc(); 0u8; MOST]?;
    match write(document, &mut out) {
        Ok(n) => Ok(n <= out.len() && &out[0..n] == wanted),
        Err(_) => Ok(false),
    }
}

fn judged(rt: &HostRuntime, name: &str, document: &Document) -> anyhow::Result<()> {
    let mut place = Accepted::built_in();
    match judge(document, &mut place) {
        Ok(()) => println!(rt; "{name}\tok\taccepted")?,
        Err(refusal) => {
            let number = refusal.number();
            let value = refusal.value();
            println!(rt; "{name}\tok\trefused {number} at {value}")?;
        }
    }
    Ok(())
}

fn tried(rt: &HostRuntime, name: &str) -> anyhow::Result<()> {
    let path = format!(in rt.alloc(); "{name}.msc")?;
    let text = fs::read(rt, path.as_str())?;
    match read(&text, &Words::standard()) {
        Ok(document) => {
            let path = format!(in rt.alloc(); "{name}.out")?;
            let wanted = fs::read(rt, path.as_str())?;
            if is_text(rt, &document, &wanted)? {
                judged(rt, name, &document)
            } else {
                println!(rt; "{name}\tanother text")?;
                Ok(())
            }
        }
        Err(refusal) => {
            let number = refusal.number();
            let value = refusal.value();
            println!(rt; "{name}\trefused {number} at {value}\t-")?;
            Ok(())
        }
    }
}

fn run(rt: &HostRuntime) -> anyhow::Result<()> {
    let names = fs::read_to_string(rt, "index")?;
    for name in names.as_str().lines() {
        tried(rt, name)?;
    }
    Ok(())
}

fn main(rt: HostRuntime) -> anyhow::Result<()> {
    run(&rt)
}
