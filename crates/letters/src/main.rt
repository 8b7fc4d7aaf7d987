// Sends letters through each kind of channel, and prints what goes in, what waits and what comes
// out.
#![tactic(auto)]

ghost use Rattle.std.specs.Prelude.{◌≡◌, ℕ, true, [], Ok};
ghost use Rattle.channel.specs.Waits.{is_pair};

use bag::Bag;
use channel::{Channel, Letter, Refusal};
use lanes::Lanes;
use restorer::Restorer;
use std::io;
use tray::Tray;
use twin::Twin;

// A stamp near the end of the 32-bit numbers, so that the next ones go round to 0.
const LATE: u32 = 4294967294;

fn letter(name: u8) -> Letter {
    Letter {
        name,
        ..Letter::default()
    }
}

// Both arms print, so that a chain of calls is no plainer than the match, here and in `receive`.
fn send<C: Channel>(
    rt: &HostRuntime,
    channel: &mut C,
    from: u8,
    to: u8,
    name: u8,
) -> io::Result<()> {
    match channel.put(from, to, letter(name)) {
        Ok(()) => println!(rt; "in  {from} to {to}: {name}"),
        Err(refusal) => println!(rt; "in  {from} to {to}: refused {}", refusal.number()),
    }
}

fn receive<C: Channel>(rt: &HostRuntime, channel: &mut C, from: u8, to: u8) -> io::Result<()> {
    match channel.take(from, to) {
        Ok(letter) => println!(rt; "out {from} to {to}: {}", letter.name),
        Err(refusal) => println!(rt; "out {from} to {to}: refused {}", refusal.number()),
    }
}

fn show_count<C: Channel>(rt: &HostRuntime, channel: &C) -> io::Result<()> {
    println!(rt; "{} of {} letters wait", channel.count(), channel.limit())
}

// Letters of two pairs, of which the first is taken early, so that a bag has a gap to fill.
fn fill<C: Channel>(rt: &HostRuntime, channel: &mut C) -> io::Result<()> {
    send(rt, channel, 0, 1, 10)?;
    send(rt, channel, 2, 1, 20)?;
    send(rt, channel, 0, 1, 11)?;
    send(rt, channel, 0, 1, 12)?;
    send(rt, channel, 2, 1, 21)?;
    send(rt, channel, 1, 1, 99)?;
    receive(rt, channel, 0, 1)?;
    send(rt, channel, 0, 1, 13)?;
    show_count(rt, channel)
}

fn drain<C: Channel>(rt: &HostRuntime, channel: &mut C) -> io::Result<()> {
    for _ in 0..4 {
        receive(rt, channel, 0, 1)?;
    }
    receive(rt, channel, 2, 1)?;
    receive(rt, channel, 2, 1)?;
    show_count(rt, channel)
}

fn show_channel<C: Channel>(rt: &HostRuntime, channel: &mut C) -> io::Result<()> {
    fill(rt, channel)?;
    drain(rt, channel)
}

// The letters in the order of the bag, each with its stamp.
fn show_bag<B: Bag>(rt: &HostRuntime, bag: &B) -> io::Result<()> {
    // by number, since the number is printed
    for i in 0..bag.count() {
        if let Ok(item) = bag.show(i) {
            println!(rt;
                "  {i}: stamp {} of {} to {}: {}",
                item.stamp, item.from, item.to, item.letter.name
            )?;
        }
    }
    Ok(())
}

fn show_restorer<B: Bag>(rt: &HostRuntime, restorer: &mut Restorer<B>) -> io::Result<()> {
    fill(rt, restorer)?;
    show_bag(rt, restorer.bag())?;
    drain(rt, restorer)
}

// Over any sound channel in which nothing waits, the letter that is put is the one that is taken.
fn passes<C: Channel>(channel: &mut C, from: u8, to: u8, letter: Letter) -> Result<Letter, Refusal>
    ensures { C.sound channel.old → is_pair from to ≡ true → ((f t : ℕ) → C.waiting channel.old f t ≡ []) → result ≡ Ok letter }
{
    channel.put(from, to, letter)?;
    channel.take(from, to)
}

// The makers of this program's channels meet that premise.
fn passes_lanes(letter: Letter) -> Result<Letter, Refusal>
    ensures { result ≡ Ok letter }
{
    passes(&mut Lanes::new(), 0, 1, letter)
}

fn passes_tray(letter: Letter) -> Result<Letter, Refusal>
    ensures { result ≡ Ok letter }
{
    passes(&mut Restorer::new(Tray::new()), 0, 1, letter)
}

fn passes_twin(letter: Letter) -> Result<Letter, Refusal>
    ensures { result ≡ Ok letter }
{
    passes(
        &mut Restorer::starting_at(Twin::new(Tray::new(), Tray::new()), LATE),
        0,
        1,
        letter,
    )
}

fn show_passed(rt: &HostRuntime, channel: &str, passed: Result<Letter, Refusal>) -> io::Result<()> {
    match passed {
        Ok(letter) => println!(rt; "through {channel}: {}", letter.name),
        Err(refusal) => println!(rt; "through {channel}: refused {}", refusal.number()),
    }
}

fn run(rt: &HostRuntime) -> io::Result<()> {
    println!(rt; "lanes")?;
    show_channel(rt, &mut Lanes::new())?;
    println!(rt; "restorer over a tray")?;
    show_restorer(rt, &mut Restorer::new(Tray::new()))?;
    println!(rt; "restorer over a twin of trays, from stamp {LATE} on")?;
    show_restorer(
        rt,
        &mut Restorer::starting_at(Twin::new(Tray::new(), Tray::new()), LATE),
    )?;
    println!(rt; "one letter through each")?;
    show_passed(rt, "lanes", passes_lanes(letter(7)))?;
    show_passed(rt, "a tray", passes_tray(letter(8)))?;
    show_passed(rt, "a twin", passes_twin(letter(9)))
}

fn main(rt: HostRuntime) -> io::Result<()> {
    run(&rt)
}

#[cfg(test)]
mod tests {
    use super::*;

    fn keeps_order<C: Channel>(channel: &mut C) -> bool {
        for name in 0..5 {
            let _ = channel.put(3, 4, letter(name));
        }
        (0..5).all(|name| channel.take(3, 4) == Ok(letter(name)))
    }

    #[test]
    fn order_lasts_through_the_wrap(rt: HostRuntime) {
        assert!(rt;
            keeps_order(&mut Restorer::starting_at(Twin::new(Tray::new(), Tray::new()), LATE))
        );
    }
}
