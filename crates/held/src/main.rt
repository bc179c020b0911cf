// Carries out a script from standard input. It builds networks, changes single parts of held states
// and ticks them, and prints what came of it in the form of oracle/FORM.md. A command to a line; a
// line that begins with another letter is passed over.
//
//     H network seed ticks   builds and ticks: the held state, generator words included, after the
//                            build and after each tick, with its record; the stop and the flows
//     D network seed ticks   the same, and prints only a digest of those lines, each state's line
//                            taken as `digest` and its own digest
//     B network seed         builds; the simulation that is returned is held from then on
//     K, Z                   keeps the held state; returns to the one that was kept
//     V C S G M Q            put one part of the held state anew (edit.rt)
//     L W O, l w o           the same, of the first line and of the return line
//     T                      one tick: number, whether it moved, whether any field of the state
//                            changed, and its record where it did not move
//     R count                a run: how many ticks, number, clock
//     U count                so many single ticks, each of the state that the one before returned, or
//                            until one does not move: how many moved, number, clock
//     A, X                   the held state; the digest of that line
//     F i                    the flow of sender i
//
// A number is 16 hexadecimal digits, a double by its bits, an absent value 16 times '-'. A network is
// 36 fields: delay, rate, loss, limit, the bits of 16 senders, how many there are; on and off, each a
// kind (0 always, 1 uniform) and two doubles; the policy's kind (0 held, 1 grown, 2 timed), two numbers
// and the gap; 1 for a return line or 0 for none, and its delay, rate, loss and limit.
#![tactic(auto)]

ghost use Rattle.std.specs.Prelude.{◌≡◌, length};

mod edit;
mod form;
mod read;
mod sink;
mod states;
mod whole;

use script::input::read_full;
use script::lines::Lines;
use sink::Tried;
use states::States;
use std::io;

fn main(rt: HostRuntime) -> io::Result<()> {
    let mut text = buffer();
    let got = read_full(&mut rt.stdin(), &mut text)?;
    run(&Tried(&rt), &text[..got])
}

fn buffer() -> [u8; 524288]
    ensures { 524288 ≡ length result }
{
    [0; 524288]
}

fn run(rt: &impl Print, text: &[u8]) -> io::Result<()> {
    let mut states = States::new();
    for line in Lines::of(text) {
        states.obey(rt, line)?;
    }
    Ok(())
}
