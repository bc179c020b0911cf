// Answers a script of meter calls and flow lists from standard input. A command to a line; every
// number is 16 lower-case hexadecimal digits, a double by its bits; an absent value is 16 times '-';
// a line that begins with another letter is passed over.
//
//     N                                   a new meter: off, empty
//     H total start bits records rttsum   a meter made by hand; with no start it is off
//     E time, D time                      switch on, off
//     R bits rtt time                     record
//     Q time                              read
//     F rate rtt                          one flow more in the list
//     G rate rtt count                    so many flows more in the list
//     M                                   the mean of the list, which is then empty
//
// E, D and R answer their letter, the number and the meter after it; Q and M their letter, the
// number and, at 0, the rate and the RTT. E, D and R, and M of a list of at most 64, are carried out
// twice, by value and over what is lent; a line "differs" follows where the two are not the same.
#![tactic(auto)]

mod answer;
mod bench;
mod command;

use bench::Bench;
use command::Command;
use script::input::read_full;
use script::lines::Lines;
use std::io;

fn main(rt: HostRuntime) -> io::Result<()> {
    let mut text = [0u8; 65536];
    let got = read_full(&mut rt.stdin(), &mut text)?;
    run(&rt, &text[..got])
}

fn run(rt: &impl Print, text: &[u8]) -> io::Result<()> {
    let mut bench = Bench::new();
    for line in Lines::of(text) {
        if let Some(command) = Command::of(line) {
            bench.obey(rt, command)?;
        }
    }
    Ok(())
}
