// Prints what the text program prints for each of a list of texts, and an empty line after each. The
// file stdout beside src/ holds what the Rust oracle answers.
//
// A text in the list: its length as five decimal digits and LF, then its bytes. What is left of a list
// that is cut short is passed over.
#![tactic(auto)]

ghost use Rattle.std.specs.Prelude.{◌≤◌};

use script::input::read_full;
use std::io;

// The most texts of a list.
const MOST: u32 = 100000;

fn main(rt: HostRuntime) -> io::Result<()> {
    for _ in 0..MOST {
        if !next_text(&rt)? {
            break;
        }
    }
    Ok(())
}

// Answers one text, if one is left.
fn next_text(rt: &HostRuntime) -> io::Result<bool> {
    let mut head = [0u8; 6];
    if read_full(&mut rt.stdin(), &mut head)? < head.len() {
        return Ok(false);
    }
    let mut text = [0u8; 65536];
    let n = text.len().min(length(head));
    read(rt, &mut text[..n])?;
    Ok(true)
}

// Reads a text of a known length, and answers it.
fn read(rt: &HostRuntime, text: &mut [u8]) -> io::Result<()> {
    let got = read_full(&mut rt.stdin(), text)?;
    answer(rt, &text[..got])
}

// The number that the first five digits of a head are. A byte that is no digit counts as 0, which `parse` refuses.
fn length(head: [u8; 6]) -> usize {
    10000 * digit(head[0])
        + 1000 * digit(head[1])
        + 100 * digit(head[2])
        + 10 * digit(head[3])
        + digit(head[4])
}

fn digit(b: u8) -> usize
    ensures { result ≤ 9 }
{
    match b {
        b'0'..=b'9' => (b - b'0') as usize,
        _ => 0,
    }
}

fn answer(rt: &impl Print, text: &[u8]) -> io::Result<()> {
    let mut out = [0u8; 65536];
    match filling::print_run(text, &mut out) {
        Some(at) => {
            rt.write_all(&out[..at.min(65536)])?;
            println!(rt)
        }
        None => println!(rt; "too long\n"),
    }
}
