// Runs the published vectors of xoshiro256++ and SplitMix64 and prints what this repository's
// generators give; the file stdout beside src/ holds the published values, and the gate compares.
// After them come values that nobody published, under a heading that says so.
#![tactic(auto)]

use draws::distribution::sample;
use draws::{ContinuousDistribution, Rng, SplitMix64};
use quantities::{Information, InformationRate, Time, TimeSpan};
use script::print::Double;
use std::io;

fn main(rt: HostRuntime) -> io::Result<()> {
    println!(rt;
        "# xoshiro256++ from the words 1, 2, 3, 4 (Blackman and Vigna's xoshiro256plusplus.c, as listed in the tests of the crate rand_xoshiro)"
    )?;
    outputs(&rt, Rng::from_words(1, 2, 3, 4), 10)?;
    println!(rt;
        "# SplitMix64 from 1477776061723855037 (Vigna's splitmix64.c, as listed in the tests of the crate rand_xoshiro)"
    )?;
    outputs(
        &rt,
        SplitMix64 {
            x: 1477776061723855037,
        },
        50,
    )?;
    println!(rt; "# SplitMix64 from 1234567 (Rosetta Code, Pseudo-random numbers/Splitmix64)")?;
    outputs(&rt, SplitMix64 { x: 1234567 }, 5)?;
    println!(rt;
        "# xoshiro256++ from the seed 0 (as listed in the tests of the crate rand, rngs/xoshiro256plusplus.rs)"
    )?;
    outputs(&rt, Rng::from_seed(0), 10)?;
    println!(rt;
        "# Not published: worked out from document 01's formulas by a second program (oracle/draws.py)"
    )?;
    children(&rt)?;
    given(&rt)?;
    samples(&rt)?;
    draws(&rt)?;
    units(&rt)
}

// What gives outputs one after the other.
trait Generator: Copy {
    // An output, and the generator after it.
    fn draw(self) -> (u64, Self);
}

impl Generator for Rng {
    fn draw(self) -> (u64, Rng) {
        let output = self.next();
        (output.value, output.rng)
    }
}

impl Generator for SplitMix64 {
    fn draw(self) -> (u64, SplitMix64) {
        let mixed = self.next();
        (mixed.output, mixed.state)
    }
}

// The first n outputs, one to a line.
fn outputs<G: Generator>(rt: &impl Print, start: G, n: u32) -> io::Result<()> {
    let mut generator = start;
    for _ in 0..n {
        let (value, after) = generator.draw();
        println!(rt; "{value}")?;
        generator = after;
    }
    Ok(())
}

// A generator's words, on four lines.
fn words_lines(rt: &impl Print, rng: Rng) -> io::Result<()> {
    for word in rng.words() {
        println!(rt; "{word}")?;
    }
    Ok(())
}

// The first child of the seed 1, and its parent after it.
fn children(rt: &impl Print) -> io::Result<()> {
    println!(rt; "child of seed 1, then its parent")?;
    let made = Rng::from_seed(1).create_child();
    words_lines(rt, made.child)?;
    words_lines(rt, made.parent)
}

// Words that are given: four zeros, in whose place are those of seed 0, and words of which one is not
// zero, which are taken.
fn given(rt: &impl Print) -> io::Result<()> {
    println!(rt; "given four zero words, then one word that is not zero")?;
    for [a, b, c, d] in [
        [0, 0, 0, 0],
        [1, 0, 0, 0],
        [0, 1, 0, 0],
        [0, 0, 1, 0],
        [0, 0, 0, 1],
    ] {
        words_lines(rt, Rng::from_words(a, b, c, d))?;
    }
    println!(rt; "outputs from four zero words")?;
    outputs(rt, Rng::from_words(0, 0, 0, 0), 10)
}

// Samples at the outputs 0, 4095, 4096, 41943041 and 2^64 - 1.
fn samples(rt: &impl Print) -> io::Result<()> {
    println!(rt; "samples")?;
    for output in [0, 4095, 4096, 41943041, u64::MAX] {
        println!(rt; "{}", Double(sample(output)))?;
    }
    Ok(())
}

fn draws(rt: &impl Print) -> io::Result<()> {
    use ContinuousDistribution::{Always, Uniform};
    for (title, distribution, [a, b, c, d]) in [
        (
            "uniform 3..4 from the words 1, 2, 3, 4",
            Uniform(3.0, 4.0),
            [1, 2, 3, 4],
        ),
        (
            "uniform 0..2^-1074 from the words 0, 0, 0, 2^40: drawn again",
            Uniform(0.0, 5e-324),
            [0, 0, 0, 1 << 40],
        ),
        (
            "uniform 0..2^-1074 from the words 0, 0, 0, 1: spent",
            Uniform(0.0, 5e-324),
            [0, 0, 0, 1],
        ),
        (
            "uniform 0..2^-1074 from four zero words",
            Uniform(0.0, 5e-324),
            [0, 0, 0, 0],
        ),
        ("always 2.5: no word drawn", Always(2.5), [1, 2, 3, 4]),
        ("always 0: spent, no word drawn", Always(0.0), [1, 2, 3, 4]),
    ] {
        println!(rt; "{title}")?;
        positive(rt, distribution, Rng::from_words(a, b, c, d))?;
    }
    Ok(())
}

// Document 01's number of a redraw, its value if any, and the generator's words after it.
fn positive(rt: &impl Print, d: ContinuousDistribution, rng: Rng) -> io::Result<()> {
    let drawn = d.sample_positive(rng);
    match drawn.value {
        Some(value) => println!(rt; "0\n{}", Double(value))?,
        None => println!(rt; "8")?,
    }
    words_lines(rt, drawn.rng)
}

fn units(rt: &impl Print) -> io::Result<()> {
    println!(rt;
        "Time::SIM_START, MAX, MIN; 11,200 bits at 3 bit/s; 2^53 + 1 bits at 1 bit/s; 8 bits over 0.1 s"
    )?;
    for value in [
        Time::SIM_START.0.0,
        Time::MAX.0.0,
        Time::MIN.0.0,
        (Information(11200) / InformationRate(3.0)).0,
        (Information(9007199254740993) / InformationRate(1.0)).0,
        (Information(8) / TimeSpan(0.1)).0,
    ] {
        println!(rt; "{}", Double(value))?;
    }
    Ok(())
}
