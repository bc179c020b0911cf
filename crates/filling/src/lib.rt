// The lines of a report put into a lent buffer, in one go or part by part (document 01, "The text
// program"). `PutBy` of specs is of a buffer and a position, so what puts lines at a position has both.
#![tactic(auto)]

ghost use Rattle.std.specs.Prelude.{◌≤◌, ◌≡◌, [], ◌∷◌, map, ltb, take};
ghost use Rattle.remy.specs.Run.{batch_of};
ghost use Rattle.printer.specs.Printing.{refused_text};
ghost use Rattle.lines.specs.Lines.{flow_count, flows_from, record_lines, end_lines, run_lines};
ghost use Rattle.report.specs.declared.run.Stage.TheVariants.{Refused, Ticks, Stop, Flows};
ghost use Rattle.report.specs.Report.{report_of, ForText};
ghost use Rattle.filling.specs.Filling.{PutBy, batch_by, filled_by, noted_line, rest_at, end_of, FilledIs, AllPut};

use lines::{flow_bytes, record_bytes, stop_bytes};
use printer::refused_line;
use remy::{Noted, Simulation};
use report::{Report, Stage, report_of};

// A buffer filled up to a position, whether nothing is left, and the report of what is left: no Option, as `FilledIs`
// gives the report where nothing is left too.
#[derive(Clone, Copy)]
pub struct Filled {
    pub at: usize,
    pub done: bool,
    pub report: Report,
}

// How many records were put, and the position after them.
#[derive(Clone, Copy)]
struct Batch {
    count: u32,
    at: usize,
}

// A buffer filled up to a position, and what is left of the report.
fn answer(at: usize, done: bool, stage: Stage, simulation: Simulation) -> Filled
    ensures { result ≡ record { at = at; done = done; report = record { stage = stage; simulation = simulation } } }
{
    let report = Report { stage, simulation };
    Filled { at, done, report }
}

// The first so many of a batch's records, as many as have room.
//
// A helper for put_records, and no entry point: a batch has 256 records at most.
fn put_batch(out: &mut [u8], at: usize, records: [Noted; 256], done: u32) -> Batch
    requires { done ≤ 256 }
    ensures { PutBy batch_by (map noted_line (take done records)) out.old at result out.new }
{
    let mut next = at;
    for i in 0..done {
        match record_bytes(out, next, records[i as usize].note) {
            Some(after) => next = after,
            None => return Batch { count: i, at: next },
        }
    }
    Batch {
        count: done,
        at: next,
    }
}

// Whether fewer ticks were done than a batch of those left has, so that the run ends there.
fn ended(done: u32, left: u32) -> bool
    ensures { result ≡ ltb done (batch_of left) }
{
    done < left.min(256)
}

// The records of n ticks, as many as have room. They are made in batches. Where a batch has no room, its
// first ticks are run again, to go on from there.
fn put_records(out: &mut [u8], at: usize, simulation: Simulation, n: u32) -> Filled
    ensures { PutBy (filled_by (rest_at simulation (Ticks n))) (record_lines n simulation) out.old at result out.new }
{
    let mut st = simulation;
    let mut left = n;
    let mut next = at;
    // `left` falls by what a batch did, so no `for`
    while 0 < left {
        let b = simulation::records(st, left);
        let put = put_batch(out, next, b.records, b.done);
        if put.count < b.done {
            let again = simulation::run(st, put.count);
            return answer(
                put.at,
                false,
                Stage::Ticks(left - put.count),
                again.simulation,
            );
        }
        if ended(b.done, left) {
            return answer(put.at, true, Stage::Stop(b.number), b.simulation);
        }
        st = b.simulation;
        left -= b.done;
        next = put.at;
    }
    answer(next, true, Stage::Stop(0), st)
}

// How many flows are printed.
#[tactic(auto, unfolding(lines::specs::Lines::flow_count))]
fn flow_count(simulation: Simulation) -> u32
    ensures { result ≡ flow_count simulation }
{
    simulation.network.senders.min(16)
}

// The flows from a sender on, as many as have room.
fn put_flows(out: &mut [u8], at: usize, first: u32, simulation: Simulation) -> Filled
    ensures { PutBy (filled_by (rest_at simulation (Flows first))) (flows_from simulation first) out.old at result out.new }
{
    let n = flow_count(simulation);
    let clock = reading::time(simulation);
    let mut next = at;
    for i in first..n {
        let k = i as usize;
        match flow_bytes(
            out,
            next,
            i,
            simulation.senders[k],
            simulation.meters[k],
            clock,
        ) {
            Some(after) => next = after,
            None => return answer(next, false, Stage::Flows(i), simulation),
        }
    }
    answer(next, true, Stage::Done, simulation)
}

// The stop line and the flows, as many as have room.
fn put_end(out: &mut [u8], at: usize, number: u32, simulation: Simulation) -> Filled
    ensures { PutBy (filled_by (rest_at simulation (Stop number))) (end_lines number simulation) out.old at result out.new }
{
    match stop_bytes(out, at, number, simulation) {
        Some(next) => put_flows(out, next, 0, simulation),
        None => answer(at, false, Stage::Stop(number), simulation),
    }
}

// The line of a refusal.
fn put_refused(out: &mut [u8], number: u32, simulation: Simulation) -> Filled
    ensures { PutBy (filled_by (rest_at simulation (Refused number))) (refused_text number ∷ []) out.old 0 result out.new }
{
    match refused_line(out, 0, number) {
        Some(at) => answer(at, true, Stage::Done, simulation),
        None => answer(0, false, Stage::Refused(number), simulation),
    }
}

// The records of n ticks, then the end, as much as has room.
fn put_run(out: &mut [u8], n: u32, simulation: Simulation) -> Filled
    ensures { PutBy (filled_by (rest_at simulation (Ticks n))) (run_lines n simulation) out.old 0 result out.new }
{
    let f = put_records(out, 0, simulation, n);
    match f.report.stage {
        Stage::Stop(number) => put_end(out, f.at, number, f.report.simulation),
        _ => f,
    }
}

// The next lines of a report, as many as have room in the buffer, from its start. An enum's cases are plainer here than
// closures for the steps.
pub fn fill(out: &mut [u8], report: Report) -> Filled
    ensures { FilledIs report out.old result out.new }
{
    let simulation = report.simulation;
    match report.stage {
        Stage::Refused(number) => put_refused(out, number, simulation),
        Stage::Ticks(n) => put_run(out, n, simulation),
        Stage::Stop(number) => put_end(out, 0, number, simulation),
        Stage::Flows(i) => put_flows(out, 0, i, simulation),
        Stage::Done => Filled {
            at: 0,
            done: true,
            report,
        },
    }
}

// All lines of a report, put into a buffer: the position after them, or too little room.
fn put_all(out: &mut [u8], report: Report) -> Option<usize>
    ensures { AllPut report out.old result out.new }
{
    let f = fill(out, report);
    f.done.then_some(f.at)
}

// The report without the records that it has left: their ticks are run.
fn without_records(report: Report) -> Report
    ensures { result ≡ end_of report }
{
    match report.stage {
        Stage::Ticks(n) => {
            let ran = simulation::run(report.simulation, n);
            Report {
                stage: Stage::Stop(ran.number),
                simulation: ran.simulation,
            }
        }
        _ => report,
    }
}

// All that is printed for a text, put into a buffer: the position after it, or too little room.
pub fn print_run(text: &[u8], out: &mut [u8]) -> Option<usize>
    ensures { ForText text.now (λ d. AllPut (report_of d) out.old result out.new) }
{
    put_all(out, report_of(text))
}

// The last lines that are printed for a text, put into a buffer: the line of a refusal, or the stop line
// and the flows of its run.
pub fn print_flows(text: &[u8], out: &mut [u8]) -> Option<usize>
    ensures { ForText text.now (λ d. AllPut (end_of (report_of d)) out.old result out.new) }
{
    put_all(out, without_records(report_of(text)))
}
