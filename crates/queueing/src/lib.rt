// Whose turn it is, and the places of the tick queue after a turn: pieces of the tick definition, as
// functions on small structs.
//
// All functions here are helpers for the crates `advance` and `builder`, and no entry points.
#![tactic(auto)]

ghost use Rattle.std.specs.Prelude.{◌≡◌, ◌≤◌};
ghost use Rattle.remy.specs.State.{has_back, link, role_of, part_count};
ghost use Rattle.remy.specs.Queue.{part_of, head_of};
ghost use Rattle.queueing.specs.Queueing.{now_role, now_of, link_slot, sender_slot, toggler_slot, place_after_pick};

use link::{Line, LineValues, Transit};
use quantities::Time;
use ranges::lines::has_back;
use remy::Head;
use sender::LossySender;
use toggler::{Picked, Queued, Toggler};

// Whose turn it is: a part's, the link's by its line, or nobody's with the number of the stop (0 for
// idle). Four cases, so no Option.
#[derive(Clone, Copy)]
pub enum Now {
    Stop(u32),
    Link(usize),
    Sender(usize),
    Toggler(usize),
}

// 9, idle and 10, and then the part by its number.
#[tactic(auto, unfolding(crate::specs::Queueing::now_of))]
pub fn whose_turn(fit: bool, head: Head, senders: u32, back: Option<LineValues>) -> Now
    ensures { result ≡ now_of fit head senders (has_back back) }
{
    if !fit {
        return Now::Stop(9);
    }
    let Some(k) = head.next else {
        return Now::Stop(0);
    };
    if 1099511627776.0 < head.clock.0.0 {
        return Now::Stop(10);
    }
    role(k, senders, has_back(back))
}

// Whose turn it is where it is the turn of part k. It is never the bouncer's (9).
#[tactic(auto, unfolding(remy::specs::State::role_of))]
pub fn role(k: usize, senders: u32, back: bool) -> Now
    ensures { result ≡ now_role (role_of senders back k) }
{
    if k == 0 {
        return Now::Link(0);
    }
    let n = senders as usize;
    let i = (k - 1) / 2;
    match k % 2 {
        1 if i < n => Now::Sender(i),
        0 if i < n => Now::Toggler(i),
        0 if back && i == n => Now::Link(1),
        _ => Now::Stop(9),
    }
}

// The part of the link of line l among so many senders, which is also its place in the queue.
//
// A helper for the crate `advance`, and no entry point: the senders' number has been tested there (9).
pub fn link_part(l: usize, senders: u32) -> usize
    requires { senders ≤ 16 }
    ensures { result ≡ part_of senders (link l) }
{
    match l {
        0 => 0,
        _ => 2 + 2 * (senders as usize),
    }
}

// How many parts there are among so many senders, with a return line or without.
pub fn part_count(senders: u32, back: Option<LineValues>) -> usize
    ensures { result ≡ part_count senders (has_back back) }
{
    let lines = if has_back(back) { 3 } else { 1 };
    lines + 2 * (senders as usize)
}

// A time made anew from its parts: the machine code then copies no bytes between them (docs/BENCHMARKS.md,
// "Values made anew"). `time` as it is, a copy of the Option, is slower.
pub fn time_anew(time: Option<Time>) -> Option<Time>
    ensures { result ≡ time }
{
    match time {
        None => None,
        Some(t) => Some(t),
    }
}

// A place made anew from its parts, since a copy is slower (`time_anew`).
fn queued_anew(old: Queued) -> Queued
    ensures { result ≡ old }
{
    Queued {
        time: time_anew(old.time),
    }
}

// What the place of a link in the queue holds, and of a sender: anew where something changed, else what
// it held. Two functions, since each cites its definition of queueing/specs.
pub fn link_slot(changed: bool, line: Line, clock: Time, front: Transit, old: Queued) -> Queued
    ensures { result ≡ link_slot changed line clock front old }
{
    if changed {
        Queued {
            time: link::next_tick(line, clock, front.due),
        }
    } else {
        queued_anew(old)
    }
}

pub fn sender_slot(changed: bool, sender: LossySender, clock: Time, old: Queued) -> Queued
    ensures { result ≡ sender_slot changed sender clock old }
{
    if changed {
        Queued {
            time: sender.next_tick(clock),
        }
    } else {
        queued_anew(old)
    }
}

pub fn toggler_slot(toggler: Toggler) -> Queued
    ensures { result ≡ toggler_slot toggler }
{
    Queued {
        time: Some(toggler.next_toggle),
    }
}

// The clock and the next part after a pick.
pub fn head_of(best: Picked) -> Head
    ensures { result ≡ head_of best best.time }
{
    Head {
        clock: best.time.unwrap_or(Time::MAX),
        next: best.time.map(|_| best.part),
    }
}

// The picked place after a pick: removed, if anything was picked.
pub fn place_after(best: Picked, old: Queued) -> Queued
    ensures { result ≡ place_after_pick best.time old }
{
    match best.time {
        None => old,
        Some(_) => Queued { time: None },
    }
}
