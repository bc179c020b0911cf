ghost use Rattle.std.specs.Prelude.{◌≡◌, ◌+◌, ◌*◌, ◌≤◌, ◌<◌, get_or};
ghost use Rattle.link.specs.Ring.{slot_of};
ghost use Rattle.remy.specs.State.{no_transit};
ghost use Rattle.ranges.specs.Frame.{InRings, AllInRings};
ghost use Rattle.clauses.specs.Tests.{AtMost, Added, Counts, OneMore, line_of, lines_of, link_time, LinkTimes};

use link::{Line, Packet, Transit, Waiting, next_tick};
use quantities::Time;
use toggler::Queued;

// What is found of a line: counts of the senders' packets, and what stands at the start of the ring of
// those on it.
#[derive(Clone, Copy)]
pub struct LineFound {
    pub counts: [usize; 16],
    pub front: Transit,
}

// What is found of the lines: counts of the senders' packets, and the links' own next times as they are
// queued.
#[derive(Clone, Copy)]
pub struct LinesFound {
    pub counts: [usize; 16],
    pub links: [Queued; 2],
}

// Counts one more packet, at its sender's; that of a sender from 16 on is counted nowhere.
//
// A helper, and no entry point: the caller shows that the counts are of two lines of 1,024 packets at most.
fn count_packet(counts: &mut [usize; 16], packet: Packet)
    requires { AtMost 2048 16 counts.old }
    ensures { OneMore packet.sender counts.old counts.new }
{
    let k = packet.sender as usize;
    if k < 16 {
        counts[k] += 1;
    }
}

// Counts with one more for each packet of line l, at its sender's; those of a sender from 16 on are
// counted nowhere. And the front of line l, which is read here because a function that reads packets by
// place copies all that there are.
//
// A helper, and no entry point: the caller shows that the counts before are of lines of 1,024 packets
// at most, and that the rings' starts and counts are in their ranges.
#[tactic(auto, using(crate::proofs::Turns::counting), unfolding(crate::specs::Tests::line_of))]
fn line_counts(
    first: [usize; 16],
    waiting: [Waiting; 1024],
    on_line: [Transit; 1024],
    l: usize,
    line: Line,
) -> LineFound
    requires { (l < 2) × AtMost (1024 * l) 16 first × InRings line }
    ensures { Added (1024 * (l + 1)) first (line_of waiting on_line l line) result.counts × (result.front ≡ get_or on_line (slot_of l line.on_line.start) no_transit) }
{
    let base = 512 * l;
    let mut counts = first;
    for i in 0..line.waiting.count {
        count_packet(
            &mut counts,
            waiting[base + (line.waiting.start + i) % 512].packet,
        );
    }
    for j in 0..line.on_line.count {
        count_packet(
            &mut counts,
            on_line[base + (line.on_line.start + j) % 512].packet,
        );
    }
    LineFound {
        counts,
        front: on_line[base + line.on_line.start],
    }
}

// How many packets of each sender wait or are on a line, of the first so many lines, where those of a
// sender from 16 on are counted nowhere; and the own next times of these lines' links.
//
// A helper for `fitness`, and no entry point: `is_fit` has tested the rings.
pub fn under_way(
    waiting: [Waiting; 1024],
    on_line: [Transit; 1024],
    lines: [Line; 2],
    clock: Time,
    count: usize,
) -> LinesFound
    requires { (count ≤ 2) × AllInRings lines count }
    ensures { Counts 2048 (lines_of waiting on_line lines count) result.counts × LinkTimes (link_time lines on_line clock) count result.links }
{
    let mut counts = [0; 16];
    let mut links = [Queued { time: None }; 2];
    for l in 0..count {
        let found = line_counts(counts, waiting, on_line, l, lines[l]);
        counts = found.counts;
        links[l] = Queued {
            time: next_tick(lines[l], clock, found.front.due),
        };
    }
    LinesFound { counts, links }
}
