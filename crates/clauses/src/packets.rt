ghost use Rattle.std.specs.Prelude.{◌≡◌, ◌&&◌, ◌≤◌, ◌<◌};
ghost use Rattle.ranges.specs.Frame.{InRings, AllInRings};
ghost use Rattle.clauses.specs.Tests.{AtMost, sent_test, packet_test, waiting_test, on_line_test, due_test, line_packets_test, packets_test, soon_test, soon_on_test};

use link::{Line, LineValues, Packet, Ring, Transit, Waiting};
use quantities::{Information, Time, TimeSpan};
use ranges::frame::{past_fit, time_held};
use ranges::lines::values_of;
use sender::LossySender;

// Whether a packet's sequence number is in 1..sent, where its sender sent so many, and it was sent in
// 0..clock and not after 2^41.
#[tactic(auto, unfolding(crate::specs::Tests::sent_test))]
fn sent_fit(sent: u32, clock: Time, packet: Packet) -> bool
    ensures { result ≡ sent_test sent clock packet }
{
    1 <= packet.seq && packet.seq <= sent && past_fit(clock, packet.sent_time)
}

// Whether a packet is one of n senders', and fit as one of those that its sender sent.
//
// A helper, and no entry point, as are the others here with a `requires`: the caller shows that there
// are at most 16 senders, that their packets have at most 2^24 bits, and that the rings' starts and
// counts are in their ranges. A state made by hand may hold any of these, so no type has them.
//
// Six parameters and more, here and below: a struct of them would copy the arrays.
#[tactic(auto, unfolding(crate::specs::Tests::packet_test))]
fn packet_fit(senders: &[LossySender; 16], n: u32, clock: Time, packet: Packet) -> bool
    requires { n ≤ 16 }
    ensures { result ≡ packet_test senders.now n clock packet }
{
    packet.sender < n && sent_fit(senders[packet.sender as usize].packets_sent, clock, packet)
}

// Whether each packet that waits for line l is fit and carries its sender's bits, and the waiting bits
// are the sum of what they carry. The sum cannot wrap: what is added is a sender's bits.
#[tactic(auto, using(crate::proofs::Turns::members, crate::proofs::Turns::sums, crate::proofs::Members::packet_known), unfolding(crate::specs::Tests::waiting_test, crate::specs::Tests::waits_test))]
fn waiting_fit(
    senders: [LossySender; 16],
    sizes: [u64; 16],
    n: u32,
    clock: Time,
    waiting: [Waiting; 1024],
    l: usize,
    ring: Ring,
    contains: Information,
) -> bool
    requires { (n ≤ 16) × AtMost 16777216 n sizes × (l < 2) × (ring.start < 512) × (ring.count ≤ 512) }
    ensures { result ≡ waiting_test senders sizes n clock waiting l ring contains }
{
    let base = 512 * l;
    let mut sum: u64 = 0;
    for i in 0..ring.count {
        let waits = waiting[base + (ring.start + i) % 512];
        if !packet_fit(&senders, n, clock, waits.packet) {
            return false;
        }
        let size = sizes[waits.packet.sender as usize];
        if waits.bits.0 != size {
            return false;
        }
        sum += size;
    }
    contains.0 == sum
}

// Whether each packet on line l is fit, and no due time is below the one before it. Two walks in one
// function, as a function that reads packets by place copies all that there are.
#[tactic(auto, using(crate::proofs::Turns::members, crate::proofs::Turns::falls, quantities::proofs::Comparisons::no_later), unfolding(crate::specs::Tests::on_line_test, crate::specs::Tests::transit_test, crate::specs::Tests::due_test))]
fn on_line_fit(
    senders: [LossySender; 16],
    n: u32,
    clock: Time,
    on_line: [Transit; 1024],
    l: usize,
    ring: Ring,
) -> bool
    requires { (n ≤ 16) × (l < 2) × (ring.start < 512) × (ring.count ≤ 512) }
    ensures { result ≡ (on_line_test senders n clock on_line l ring && due_test on_line l ring) }
{
    let base = 512 * l;
    for i in 0..ring.count {
        let transit = on_line[base + (ring.start + i) % 512];
        if !packet_fit(&senders, n, clock, transit.packet) {
            return false;
        }
        if !time_held(transit.due) {
            return false;
        }
    }
    for j in 1..ring.count {
        let before = on_line[base + (ring.start + (j - 1)) % 512].due;
        let due = on_line[base + (ring.start + j) % 512].due;
        if !(before <= due) {
            return false;
        }
    }
    true
}

// Whether the packets that wait for line l and those on it are fit, with the waiting bits, and no due
// time falls.
#[tactic(auto, unfolding(crate::specs::Tests::line_packets_test))]
fn line_packets_fit(
    senders: [LossySender; 16],
    sizes: [u64; 16],
    n: u32,
    clock: Time,
    waiting: [Waiting; 1024],
    on_line: [Transit; 1024],
    l: usize,
    line: Line,
) -> bool
    requires { (n ≤ 16) × AtMost 16777216 n sizes × (l < 2) × InRings line }
    ensures { result ≡ line_packets_test senders sizes n clock waiting on_line l line }
{
    waiting_fit(
        senders,
        sizes,
        n,
        clock,
        waiting,
        l,
        line.waiting,
        line.buffer_contains,
    ) && on_line_fit(senders, n, clock, on_line, l, line.on_line)
}

// Whether the packets of the first so many lines are fit.
//
// A helper for `fitness`, and no entry point: `is_fit` has tested the network and the rings.
#[tactic(auto, unfolding(crate::specs::Tests::packets_test))]
pub fn packets_fit(
    senders: [LossySender; 16],
    sizes: [u64; 16],
    n: u32,
    clock: Time,
    waiting: [Waiting; 1024],
    on_line: [Transit; 1024],
    lines: [Line; 2],
    count: usize,
) -> bool
    requires { (n ≤ 16) × AtMost 16777216 n sizes × (count ≤ 2) × AllInRings lines count }
    ensures { result ≡ packets_test senders sizes n clock waiting on_line lines count }
{
    (0..count).all(|l| line_packets_fit(senders, sizes, n, clock, waiting, on_line, l, lines[l]))
}

// Whether no packet on line l is due later than a time. A loop and no `all`: the definition has `every`
// of a ring's members, and the law of `all` is of numbers.
#[tactic(auto, using(crate::proofs::Turns::members, quantities::proofs::Comparisons::no_later), unfolding(crate::specs::Tests::soon_on_test))]
fn due_soon(on_line: [Transit; 1024], l: usize, ring: Ring, latest: Time) -> bool
    requires { (l < 2) × (ring.start < 512) × (ring.count ≤ 512) }
    ensures { result ≡ soon_on_test latest on_line l ring }
{
    let base = 512 * l;
    for i in 0..ring.count {
        let due = on_line[base + (ring.start + i) % 512].due;
        if !(due <= latest) {
            return false;
        }
    }
    true
}

// Whether no packet on a line is due later than the clock and that line's delay, for each of the first
// so many lines.
//
// A helper for `fitness`, and no entry point: `is_fit` has tested the rings.
#[tactic(auto, unfolding(crate::specs::Tests::soon_test))]
pub fn all_due_soon(
    first: LineValues,
    back: Option<LineValues>,
    clock: Time,
    on_line: [Transit; 1024],
    lines: [Line; 2],
    count: usize,
) -> bool
    requires { (count ≤ 2) × AllInRings lines count }
    ensures { result ≡ soon_test first back clock on_line lines count }
{
    (0..count).all(|l| {
        let latest = clock + TimeSpan(values_of(first, back, l).delay);
        due_soon(on_line, l, lines[l].on_line, latest)
    })
}
