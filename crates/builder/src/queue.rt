ghost use Rattle.std.specs.Prelude.{◌≡◌, ℕ, ◌≤◌, ◌<◌};
ghost use Rattle.remy.specs.State.{line_count, line_at};
ghost use Rattle.remy.specs.Queue.{picked};
ghost use Rattle.remy.specs.Build.{queued_all};

use link::next_tick;
use queueing::{Now, head_of, place_after, role, toggler_slot};
use ranges::lines::has_back;
use remy::Simulation;
use toggler::Queued;
use toggler::tick_queue::pick;

// The simulation with its least time picked and removed, as its clock and next part.
#[tactic(auto, using(queueing::proofs::Picks::part_inside, queueing::proofs::Picks::picks))]
pub(crate) fn pick_next(simulation: Simulation) -> Simulation
    ensures { result ≡ picked simulation }
{
    let best = pick(simulation.queue);
    let mut queue = simulation.queue;
    queue[best.part] = place_after(best, queue[best.part]);
    Simulation {
        head: head_of(best),
        queue,
        ..simulation
    }
}

// The simulation with each part queued at its own next time.
//
// A helper: the caller shows that there are at most 16 senders, and that the rings of the lines are in
// range.
pub(crate) fn queue_all(simulation: Simulation) -> Simulation
    requires { (simulation.network.senders ≤ 16) × ((l : ℕ) → l < line_count simulation.network → (line_at simulation l).on_line.start < 512) }
    ensures { result ≡ queued_all simulation }
{
    let network = simulation.network;
    let returns = has_back(network.back);
    let clock = simulation.head.clock;
    let mut queue = [Queued { time: None }; 35];
    for k in 0..35 {
        // An enum's cases are plainer than closures.
        let time = match role(k, network.senders, returns) {
            Now::Stop(_) => None,
            Now::Link(l) => {
                let line = simulation.lines[l];
                let front = simulation.on_line[512 * l + line.on_line.start];
                next_tick(line, clock, front.due)
            }
            Now::Sender(i) => simulation.senders[i].next_tick(clock),
            Now::Toggler(i) => toggler_slot(simulation.togglers[i]).time,
        };
        queue[k] = Queued { time };
    }
    Simulation {
        queue,
        ..simulation
    }
}
