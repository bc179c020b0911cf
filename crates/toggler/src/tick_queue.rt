ghost use Rattle.std.specs.Prelude.{◌≡◌};
ghost use Rattle.toggler.specs.Queue.{sooner, pick_of};

use quantities::Time;

// A part's place in the queue: its time, or nothing.
#[derive(Clone, Copy)]
pub struct Queued {
    pub time: Option<Time>,
}

// The part that is picked, and its time; nothing where nothing is queued.
#[derive(Clone, Copy)]
pub struct Picked {
    pub time: Option<Time>,
    pub part: usize,
}

// Whether the first time comes before the second. Nothing comes last.
#[tactic(auto, unfolding(crate::specs::Queue::sooner))]
pub fn is_sooner(a: Option<Time>, b: Option<Time>) -> bool
    ensures { result ≡ sooner a b }
{
    match (a, b) {
        (None, _) => false,
        (Some(_), None) => true,
        (Some(t), Some(u)) => t < u,
    }
}

// The queue's least time, and the lowest part that has it.
#[tactic(auto, unfolding(crate::specs::Queue::pick_of))]
pub fn pick(queue: [Queued; 35]) -> Picked
    ensures { result ≡ pick_of queue }
{
    let mut best = Picked {
        time: None,
        part: 0,
    };
    for (i, q) in queue.iter().enumerate() {
        if is_sooner(q.time, best.time) {
            best = Picked {
                time: q.time,
                part: i,
            };
        }
    }
    best
}
