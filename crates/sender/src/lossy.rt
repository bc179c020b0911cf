ghost use Rattle.std.specs.Prelude.{◌≡◌, ◌+◌, ◌/◌, min, max};
ghost use Rattle.sender.specs.Sender.{first_window, enabled_of, disabled_of, may_send, sender_next, timer_due, window_sent, window_counted, timer_in, timer_sent, tick_timer, tick_send, returned_of};

use draws::Rng;
use link::Packet;
use quantities::time::earliest_opt;
use quantities::{Time, TimeSpan};

// How a window is chosen: held at a size; grown from first to most; or grown from 1 to most, and
// halved by a timer at each gap.
#[derive(Clone, Copy)]
pub enum Policy {
    Held(u32),
    Grown(u32, u32),
    Timed(u32, f64),
}

// What a sender holds while it is on.
#[derive(Clone, Copy)]
pub struct Enabled {
    pub started: Time,
    pub greatest_ack: u32,
    pub cwnd: u32,
    pub timer: Option<Time>,
}

// Off or on: two named states, as in the original's own type, so no Option.
#[derive(Clone, Copy)]
pub enum SenderState {
    WaitingForEnable,
    Enabled(Enabled),
}

#[derive(Clone, Copy)]
pub struct LossySender {
    pub packets_sent: u32,
    pub state: SenderState,
    pub rng: Rng,
}

// What a send does: the number (0 or 11), the packet, and what the sender then holds.
#[derive(Clone, Copy)]
pub struct Sent {
    pub number: u32,
    pub packet: Packet,
    pub packets_sent: u32,
    pub enabled: Enabled,
}

// How a returned packet is taken. Three cases, so no Option.
#[derive(Clone, Copy)]
pub enum Heard {
    Ignored,
    Old,
    Counted,
}

#[derive(Clone, Copy)]
pub struct Returned {
    pub heard: Heard,
    pub sender: LossySender,
}

impl Policy {
    // The window of a sender that is switched on.
    #[tactic(auto, unfolding(crate::specs::Sender::first_window))]
    pub(crate) fn initial_cwnd(self) -> u32
        ensures { result ≡ first_window self }
    {
        match self {
            Policy::Held(w) => w,
            Policy::Grown(first, _) => first,
            Policy::Timed(_, _) => 1,
        }
    }

    // The window after a send.
    #[tactic(auto, unfolding(crate::specs::Sender::window_sent))]
    pub(crate) fn packet_sent(self, cwnd: u32) -> u32
        ensures { result ≡ window_sent self cwnd }
    {
        match self {
            Policy::Held(w) => w,
            Policy::Grown(_, _) | Policy::Timed(_, _) => cwnd,
        }
    }

    // The window after a packet is counted.
    #[tactic(auto, unfolding(crate::specs::Sender::window_counted))]
    pub(crate) fn ack_received(self, cwnd: u32) -> u32
        ensures { result ≡ window_counted self cwnd }
    {
        match self {
            Policy::Held(w) => w,
            Policy::Grown(_, most) | Policy::Timed(most, _) => grown(cwnd, most),
        }
    }

    // The timer after a send: set by the first send since the sender was switched on. One that is held is
    // written anew, since a copy of the enum is slower.
    #[tactic(auto, unfolding(crate::specs::Sender::timer_sent))]
    pub(crate) fn timer_sent(self, timer: Option<Time>, clock: Time) -> Option<Time>
        ensures { result ≡ timer_sent self timer clock }
    {
        match timer {
            Some(t) => Some(t),
            None => match self {
                Policy::Held(_) | Policy::Grown(_, _) => None,
                Policy::Timed(_, gap) => Some(timer_in(clock, gap)),
            },
        }
    }
}

// When a timer goes that is set now: a gap after the clock.
fn timer_in(clock: Time, gap: f64) -> Time
    ensures { result ≡ timer_in clock gap }
{
    clock + TimeSpan(gap)
}

// One more, and at most `most`.
fn grown(cwnd: u32, most: u32) -> u32
    ensures { result ≡ min (cwnd + 1) most }
{
    cwnd.saturating_add(1).min(most)
}

// Half, rounded down, and at least 1.
fn halved(cwnd: u32) -> u32
    ensures { result ≡ max 1 (cwnd / 2) }
{
    (cwnd / 2).max(1)
}

impl Enabled {
    // Whether another packet may be sent.
    pub(crate) fn may_send(self, packets_sent: u32) -> bool
        ensures { result ≡ may_send packets_sent self }
    {
        u64::from(packets_sent) < u64::from(self.greatest_ack) + u64::from(self.cwnd)
    }

    // Whether the timer is due at the clock.
    #[tactic(auto, unfolding(crate::specs::Sender::timer_due))]
    pub fn timer_due(self, clock: Time) -> bool
        ensures { result ≡ timer_due self clock }
    {
        self.timer == Some(clock)
    }

    // The timer goes.
    #[tactic(auto, unfolding(crate::specs::Sender::tick_timer))]
    pub fn tick_timer(self, policy: Policy, clock: Time) -> Enabled
        ensures { result ≡ tick_timer policy self clock }
    {
        match policy {
            Policy::Held(_) | Policy::Grown(_, _) => Enabled {
                timer: None,
                ..self
            },
            Policy::Timed(_, gap) => Enabled {
                cwnd: halved(self.cwnd),
                timer: Some(timer_in(clock, gap)),
                ..self
            },
        }
    }

    // One packet is sent: its sequence number is one above those sent.
    #[tactic(auto, unfolding(crate::specs::Sender::tick_send))]
    pub fn tick_send(self, packets_sent: u32, policy: Policy, clock: Time, sender: u32) -> Sent
        ensures { result ≡ tick_send packets_sent policy self clock sender }
    {
        if packets_sent >= 16777216 {
            return Sent {
                number: 11,
                packet: Packet {
                    sender,
                    seq: 0,
                    sent_time: clock,
                },
                packets_sent,
                enabled: self,
            };
        }
        Sent {
            number: 0,
            packet: Packet {
                sender,
                seq: packets_sent + 1,
                sent_time: clock,
            },
            packets_sent: packets_sent + 1,
            enabled: Enabled {
                cwnd: policy.packet_sent(self.cwnd),
                timer: policy.timer_sent(self.timer, clock),
                ..self
            },
        }
    }
}

impl LossySender {
    #[tactic(auto, unfolding(crate::specs::Sender::enabled_of))]
    pub fn enable(self, policy: Policy, time: Time) -> LossySender
        ensures { result ≡ enabled_of policy self time }
    {
        LossySender {
            state: SenderState::Enabled(Enabled {
                started: time,
                greatest_ack: self.packets_sent,
                cwnd: policy.initial_cwnd(),
                timer: None,
            }),
            ..self
        }
    }

    #[tactic(auto, unfolding(crate::specs::Sender::disabled_of))]
    pub fn disable(self) -> LossySender
        ensures { result ≡ disabled_of self }
    {
        LossySender {
            state: SenderState::WaitingForEnable,
            ..self
        }
    }

    // The sender's own next time.
    #[tactic(auto, unfolding(crate::specs::Sender::sender_next))]
    pub fn next_tick(self, clock: Time) -> Option<Time>
        ensures { result ≡ sender_next self clock }
    {
        match self.state {
            SenderState::WaitingForEnable => None,
            SenderState::Enabled(enabled) => {
                let send = enabled.may_send(self.packets_sent).then_some(clock);
                earliest_opt(send, enabled.timer)
            }
        }
    }

    // A packet comes back.
    #[tactic(auto, unfolding(crate::specs::Sender::returned_of))]
    pub fn receive_packet(self, policy: Policy, packet: Packet) -> Returned
        ensures { result ≡ returned_of policy self packet }
    {
        let SenderState::Enabled(enabled) = self.state else {
            return Returned {
                heard: Heard::Ignored,
                sender: self,
            };
        };
        if packet.sent_time < enabled.started {
            return Returned {
                heard: Heard::Old,
                sender: self,
            };
        }
        let enabled = Enabled {
            greatest_ack: enabled.greatest_ack.max(packet.seq),
            cwnd: policy.ack_received(enabled.cwnd),
            ..enabled
        };
        Returned {
            heard: Heard::Counted,
            sender: LossySender {
                state: SenderState::Enabled(enabled),
                ..self
            },
        }
    }
}
