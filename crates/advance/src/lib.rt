// The loop of ticks, for `simulation`: `tick` is it at 1, `run` at n, `records` at a batch at most.
#![tactic(auto)]

ghost use Rattle.std.specs.Prelude.{◌≡◌, replicate};
ghost use Rattle.remy.specs.Run.{batch, no_noted};
ghost use Rattle.advance.specs.Advance.{advance_of};

use quantities::Information;
use queueing::Now;
use ranges::lines::values_of;
use remy::{Noted, Recorded, Simulation};
use toggler::{Picked, Queued};

// Ticks until n are done, idle or refused. A tick takes two rounds. In the first its part has its turn;
// the state is then ripe for the pick, which is made in the second, among the parts that are there, and
// there the record is stored. Each arm of a turn reads what its turn needs, works out what comes
// of it, and stores it; where nothing changes, what was there is stored again. A link's arm is for
// either line l, whose packets lie in the places from 512 l on; a packet that the bouncer passes on to
// the return line has a branch of its own there. No tick changes the network, so the senders' packet
// bits are read from a copy that is made once. `done` goes up in every second round, so no `for` counts
// it.
pub fn advance(simulation: Simulation, n: u32) -> Recorded
    ensures { result ≡ advance_of n 0 (replicate batch no_noted) simulation }
{
    let steady = fitness::is_steady(simulation);
    let network = simulation.network;
    let sizes = network.bits;
    let returns = network.back;
    let parts = queueing::part_count(network.senders, returns);
    let mut st = simulation;
    let mut done = 0;
    let mut note = turns::empty_record();
    let none = Noted {
        note,
        waiting: Information(0),
    };
    let mut records = [none; 256];
    let mut ripe = false;
    let number = 'ticks: {
        while done < n {
            if ripe {
                let mut best = Picked {
                    time: None,
                    part: 0,
                };
                for k in 0..parts {
                    // No `pick` of toggler: a copy of the queue costs a tick.
                    let time = st.queue[k].time;
                    if toggler::tick_queue::is_sooner(time, best.time) {
                        best = Picked { time, part: k };
                    }
                }
                st.head = queueing::head_of(best);
                st.queue[best.part] = Queued { time: None };
                let record_at = turns::record_place(done);
                records[record_at] = turns::noted(note, st.lines[0]);
                done += 1;
                ripe = false;
            } else {
                let fit = steady || fitness::is_fit(st);
                let network = st.network;
                let clock = st.head.clock;
                let now = queueing::whose_turn(fit, st.head, network.senders, network.back);
                // An enum's cases are plainer than closures.
                match now {
                    Now::Stop(number) => {
                        break 'ticks number;
                    }
                    Now::Link(l) => {
                        let line = st.lines[l];
                        let base = 512 * l;
                        let front_at = base + line.on_line.start;
                        let first_at = base + line.waiting.start;
                        let front = st.on_line[front_at];
                        let values = turns::values_at(network, l);
                        let acts = turns::link_acts(
                            values,
                            line,
                            clock,
                            front,
                            st.waiting[first_at],
                        );
                        if acts.number != 0 {
                            break 'ticks acts.number;
                        }
                        let left = acts.left;
                        let begun = acts.begun;
                        let after = acts.line;
                        let at = base + acts.at;
                        let front_after_at = base + after.on_line.start;
                        let new = turns::on_line_at(begun, st.on_line[at]);
                        let place = queueing::link_part(l, network.senders);
                        let receiver = turns::owner(front.packet);
                        let bits = sizes[receiver];
                        let passing = turns::pass_on(network, l, left);
                        match passing {
                            Some(_) => {
                                let limit = values_of(network.line, network.back, 1).limit;
                                let arrival = turns::arrive(1, limit, bits, st.lines[1], passing);
                                if arrival.number != 0 {
                                    break 'ticks arrival.number;
                                }
                                let passed = arrival.line;
                                let waits_at = 512 + arrival.at;
                                let waits = turns::waiting_at(
                                    arrival.admitted,
                                    bits,
                                    passing,
                                    st.waiting[waits_at],
                                );
                                st.lines[l] = after;
                                st.on_line[at] = new;
                                st.lines[1] = passed;
                                st.waiting[waits_at] = waits;
                                st.queue[place] = queueing::link_slot(
                                    true,
                                    after,
                                    clock,
                                    st.on_line[front_after_at],
                                    st.queue[place],
                                );
                                let senders = network.senders as usize;
                                let bouncer_place = 1 + 2 * senders;
                                st.queue[bouncer_place] = Queued { time: None };
                                let back_front_at = 512 + passed.on_line.start;
                                let back_place = 2 + 2 * senders;
                                st.queue[back_place] = queueing::link_slot(
                                    true,
                                    passed,
                                    clock,
                                    st.on_line[back_front_at],
                                    st.queue[back_place],
                                );
                                note = turns::link_note(clock, place, left, begun, arrival.mark);
                                ripe = true;
                            }
                            None => {
                                let hearing = turns::hear(
                                    network.policy,
                                    bits,
                                    clock,
                                    l,
                                    left,
                                    st.senders[receiver],
                                    st.meters[receiver],
                                );
                                let heard = hearing.sender;
                                st.lines[l] = after;
                                st.on_line[at] = new;
                                st.senders[receiver] = heard;
                                st.meters[receiver] = hearing.meter;
                                st.queue[place] = queueing::link_slot(
                                    true,
                                    after,
                                    clock,
                                    st.on_line[front_after_at],
                                    st.queue[place],
                                );
                                let sender_place = 1 + 2 * receiver;
                                st.queue[sender_place] = queueing::sender_slot(
                                    hearing.heard,
                                    heard,
                                    clock,
                                    st.queue[sender_place],
                                );
                                note = turns::link_note(clock, place, left, begun, hearing.mark);
                                ripe = true;
                            }
                        }
                    }
                    Now::Sender(i) => {
                        let acts = turns::sender_acts(network, clock, st.senders[i], i);
                        if acts.number != 0 {
                            break 'ticks acts.number;
                        }
                        let sending = acts.sending;
                        let sent = acts.sender;
                        let bits = sizes[i];
                        let limit = network.line.limit;
                        let arrival = turns::arrive(0, limit, bits, st.lines[0], sending);
                        if arrival.number != 0 {
                            break 'ticks arrival.number;
                        }
                        let after = arrival.line;
                        let at = arrival.at;
                        let new = turns::waiting_at(
                            arrival.admitted,
                            bits,
                            sending,
                            st.waiting[at],
                        );
                        st.lines[0] = after;
                        st.waiting[at] = new;
                        st.senders[i] = sent;
                        let place = 1 + 2 * i;
                        st.queue[place] = queueing::sender_slot(true, sent, clock, st.queue[place]);
                        let front_after_at = after.on_line.start;
                        st.queue[0] = queueing::link_slot(
                            arrival.arrives,
                            after,
                            clock,
                            st.on_line[front_after_at],
                            st.queue[0],
                        );
                        note = turns::sender_note(clock, i, sending, arrival.mark);
                        ripe = true;
                    }
                    Now::Toggler(i) => {
                        let toggle = st.togglers[i].toggle(clock, network.on, network.off);
                        if toggle.number != 0 {
                            break 'ticks toggle.number;
                        }
                        let toggled = toggle.toggler;
                        let switched = turns::switched(
                            network.policy,
                            toggled.enabled,
                            st.senders[i],
                            clock,
                        );
                        let metered = turns::metered(st.meters[i], toggled.enabled, clock);
                        st.togglers[i] = toggled;
                        st.senders[i] = switched;
                        st.meters[i] = metered;
                        let toggler_place = 2 + 2 * i;
                        st.queue[toggler_place] = queueing::toggler_slot(toggled);
                        let place = 1 + 2 * i;
                        st.queue[place] = queueing::sender_slot(
                            true,
                            switched,
                            clock,
                            st.queue[place],
                        );
                        note = turns::toggler_note(clock, i, toggled.enabled);
                        ripe = true;
                    }
                }
            }
        }
        0
    };
    Recorded {
        done,
        number,
        records,
        simulation: st,
    }
}
