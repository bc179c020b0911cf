// Records, held states and flows as text, in the form of oracle/FORM.md.
use crate::edit::slot;
use draws::Rng;
use flows::FlowProperties;
use link::{Line, Packet, Ring, Transit, Waiting};
use meters::AverageFlowMeter;
use quantities::{Time, TimeSpan};
use remy::{Head, Mark, Simulation, TickRecord};
use script::print::Double;
use sender::{LossySender, SenderState};
use std::fmt;
use toggler::Toggler;

// A value in the form that it has there.
#[derive(Clone, Copy)]
pub(crate) struct Form<T>(pub T);

// A value that may be absent, which `-` says.
#[derive(Clone, Copy)]
pub(crate) struct OrDash<T>(pub Option<T>);

impl<T: fmt::Display + Copy> fmt::Display for OrDash<T> {
    fn fmt<W: fmt::Write>(&self, f: &mut fmt::Formatter<W>) -> fmt::Result {
        match self.0 {
            None => f.write_str("-"),
            Some(x) => write!(f, "{x}"),
        }
    }
}

impl fmt::Display for Form<TickRecord> {
    fn fmt<W: fmt::Write>(&self, f: &mut fmt::Formatter<W>) -> fmt::Result {
        let note = self.0;
        write!(
            f,
            "time={} part={} mark={} packet={} line={}",
            Form(note.time),
            note.part,
            Form(note.mark),
            OrDash(note.packet.map(Form)),
            OrDash(note.started.map(Form))
        )
    }
}

// `lines` has these letters as bytes, in a function of its own that it does not give to others.
impl fmt::Display for Form<Mark> {
    fn fmt<W: fmt::Write>(&self, f: &mut fmt::Formatter<W>) -> fmt::Result {
        f.write_str(match self.0 {
            Mark::None => "-",
            Mark::Enabled => "E",
            Mark::Disabled => "D",
            Mark::Timer => "T",
            Mark::Sent => "S",
            Mark::Full => "F",
            Mark::Lost => "L",
            Mark::Counted => "C",
            Mark::Old => "O",
            Mark::Ignored => "I",
            Mark::Passed => "P",
            Mark::FullBack => "Q",
            Mark::LostBack => "N",
        })
    }
}

// A packet's name: its sender and its sequence number.
impl fmt::Display for Form<(u32, u32)> {
    fn fmt<W: fmt::Write>(&self, f: &mut fmt::Formatter<W>) -> fmt::Result {
        let (sender, seq) = self.0;
        write!(f, "{sender}:{seq}")
    }
}

// The whole held state.
impl fmt::Display for Form<&Simulation> {
    fn fmt<W: fmt::Write>(&self, f: &mut fmt::Formatter<W>) -> fmt::Result {
        let st = self.0;
        write!(
            f,
            "state {}{}",
            Form(st.head),
            LineState {
                line: st.lines[0],
                waiting: &st.waiting[..512],
                on_line: &st.on_line[..512],
            }
        )?;
        let n = (st.network.senders as usize).min(16);
        let mut places = 2 * n + 1;
        if st.network.back.is_some() {
            write!(
                f,
                " return{}",
                LineState {
                    line: st.lines[1],
                    waiting: &st.waiting[512..],
                    on_line: &st.on_line[512..],
                }
            )?;
            places += 2;
        }
        let parts = st.senders.iter().zip(&st.togglers).zip(&st.meters);
        for (i, ((sender, toggler), meter)) in parts.take(n).enumerate() {
            write!(
                f,
                " sender={i}:{} toggler={i}:{} meter={i}:{}",
                Form(*sender),
                Form(*toggler),
                Form(*meter)
            )?;
        }
        f.write_str(" queue=")?;
        for (k, place) in st.queue.iter().take(places).enumerate() {
            write!(f, "{}{}", comma(k), OrDash(place.time.map(Form)))?;
        }
        Ok(())
    }
}

impl fmt::Display for Form<Head> {
    fn fmt<W: fmt::Write>(&self, f: &mut fmt::Formatter<W>) -> fmt::Result {
        let head = self.0;
        write!(f, "clock={} next={}", Form(head.clock), OrDash(head.next))
    }
}

// A line, with the slots of its two rings.
#[derive(Clone, Copy)]
struct LineState<'a> {
    line: Line,
    waiting: &'a [Waiting],
    on_line: &'a [Transit],
}

impl fmt::Display for LineState<'_> {
    fn fmt<W: fmt::Write>(&self, f: &mut fmt::Formatter<W>) -> fmt::Result {
        let line = self.line;
        write!(
            f,
            " earliest={} bits={} waiting={} line={} link={}",
            Form(line.earliest_transmit),
            line.buffer_contains.0,
            Packets(line.waiting, self.waiting),
            Packets(line.on_line, self.on_line),
            Form(line.rng)
        )
    }
}

// The packets of a ring, in order, in the slots that it has.
#[derive(Clone, Copy)]
struct Packets<'a, T>(Ring, &'a [T]);

impl<T: Copy> fmt::Display for Packets<'_, T>
where
    Form<T>: fmt::Display,
{
    fn fmt<W: fmt::Write>(&self, f: &mut fmt::Formatter<W>) -> fmt::Result {
        let Ring { start, count } = self.0;
        if count == 0 {
            return f.write_str("-");
        }
        for k in 0..count {
            if let Some(packet) = self.1.get(slot(start, k)) {
                write!(f, "{}{}", comma(k), Form(*packet))?;
            }
        }
        Ok(())
    }
}

// A comma before each but the first.
fn comma(k: usize) -> &'static str {
    if k == 0 { "" } else { "," }
}

impl fmt::Display for Form<Waiting> {
    fn fmt<W: fmt::Write>(&self, f: &mut fmt::Formatter<W>) -> fmt::Result {
        write!(f, "{}:{}", Form(self.0.packet), self.0.bits.0)
    }
}

impl fmt::Display for Form<Transit> {
    fn fmt<W: fmt::Write>(&self, f: &mut fmt::Formatter<W>) -> fmt::Result {
        write!(f, "{}:{}", Form(self.0.packet), Form(self.0.due))
    }
}

impl fmt::Display for Form<Packet> {
    fn fmt<W: fmt::Write>(&self, f: &mut fmt::Formatter<W>) -> fmt::Result {
        let Packet {
            sender,
            seq,
            sent_time,
        } = self.0;
        write!(f, "{sender}:{seq}:{}", Form(sent_time))
    }
}

impl fmt::Display for Form<LossySender> {
    fn fmt<W: fmt::Write>(&self, f: &mut fmt::Formatter<W>) -> fmt::Result {
        let sender = self.0;
        write!(
            f,
            "{}:{}:{}",
            sender.packets_sent,
            Form(sender.state),
            Form(sender.rng)
        )
    }
}

impl fmt::Display for Form<SenderState> {
    fn fmt<W: fmt::Write>(&self, f: &mut fmt::Formatter<W>) -> fmt::Result {
        match self.0 {
            SenderState::WaitingForEnable => f.write_str("off"),
            SenderState::Enabled(e) => write!(
                f,
                "{}:{}:{}:{}",
                Form(e.started),
                e.greatest_ack,
                e.cwnd,
                OrDash(e.timer.map(Form))
            ),
        }
    }
}

impl fmt::Display for Form<Toggler> {
    fn fmt<W: fmt::Write>(&self, f: &mut fmt::Formatter<W>) -> fmt::Result {
        let toggler = self.0;
        let on = if toggler.enabled { "on" } else { "off" };
        write!(
            f,
            "{on}:{}:{}",
            Form(toggler.next_toggle),
            Form(toggler.rng)
        )
    }
}

impl fmt::Display for Form<AverageFlowMeter> {
    fn fmt<W: fmt::Write>(&self, f: &mut fmt::Formatter<W>) -> fmt::Result {
        let meter = self.0;
        write!(
            f,
            "{}:{}:{}:{}:{}",
            Double(meter.total_time.0),
            OrDash(meter.current_start.map(Form)),
            meter.total.0,
            meter.records,
            Double(meter.rtt_sum.0)
        )
    }
}

impl fmt::Display for Form<Rng> {
    fn fmt<W: fmt::Write>(&self, f: &mut fmt::Formatter<W>) -> fmt::Result {
        let [a, b, c, d] = self.0.words();
        write!(f, "{a}:{b}:{c}:{d}")
    }
}

impl fmt::Display for Form<Time> {
    fn fmt<W: fmt::Write>(&self, f: &mut fmt::Formatter<W>) -> fmt::Result {
        write!(f, "{}", Form(self.0.0))
    }
}

impl fmt::Display for Form<TimeSpan> {
    fn fmt<W: fmt::Write>(&self, f: &mut fmt::Formatter<W>) -> fmt::Result {
        write!(f, "{}", Double(self.0.0))
    }
}

// The flow of sender i, read at the clock.
#[derive(Clone, Copy)]
pub(crate) struct Flow<'a>(pub &'a Simulation, pub u32);

impl fmt::Display for Flow<'_> {
    fn fmt<W: fmt::Write>(&self, f: &mut fmt::Formatter<W>) -> fmt::Result {
        let Flow(st, i) = *self;
        write!(f, "flow={i}")?;
        if let (Some(sender), Some(meter)) = (
            st.senders.get(i as usize),
            st.meters.get(i as usize),
        ) {
            write!(f, " sent={} counted={}", sender.packets_sent, meter.records)?;
        }
        match reading::average_properties(*st, i) {
            None => f.write_str(" -"),
            Some(flow) => write!(f, " {}", Form(flow.ok())),
        }
    }
}

// The rate and the round-trip time, where they are known.
impl fmt::Display for Form<Option<FlowProperties>> {
    fn fmt<W: fmt::Write>(&self, f: &mut fmt::Formatter<W>) -> fmt::Result {
        let rate = self.0.map(|flow| Double(flow.throughput.0));
        let rtt = self.0.and_then(|flow| flow.rtt.ok());
        write!(f, "rate={} rtt={}", OrDash(rate), OrDash(rtt.map(Form)))
    }
}
