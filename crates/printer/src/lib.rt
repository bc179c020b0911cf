// The printed lines, put into a lent buffer at a position. `PutIs` of specs is of a buffer and a position, so each line's
// function has both. The numbers are written by hand: `write!` says which bytes it wrote where it is Ok, and no contract
// says where it is, as `PutIs` does of a line with room.
#![tactic(auto)]

ghost use Rattle.std.specs.Prelude.{◌+◌, ◌≤◌, ◌<◌, ◌≡◌, [], ◌∷◌, length};
ghost use Rattle.std.specs.Option.{IfSome, IfNone};
ghost use Rattle.notation.specs.Notation.{digits_of, hex_of, decimal_of};
ghost use Rattle.printer.specs.Printing.{PutIs, packet_text, measured_text, record_text, stop_text, refused_text, flow_text};
ghost use Rattle.printer.specs.Pens.{HasRoom, PenWrote};

// A lent buffer, and where its next byte is put. What puts is inlined always: so the pen stays in registers, and a line takes no
// longer than by functions of a buffer and a position.
#[derive(Drop)]
struct Pen<'a> {
    out: &'a mut [u8],
    at: usize,
}

impl<'a> Pen<'a> {
    // Room for a line.
    fn room(&self) -> Option<()>
        ensures some { IfSome result (λ _. HasRoom 128 self.now) }
        ensures none { IfNone result (length self.now.out.now < self.now.at + 128) }
    {
        (128 <= self.out.len().saturating_sub(self.at)).then_some(())
    }

    // One byte.
    #[inline(always)]
    fn byte(&mut self, b: u8)
        requires { HasRoom 1 self.old }
        ensures { PenWrote 1 (b ∷ []) self.old self.new }
    {
        self.out[self.at] = b;
        self.at += 1;
    }

    // A word.
    #[inline(always)]
    fn word(&mut self, w: &[u8])
        requires { HasRoom (length w.now) self.old }
        ensures { PenWrote (length w.now) w.now self.old self.new }
    {
        let end = self.at + w.len();
        self.out[self.at..end].copy_from_slice(w);
        self.at = end;
    }

    // The last k digits of n, the lowest first. Each call has a literal base, so that the compiler leaves no division.
    #[inline(always)]
    fn digits(&mut self, base: u64, k: usize, n: u64)
        requires { (0 < base) × (base ≤ 16) × HasRoom k self.old }
        ensures { PenWrote k (digits_of base k n) self.old self.new }
    {
        let digits = b"0123456789abcdef";
        let mut rest = n;
        for i in (0..k).rev() {
            self.out[self.at + i] = digits[(rest % base) as usize];
            rest /= base;
        }
        self.at += k;
    }

    // A double.
    #[inline(always)]
    #[tactic(auto, unfolding(notation::specs::Notation::hex_of))]
    fn hex(&mut self, v: u64)
        requires { HasRoom 16 self.old }
        ensures { PenWrote 16 (hex_of v) self.old self.new }
    {
        self.digits(16, 16, v);
    }

    // Two decimal digits.
    #[inline(always)]
    fn two(&mut self, n: u64)
        requires { (n < 100) × HasRoom 2 self.old }
        ensures { PenWrote 2 (digits_of 10 2 n) self.old self.new }
    {
        self.byte(b'0' + (n / 10) as u8);
        self.byte(b'0' + (n % 10) as u8);
    }

    // A whole number of at most 4 digits.
    #[inline(always)]
    fn short(&mut self, n: u64)
        requires { (n < 10000) × HasRoom 4 self.old }
        ensures { PenWrote 4 (decimal_of n) self.old self.new }
    {
        if n < 10 {
            self.byte(b'0' + n as u8);
        } else if n < 100 {
            self.two(n);
        } else if n < 1000 {
            self.byte(b'0' + (n / 100) as u8);
            self.two(n % 100);
        } else {
            self.two(n / 100);
            self.two(n % 100);
        }
    }

    // A whole number, of at most 20 digits: one of 5 to 8 digits in three pieces, a longer one by the loop.
    #[inline(always)]
    fn number(&mut self, n: u64)
        requires { HasRoom 20 self.old }
        ensures { PenWrote 20 (decimal_of n) self.old self.new }
    {
        if n < 10000 {
            self.short(n);
        } else if n < 100000000 {
            let high = n / 100;
            self.short(high / 100);
            self.two(high % 100);
            self.two(n % 100);
        } else {
            self.digits(10, n.ilog10() as usize + 1, n);
        }
    }

    // A packet by its sender and sequence. The sequence is put where 20 digits have room, though it has at most 10.
    #[inline(always)]
    fn packet(&mut self, packet: Option<(u32, u32)>)
        requires { HasRoom 31 self.old }
        ensures { PenWrote 21 (packet_text packet) self.old self.new }
    {
        match packet {
            None => self.byte(b'-'),
            Some((sender, sequence)) => {
                self.number(sender as u64);
                self.byte(b':');
                self.number(sequence as u64);
            }
        }
    }

    // A rate or an RTT, a double by its bits.
    #[inline(always)]
    fn measured(&mut self, value: Option<u64>)
        requires { HasRoom 16 self.old }
        ensures { PenWrote 16 (measured_text value) self.old self.new }
    {
        match value {
            None => self.byte(b'-'),
            Some(v) => self.hex(v),
        }
    }
}

// A tick's record, its parts as `record_text` names each. The position after the line, or None where fewer than 128 bytes
// are left.
pub fn record_line(
    out: &mut [u8],
    at: usize,
    time: u64,
    part: usize,
    mark: u8,
    packet: Option<(u32, u32)>,
    line: Option<(u32, u32)>,
) -> Option<usize>
    ensures { PutIs (record_text time part mark packet line) out.old at result out.new }
{
    let mut pen = Pen { out, at };
    pen.room()?;
    pen.word(b"time=");
    pen.hex(time);
    pen.word(b" part=");
    pen.number(part as u64);
    pen.word(b" mark=");
    pen.byte(mark);
    pen.word(b" packet=");
    pen.packet(packet);
    pen.word(b" line=");
    pen.packet(line);
    pen.byte(b'\n');
    Some(pen.at)
}

// The end of a run.
pub fn stop_line(out: &mut [u8], at: usize, number: u32, clock: u64) -> Option<usize>
    ensures { PutIs (stop_text number clock) out.old at result out.new }
{
    let mut pen = Pen { out, at };
    pen.room()?;
    pen.word(b"stop=");
    pen.number(number as u64);
    pen.word(b" clock=");
    pen.hex(clock);
    pen.byte(b'\n');
    Some(pen.at)
}

// A refused build, or a malformed description.
pub fn refused_line(out: &mut [u8], at: usize, number: u32) -> Option<usize>
    ensures { PutIs (refused_text number) out.old at result out.new }
{
    let mut pen = Pen { out, at };
    pen.room()?;
    pen.word(b"stop=");
    pen.number(number as u64);
    pen.byte(b'\n');
    Some(pen.at)
}

// A flow, its parts as `flow_text` names each.
pub fn flow_line(
    out: &mut [u8],
    at: usize,
    flow: u32,
    sent: u32,
    counted: u32,
    rate: Option<u64>,
    rtt: Option<u64>,
) -> Option<usize>
    ensures { PutIs (flow_text flow sent counted rate rtt) out.old at result out.new }
{
    let mut pen = Pen { out, at };
    pen.room()?;
    pen.word(b"flow=");
    pen.number(flow as u64);
    pen.word(b" sent=");
    pen.number(sent as u64);
    pen.word(b" counted=");
    pen.number(counted as u64);
    pen.word(b" rate=");
    pen.measured(rate);
    pen.word(b" rtt=");
    pen.measured(rtt);
    pen.byte(b'\n');
    Some(pen.at)
}
