use draws::ContinuousDistribution;
use link::LineValues;
use sender::Policy;

// The network of a description: the line's values and those of a return line, if any, the bits of each
// sender's packets, how many senders there are, how long they are on and off, and how they choose
// their windows. Any values can be held; a build tests them. The bits of places from the number of
// senders on are read by nobody.
#[derive(Clone, Copy)]
pub struct RemyNetwork {
    pub line: LineValues,
    pub back: Option<LineValues>,
    pub bits: [u64; 16],
    pub senders: u32,
    pub on: ContinuousDistribution,
    pub off: ContinuousDistribution,
    pub policy: Policy,
}
