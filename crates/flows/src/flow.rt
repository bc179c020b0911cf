use quantities::{InformationRate, TimeSpan};

// Why a flow has no mean round-trip time.
#[derive(Clone, Copy, PartialEq, Eq)]
pub struct NoPacketsAcked;

// A flow record: its throughput, and the mean of its round-trip times.
#[derive(Clone, Copy)]
pub struct FlowProperties {
    pub throughput: InformationRate,
    pub rtt: Result<TimeSpan, NoPacketsAcked>,
}
