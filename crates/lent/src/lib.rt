// What is lent (document 01, "Meter"): the meter's two changes over a lent meter, and the mean of a lent
// list of flow records. Each calls a method by value, which does the work.
#![tactic(auto)]

ghost use Rattle.std.specs.Prelude.{◌≡◌};
ghost use Rattle.flows.specs.Average.{average_of, told_mean};
ghost use Rattle.meters.specs.Meter.{switched_of, received_of, told_change, number_of};

use flows::{FlowProperties, FlowSum, NoMean};
use lending::{lending, thin};
use meters::{AverageFlowMeter, ChangeRefused, Reception};
use quantities::Time;

// The meter's two changes over a lent meter. Where one is refused (18), the meter is as it was.

// Switches the meter on or off at a time.
pub fn switch_lent(meter: &mut AverageFlowMeter, on: bool, time: Time) -> Result<(), ChangeRefused>
    ensures { (number_of result ≡ (switched_of meter.old on time).number) × (meter.new ≡ (switched_of meter.old on time).meter) }
{
    thin(
        meter,
        on,
        time,
        |m: AverageFlowMeter, on: bool, time: Time| m.switch(on, time),
    )
}

// Counts a packet at a time.
pub fn record_lent(
    meter: &mut AverageFlowMeter,
    packet: Reception,
    time: Time,
) -> Result<(), ChangeRefused>
    ensures { (number_of result ≡ (received_of meter.old packet time).number) × (meter.new ≡ (received_of meter.old packet time).meter) }
{
    thin(
        meter,
        packet,
        time,
        |m: AverageFlowMeter, packet: Reception, time: Time| m.packet_received(packet, time),
    )
}

// The same changes of a meter by value, which is lent.
#[tactic(auto, using(meters::proofs::Refusals::switch_refused))]
pub fn switch_lending(
    meter: AverageFlowMeter,
    on: bool,
    time: Time,
) -> Result<AverageFlowMeter, ChangeRefused>
    ensures { told_change meter result ≡ switched_of meter on time }
{
    let (answer, after) = lending(
        meter,
        on,
        time,
        |m: &mut AverageFlowMeter, on: bool, time: Time| { switch_lent(m, on, time) },
    );
    answer?;
    Ok(after)
}

#[tactic(auto, using(meters::proofs::Refusals::record_refused))]
pub fn record_lending(
    meter: AverageFlowMeter,
    packet: Reception,
    time: Time,
) -> Result<AverageFlowMeter, ChangeRefused>
    ensures { told_change meter result ≡ received_of meter packet time }
{
    let (answer, after) = lending(
        meter,
        packet,
        time,
        |m: &mut AverageFlowMeter, packet: Reception, time: Time| { record_lent(m, packet, time) },
    );
    answer?;
    Ok(after)
}

// The mean of a lent list of flow records.
pub fn average(list: &[FlowProperties]) -> Result<FlowProperties, NoMean>
    ensures { told_mean result ≡ average_of list.now }
{
    let mut sum = FlowSum::start();
    for flow in list {
        sum = sum.added(*flow)?;
    }
    sum.mean()
}
