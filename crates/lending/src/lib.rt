// The two forms of what is lent, over any method and any two values beside the meter: a function that changes a lent
// meter by a method that takes it by value, and one that lends a local to such a function. Each stands over any answer
// beside the meter, as a number, with any meter left where the answer is a refusal (`thin_any`, `lending_any`), and over
// the answers of the meter's own changes (`thin`, `lending`). `lent` has the latter for the meter's two changes.
#![tactic(auto)]

ghost use Rattle.std.specs.Prelude.{◌≡◌};
ghost use Rattle.meters.specs.Meter.{Metered, told_change, number_of};

use meters::{AverageFlowMeter, ChangeRefused};

// Changes a lent meter as the method does that takes it by value, and answers what the method answers beside the meter.
//
// A law, and no entry point: the caller shows that the method may be called.
pub fn thin_any<P, Q, N, F: FnOnce(AverageFlowMeter, P, Q) -> (N, AverageFlowMeter)>(
    meter: &mut AverageFlowMeter,
    x: P,
    y: Q,
    method: F,
) -> N
    requires { F.pre method meter.old x y }
    ensures answered { (answer : _) × F.post method meter.old x y answer × (result ≡ answer.0) × (meter.new ≡ answer.1) }
    ensures defined { (told : N × AverageFlowMeter) → ((answer : _) → F.post method meter.old x y answer → answer ≡ told) → (result ≡ told.0) × (meter.new ≡ told.1) }
{
    let (answer, after) = method(*meter, x, y);
    *meter = after;
    answer
}

// Lends a local that holds the meter, and gives the form's answer with the meter that the form leaves there.
//
// A law, and no entry point: the caller shows that the form may be called.
pub fn lending_any<P, Q, N, F: FnOnce(&mut AverageFlowMeter, P, Q) -> N>(
    meter: AverageFlowMeter,
    x: P,
    y: Q,
    form: F,
) -> (N, AverageFlowMeter)
    requires { F.IsAlwaysCallable form }
    ensures lent { (before : _) × (after : _) × (before.now ≡ meter) × F.post form before x y result.0 after × (after.now ≡ result.1) }
    ensures defined { (told : N × AverageFlowMeter) → ((before after : _) (answer : _) → before.now ≡ meter → F.post form before x y answer after → (answer ≡ told.0) × (after.now ≡ told.1)) → result ≡ told }
{
    let mut lent = meter;
    let answer = form(&mut lent, x, y);
    (answer, lent)
}

// Changes a lent meter as the method does that takes it by value. Where the method refuses, the meter is as it was.
//
// A law, and no entry point: the caller shows that the method may be called.
pub fn thin<P, Q, F: FnOnce(AverageFlowMeter, P, Q) -> Result<AverageFlowMeter, ChangeRefused>>(
    meter: &mut AverageFlowMeter,
    x: P,
    y: Q,
    method: F,
) -> Result<(), ChangeRefused>
    requires { F.pre method meter.old x y }
    ensures answered { (answer : _) × F.post method meter.old x y answer × (number_of result ≡ number_of answer) × (meter.new ≡ (told_change meter.old answer).meter) }
    ensures defined { (told : Metered) → ((answer : _) → F.post method meter.old x y answer → told_change meter.old answer ≡ told) → (number_of result ≡ told.number) × (meter.new ≡ told.meter) }
{
    *meter = method(*meter, x, y)?;
    Ok(())
}

// The same of a form that answers as the meter's changes do.
//
// A law, and no entry point: the caller shows that the form may be called.
pub fn lending<P, Q, F: FnOnce(&mut AverageFlowMeter, P, Q) -> Result<(), ChangeRefused>>(
    meter: AverageFlowMeter,
    x: P,
    y: Q,
    form: F,
) -> (Result<(), ChangeRefused>, AverageFlowMeter)
    requires { F.IsAlwaysCallable form }
    ensures lent { (before : _) × (after : _) × (before.now ≡ meter) × F.post form before x y result.0 after × (after.now ≡ result.1) }
    ensures defined { (told : Metered) → ((before after : _) (answer : _) → before.now ≡ meter → F.post form before x y answer after → (number_of answer ≡ told.number) × (after.now ≡ told.meter)) → (number_of result.0 ≡ told.number) × (result.1 ≡ told.meter) }
{
    lending_any(meter, x, y, form)
}
