// The run of a text for programs in other languages: bytes in, bytes out, and the answer is a number.
// The crate `sweep_c` gives these functions to C.
#![tactic(auto)]

ghost use Rattle.std.specs.Prelude.{◌≡◌};
ghost use Rattle.report.specs.Report.{ForText, report_of};
ghost use Rattle.filling.specs.Filling.{end_of};
ghost use Rattle.sweep.specs.Sweep.{count_of, CountPut, Enough, enough_for, enough_for_each, enough_for_flows};

// The position after all lines, as their count, or 0 where there was too little room.
fn counted(put: Option<usize>) -> usize
    ensures { result ≡ count_of put }
{
    put.unwrap_or(0)
}

// All that is printed for a text, put into out: the count of its bytes, or 0 where out is too small.
// 128 bytes for each tick and 2,176 more are enough, 8,390,784 for every text.
pub fn remyline_print(text: &[u8], out: &mut [u8]) -> usize
    ensures { ForText text.now (λ d. CountPut (report_of d) out.old result out.new × Enough (enough_for d) out.old result) × Enough enough_for_each out.old result }
{
    counted(filling::print_run(text, out))
}

// Its last lines, without the records, put into out: the count of their bytes, or 0 where out is too
// small. 2,176 bytes are enough for every text.
pub fn remyline_flows(text: &[u8], out: &mut [u8]) -> usize
    ensures { ForText text.now (λ d. CountPut (end_of (report_of d)) out.old result out.new) × Enough enough_for_flows out.old result }
{
    counted(filling::print_flows(text, out))
}
