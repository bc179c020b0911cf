// Standard output. No contract sees a write, so it is made in one place, which counts the bytes that it
// was handed.
ghost use Rattle.std.specs.Prelude.{◌+◌, ◌^◌, ◌<◌, ◌≡◌, length};
ghost use Rattle.console.specs.Turns.{HandedIs};

// How many bytes were handed to standard output. Only `hand` adds to it.
#[derive(Clone, Copy)]
pub struct Tally(u64);

// A write failed, and a line on standard error says so.
#[derive(Clone, Copy, PartialEq, Eq)]
pub struct WriteFailed;

// Nothing was handed over yet.
pub(crate) fn nothing() -> Tally
    ensures { result.0 ≡ 0 }
{
    Tally(0)
}

// Hands bytes to standard output. Where the write fails, a line on standard error says so.
//
// A helper within this crate, and no entry point: the caller shows that the tally stays below 2^64.
pub(crate) fn hand(
    rt: &(impl Print + Eprint),
    tally: Tally,
    bytes: &[u8],
) -> Result<Tally, WriteFailed>
    requires { tally.0 + length bytes.now < 2 ^ 64 }
    ensures { HandedIs (tally.0 + length bytes.now) result }
{
    if rt.write_all(bytes).is_err() {
        let _ = eprintln!(rt; "remyline: the output could not be written");
        return Err(WriteFailed);
    }
    Ok(Tally(tally.0 + bytes.len() as u64))
}
