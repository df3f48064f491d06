// The calls for the rows of a whole claim file, one for each month of duration, with plain rates or a prepared table.
ghost use Rattle.std.specs.Prelude.{◌≡◌};
ghost use Rattle.rates.specs.declared.Kind.TheVariants.{Plain, Prepared};
ghost use Rattle.by_duration.specs.DurationRuns.{durations_answered, durations_after};

use rates::Kind;

// The rows of a whole claim file.
#[unsafe(no_mangle)]
pub extern "C" fn ltd_durations(file: &[u8], rates: &[u32], out: &mut [i64]) -> u8
    ensures value { result ≡ durations_answered Plain rates.now file.now out.old }
    ensures out_after { out.new ≡ durations_after Plain rates.now file.now out.old }
{
    by_duration::run::durations(Kind::Plain, rates, file, out)
}

// The same with a prepared table.
#[unsafe(no_mangle)]
pub extern "C" fn ltd_prepared_durations(file: &[u8], table: &[u32], out: &mut [i64]) -> u8
    ensures value { result ≡ durations_answered Prepared table.now file.now out.old }
    ensures out_after { out.new ≡ durations_after Prepared table.now file.now out.old }
{
    by_duration::run::durations(Kind::Prepared, table, file, out)
}
