// The call for a step of a load.
ghost use Rattle.std.specs.Prelude.{◌≡◌};
ghost use Rattle.load.specs.Load.{load_step};
ghost use Rattle.c_abi.specs.LoadCalls.{step_answered, reached_after, record_after};

use basics::limits::NO_FORM;
use claim_file::record::write_record;

// The claim with the number due, as its record, and the x reached, or 20.
#[unsafe(no_mangle)]
pub extern "C" fn ltd_load_claim(
    x: u32,
    size: u32,
    number: u32,
    x_out: &mut [u32],
    claim: &mut [u8],
) -> u8
    ensures value { result ≡ step_answered x_out.old claim.old (load_step x size number) }
    ensures x_out_after { x_out.new ≡ reached_after x_out.old claim.old (load_step x size number) }
    ensures claim_after { claim.new ≡ record_after x_out.old claim.old (load_step x size number) }
{
    if x_out.len() < 1 || claim.len() < 32 {
        return NO_FORM;
    }
    match load::load_claim(x, size, number) {
        Ok(step) => {
            x_out[0] = step.x;
            write_record(step.claim, 0, claim);
            0
        }
        Err(refusal) => u8::from(refusal),
    }
}
