// The call for the small company rule. A claim list is records of a claim file, one after the other.
ghost use Rattle.std.specs.Prelude.{◌≡◌, ◌≤◌, length};
ghost use Rattle.std.proofs.lemmas.List.Edits.{sets};
ghost use Rattle.small_company.specs.Company.{company_by_number};
ghost use Rattle.small_company.specs.SmallCompany.{company_of};
ghost use Rattle.c_abi.specs.Abi.{date_in};
ghost use Rattle.c_abi.specs.CompanyCalls.{company_answered, company_numbers, company_after};

use crate::listing::date_in;
use basics::limits::NO_FORM;
use small_company::Company;

// Stores what a carrier is told from the first place on.
fn put_company(company: Company, out: &mut [u64])
    requires { 9 ≤ length out.old }
    ensures { out.new ≡ sets out.old 0 (company_numbers (company_by_number (Ok company))) }
{
    out[0] = u64::from(company.exempt);
    out[1] = company.recent;
    out[2] = company.earlier;
    out[3] = u64::from(company.group);
    out[4..9].copy_from_slice(&company.t);
}

// Whether a carrier is exempt, both counts, the first group that moved far, and five T.
#[unsafe(no_mangle)]
pub extern "C" fn ltd_small_company(
    date: u32,
    claims: &[u8],
    new_t: &[u64],
    old_t: &[u64],
    out: &mut [u64],
) -> u8
    ensures value { result ≡ company_answered new_t.now old_t.now out.old (company_of (date_in date) claims.now new_t.now old_t.now) }
    ensures out_after { out.new ≡ company_after new_t.now old_t.now out.old (company_of (date_in date) claims.now new_t.now old_t.now) }
{
    let Ok(new_t) = <[u64; 5]>::try_from(new_t) else {
        return NO_FORM;
    };
    let Ok(old_t) = <[u64; 5]>::try_from(old_t) else {
        return NO_FORM;
    };
    if out.len() < 9 {
        return NO_FORM;
    }
    match small_company::small_company(date_in(date), claims, new_t, old_t) {
        Ok(company) => {
            put_company(company, out);
            0
        }
        Err(refusal) => u8::from(refusal),
    }
}
