// The calls that open a study, add a claim to it or withdraw one, with plain rates or a prepared table, and join two studies. A study is a lent list of 83 numbers, a claim the record of a claim file.
ghost use Rattle.std.specs.Prelude.{◌≡◌, ◌≤◌, length, eqb};
ghost use Rattle.std.proofs.lemmas.List.Edits.{sets};
ghost use Rattle.rates.specs.declared.Kind.TheVariants.{Prepared};
ghost use Rattle.basics.specs.Pick.{pick};
ghost use Rattle.basics.specs.Refused.{number_in};
ghost use Rattle.study.specs.Answers.{by_number};
ghost use Rattle.study.specs.Study.{added};
ghost use Rattle.study.specs.Withdrawing.{withdrawn};
ghost use Rattle.study_list.specs.StudyList.{study_numbers};
ghost use Rattle.c_abi.specs.declared.Change.TheVariants.{Add, Withdraw};
ghost use Rattle.c_abi.specs.StudyCalls.{held_up_to, sums_in, study_in, open_answer, open_after, changed_by, claim_answer, claim_after, join_answer, join_after};

use crate::Change;
use crate::listing::date_in;
use basics::limits::{MOST_CLAIMS, NO_FORM};
use basics::refusal::number_in;
use calendar::{Day, LAST_DAY};
use claim_months::{Claim, Window};
use rates::Kind;
use study::{Answer, Study};
use study_list::put_study;

// A number from 0 to the most that its field may hold; any other is read as one more, which the study's own checks refuse.
fn held_up_to(most: u32, x: i64) -> u32
    requires { most ≤ 1000000 }
    ensures { result ≡ held_up_to most x }
{
    u32::try_from(x).unwrap_or(u32::MAX).min(most + 1)
}

// The sums that stand in a study's list.
fn sums_in(list: &[i64]) -> [i64; 80]
    requires { 83 ≤ length list.now }
    ensures { result ≡ sums_in list.now }
{
    <[i64; 80]>::try_from(&list[3..83]).unwrap()
}

// The study that a list holds.
fn study_in(list: &[i64]) -> Study
    requires { 83 ≤ length list.now }
    ensures { result ≡ study_in list.now }
{
    let first = list[0];
    let last = list[1];
    let taken = list[2];
    Study {
        window: Window {
            first: Day(held_up_to(LAST_DAY, first)),
            last: Day(held_up_to(LAST_DAY, last)),
        },
        taken: held_up_to(MOST_CLAIMS, taken),
        sums: sums_in(list),
    }
}

// Opens a study.
#[unsafe(no_mangle)]
pub extern "C" fn ltd_open(first: u32, last: u32, study: &mut [i64]) -> u8
    ensures value { result ≡ open_answer first last study.old }
    ensures study_after { study.new ≡ open_after first last study.old }
{
    let answer = Study::open(date_in(first), date_in(last));
    put_study(answer.study, number_in(answer.refused), study)
}

// What a study makes of a claim, with a table of either kind.
fn changed(change: Change, kind: Kind, study: Study, claim: Claim, table: &[u32]) -> Answer
    ensures { by_number result ≡ changed_by change kind study claim table.now }
{
    match change {
        Change::Add => study.add_with(kind, table, claim),
        Change::Withdraw => study.withdraw_with(kind, table, claim),
    }
}

// Stores the study of an answer that is not refused, and answers the number.
// Kept: what it answers is the C call's number, as `join_answer` and `claim_answer` tell it.
fn put_answer(answer: Answer, study: &mut [i64]) -> u8
    requires { 83 ≤ length study.old }
    ensures value { result ≡ number_in answer.refused }
    ensures study_after { study.new ≡ pick (eqb (number_in answer.refused) 0) (sets study.old 0 (study_numbers answer.study)) study.old }
{
    match answer.refused {
        Some(refusal) => u8::from(refusal),
        None => put_study(answer.study, 0, study),
    }
}

// Changes a study by the claim of a record.
// Kept: what it answers is the C call's number, and 255 is no `Refusal`.
fn change_study(change: Change, kind: Kind, study: &mut [i64], claim: &[u8], table: &[u32]) -> u8
    ensures value { result ≡ claim_answer (changed_by change kind) study.old claim.now table.now }
    ensures study_after { study.new ≡ claim_after (changed_by change kind) study.old claim.now table.now }
{
    if study.len() < 83 {
        return NO_FORM;
    }
    let Some(read) = claim_file::record::read_record(claim, 0) else {
        return NO_FORM;
    };
    put_answer(changed(change, kind, study_in(study), read, table), study)
}

// Adds a claim to a study.
#[unsafe(no_mangle)]
#[tactic(auto, unfolding(crate::specs::StudyCalls::changed_by))]
pub extern "C" fn ltd_add(study: &mut [i64], claim: &[u8], rates: &[u32]) -> u8
    ensures value { result ≡ claim_answer added study.old claim.now rates.now }
    ensures study_after { study.new ≡ claim_after added study.old claim.now rates.now }
{
    change_study(Change::Add, Kind::Plain, study, claim, rates)
}

// The same with a prepared table.
#[unsafe(no_mangle)]
pub extern "C" fn ltd_prepared_add(study: &mut [i64], claim: &[u8], table: &[u32]) -> u8
    ensures value { result ≡ claim_answer (changed_by Add Prepared) study.old claim.now table.now }
    ensures study_after { study.new ≡ claim_after (changed_by Add Prepared) study.old claim.now table.now }
{
    change_study(Change::Add, Kind::Prepared, study, claim, table)
}

// Withdraws a claim from a study.
#[unsafe(no_mangle)]
#[tactic(auto, unfolding(crate::specs::StudyCalls::changed_by))]
pub extern "C" fn ltd_withdraw(study: &mut [i64], claim: &[u8], rates: &[u32]) -> u8
    ensures value { result ≡ claim_answer withdrawn study.old claim.now rates.now }
    ensures study_after { study.new ≡ claim_after withdrawn study.old claim.now rates.now }
{
    change_study(Change::Withdraw, Kind::Plain, study, claim, rates)
}

// The same with a prepared table.
#[unsafe(no_mangle)]
pub extern "C" fn ltd_prepared_withdraw(study: &mut [i64], claim: &[u8], table: &[u32]) -> u8
    ensures value { result ≡ claim_answer (changed_by Withdraw Prepared) study.old claim.now table.now }
    ensures study_after { study.new ≡ claim_after (changed_by Withdraw Prepared) study.old claim.now table.now }
{
    change_study(Change::Withdraw, Kind::Prepared, study, claim, table)
}

// Joins a study into another.
#[unsafe(no_mangle)]
pub extern "C" fn ltd_join(study: &mut [i64], other: &[i64]) -> u8
    ensures value { result ≡ join_answer study.old other.now }
    ensures study_after { study.new ≡ join_after study.old other.now }
{
    if study.len() < 83 {
        return NO_FORM;
    }
    if other.len() < 83 {
        return NO_FORM;
    }
    put_answer(study_in(study).join(study_in(other)), study)
}
