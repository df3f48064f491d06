// Valuation (document 01): z, m and T of a group, the valuation rate and the reserve factor; the limit on reserves and the wanted count (document 02).
#![tactic(auto)]

pub mod factor;
pub mod rate;
pub mod reserve_factor;
pub mod reserve_limit;
pub mod study_factor;
pub mod wanted_count;

// z, m and T of a group, in millionths.
#[derive(Clone, Copy)]
pub struct GroupFactor {
    pub z: u32,
    pub m: u32,
    pub t: u64,
}

// The reserve factor, or the number refused. Kept: document 01 names this form.
#[derive(Clone, Copy)]
pub enum Reserve {
    Factor(f64),
    Refused(u8),
}

// The set of T that the limit on reserves allows, with both total reserves.
#[derive(Clone, Copy)]
pub struct Limit {
    pub t: [u64; 5],
    pub given: f64,
    pub replaced: f64,
}
