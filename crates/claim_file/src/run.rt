// The file run: blocks 0, 1, 2, .. in order, up to the first refusal.
ghost use Rattle.std.specs.Prelude.{◌≡◌, ◌&&◌, List, ◌+◌, ◌-◌, ◌≤◌, ◌<◌, ltb, ℤ, IsNone};
ghost use Rattle.basics.specs.Limits.{block_bytes};
ghost use Rattle.study.specs.Sums.{none};
ghost use Rattle.study.specs.design.LentAdding.{room_for};
ghost use Rattle.claim_file.specs.Run.{adding, started, fed, ended, file_run_with, file_run};
ghost use Rattle.claim_file.specs.design.PreparedRuns.{adding_with};
ghost use Rattle.claim_file.specs.design.LentRuns.{with_sums};
ghost use Rattle.claim_file.specs.Runs.{run_by_number};
ghost use Rattle.claim_file.specs.design.Private.{block_begun, lent_stops, lent_goes_on};

use crate::blocks::{claim_at, is_sound};
use crate::bytes::date_at;
use crate::{FileRun, LentRun, Stop};
use basics::limits::BLOCK_BYTES;
use basics::refusal::Refusal;
use calendar::Day;
use claim_months::Window;
use claim_months::windows::window_months;
use rates::Kind;
use rates::prepared::rate_table;
use study::Study;
use study::adding::add_to;
use study::sums::{clear, has_room_for_block, has_still_room};

// Where the block that starts at a byte ends: 512 bytes on, or with the file.
fn block_end(at: usize, len: usize) -> usize
    requires { at ≤ len }
    ensures { result ≡ at + (block_bytes - (block_bytes - (len - at))) }
{
    at + (len - at).min(BLOCK_BYTES)
}

impl LentRun {
    // A run before its first block: no study opened yet. Its sums are zeros.
    #[tactic(auto, unfolding(crate::specs::design::LentRuns::with_sums, crate::specs::Run::started, study::specs::Sums::none, study::specs::Study::fresh))]
    pub fn start() -> LentRun
        ensures { with_sums result none ≡ started }
    {
        let window = Window {
            first: Day(0),
            last: Day(0),
        };
        LentRun {
            window: window_months(window),
            taken: 0,
            due: 0,
            stop: None,
        }
    }

    // The run with some claims taken, refused at the block due.
    #[tactic(auto, unfolding(crate::specs::design::Private::lent_stops))]
    fn stopped(self, taken: u32, refusal: Refusal, place: u8) -> LentRun
        ensures { result ≡ lent_stops self taken refusal place }
    {
        let stop = Stop {
            refusal,
            block: self.due,
            place,
        };
        LentRun {
            window: self.window,
            taken,
            due: self.due,
            stop: Some(stop),
        }
    }

    // The run after a sound block whose claims were all taken.
    #[tactic(auto, unfolding(crate::specs::design::Private::lent_goes_on))]
    fn continued(self, taken: u32) -> LentRun
        requires { self.due < 65536 }
        ensures { result ≡ lent_goes_on self taken }
    {
        LentRun {
            window: self.window,
            taken,
            due: self.due + 1,
            stop: None,
        }
    }

    // The run at the end of its file, whatever its sums: one without block 0 is refused 11.
    #[tactic(auto, using(crate::proofs::Stops::stop_numbers), unfolding(crate::specs::design::LentRuns::with_sums, crate::specs::Run::ended, crate::specs::Run::stops, crate::specs::design::Private::lent_stops))]
    pub fn end(self) -> LentRun
        ensures { (sums : List ℤ) → with_sums result sums ≡ ended (with_sums self sums) }
    {
        if self.stop.is_some() || self.due > 0 {
            return self;
        }
        self.stopped(self.taken, Refusal::Block, 0)
    }

    // The run that it makes up with its sums.
    #[tactic(auto, unfolding(crate::specs::design::LentRuns::with_sums))]
    pub fn with_sums(self, sums: [i64; 80]) -> FileRun
        ensures { run_by_number result ≡ with_sums self sums }
    {
        FileRun {
            study: Study {
                window: self.window.window,
                taken: self.taken,
                sums,
            },
            due: self.due,
            stop: self.stop,
        }
    }
}

// A block begun: its window opened if it is block 0, so with no claims and zero sums; refused 11 if it is not sound.
#[tactic(auto, using(crate::proofs::Runs::sound_size), unfolding(crate::specs::design::LentRuns::with_sums, crate::specs::design::Private::block_begun, crate::specs::design::Private::lent_stops, crate::specs::Run::begun, crate::specs::Run::stops))]
fn begin(run: LentRun, bytes: &[u8], sums: &mut [i64; 80]) -> LentRun
    requires { IsNone run.stop }
    ensures { with_sums result sums.new ≡ block_begun (with_sums run sums.old) bytes.now }
{
    if !is_sound(bytes, run.due) {
        return run.stopped(run.taken, Refusal::Block, 0);
    }
    if run.due != 0 {
        return run;
    }
    clear(sums);
    match claim_months::windows::window(date_at(bytes, 16), date_at(bytes, 20)) {
        Ok(window) => LentRun {
            window: window_months(window),
            taken: 0,
            due: run.due,
            stop: None,
        },
        Err(refusal) => LentRun::start().stopped(0, refusal, 0),
    }
}

// Whether the sums have room for all claims of a block that has some. Of an empty one nobody asks, and it isn't looked at.
#[inline(always)]
pub(crate) fn has_spare(count: u8, sums: &[i64; 80]) -> bool
    ensures { result ≡ (ltb 0 count && room_for 15 sums.now) }
{
    count > 0 && has_room_for_block(sums)
}

// The run with the blocks of some bytes taken, a part block at the end with them, up to the first refusal, with a table of either kind. The sums are
// looked at once for all claims of a block where these can't take one past its bound.
#[inline(always)]
fn feed_kind(
    kind: Kind,
    table: &[u32],
    bytes: &[u8],
    from: LentRun,
    sums: &mut [i64; 80],
) -> LentRun
    ensures { with_sums result sums.new ≡ fed (with_sums from sums.old) (adding_with kind table.now) bytes.now }
{
    if from.stop.is_some() {
        return from;
    }
    let table = rate_table(kind, table);
    let mut run = from;
    let mut at = 0;
    // Kept: document 01 names this form, two loops that the label leaves at the first refusal.
    'file: while at < bytes.len() {
        let end = block_end(at, bytes.len());
        let part = &bytes[at..end];
        run = begin(run, part, sums);
        if run.stop.is_some() {
            break 'file;
        }
        let window = run.window;
        let mut taken = run.taken;
        let count = part[2];
        let spare = has_spare(count, sums);
        for place in 0..count {
            let claim = claim_at(part, place);
            let room = has_still_room(spare, sums);
            if let Err(refusal) = add_to(&table, claim, window, taken, room, sums) {
                run = run.stopped(taken, refusal, place + 1);
                break 'file;
            }
            taken += 1;
        }
        run = run.continued(taken);
        at = end;
    }
    run
}

// The same for callers. Kept: one call for each kind, so that the compiler makes code for each, without the other's tests.
pub fn feed_lent(
    kind: Kind,
    table: &[u32],
    bytes: &[u8],
    from: LentRun,
    sums: &mut [i64; 80],
) -> LentRun
    ensures { with_sums result sums.new ≡ fed (with_sums from sums.old) (adding_with kind table.now) bytes.now }
{
    match kind {
        Kind::Plain => feed_kind(Kind::Plain, table, bytes, from, sums),
        Kind::Prepared => feed_kind(Kind::Prepared, table, bytes, from, sums),
    }
}

impl FileRun {
    // The run but for its study's sums.
    #[tactic(auto, unfolding(crate::specs::design::LentRuns::with_sums))]
    fn lent(self) -> LentRun
        ensures { with_sums result self.study.sums ≡ run_by_number self }
    {
        LentRun {
            window: window_months(self.study.window),
            taken: self.study.taken,
            due: self.due,
            stop: self.stop,
        }
    }

    // A run before its first block: no study opened yet.
    #[tactic(auto, unfolding(study::specs::Sums::none, basics::specs::Tables::table))]
    pub fn start() -> FileRun
        ensures { run_by_number result ≡ started }
    {
        LentRun::start().with_sums([0; 80])
    }

    // The run with the blocks of some bytes taken, a part block at the end with them, up to the first refusal, with a table of either
    // kind. The sums are lent to each addition: a study handed on by value would be a copy with each claim.
    pub fn feed_with(self, kind: Kind, table: &[u32], bytes: &[u8]) -> FileRun
        ensures { run_by_number result ≡ fed (run_by_number self) (adding_with kind table.now) bytes.now }
    {
        let mut sums = self.study.sums;
        let run = feed_lent(kind, table, bytes, self.lent(), &mut sums);
        run.with_sums(sums)
    }

    // The same with plain rates.
    pub fn feed(self, rates: &[u32], bytes: &[u8]) -> FileRun
        ensures { run_by_number result ≡ fed (run_by_number self) (adding rates.now) bytes.now }
    {
        self.feed_with(Kind::Plain, rates, bytes)
    }

    // The run at the end of its file: one without block 0 is refused 11.
    pub fn end(self) -> FileRun
        ensures { run_by_number result ≡ ended (run_by_number self) }
    {
        self.lent().end().with_sums(self.study.sums)
    }
}

// The run of a whole file, with a table of either kind.
#[tactic(auto, unfolding(crate::specs::Run::file_run_with))]
pub fn run_with(kind: Kind, table: &[u32], bytes: &[u8]) -> FileRun
    ensures { run_by_number result ≡ file_run_with (adding_with kind table.now) bytes.now }
{
    FileRun::start().feed_with(kind, table, bytes).end()
}

// The run of a whole file.
pub fn run_file(rates: &[u32], bytes: &[u8]) -> FileRun
    ensures { run_by_number result ≡ file_run rates.now bytes.now }
{
    run_with(Kind::Plain, rates, bytes)
}
