// The claim file, block by block.
ghost use Rattle.std.specs.Prelude.{◌≡◌, ◌≤◌};
ghost use Rattle.claim_file.specs.Block.{bytes_of_block};
ghost use Rattle.load.specs.Load.{drawn, load_claim, load_from, seed_at};
ghost use Rattle.ltd_load.specs.Asked.{LoadAsked, block_asked};
ghost use Rattle.ltd_load.specs.design.Private.{Due, count_from, BlockFrom};

use crate::{Asked, LoadedBlock};
use claim_file::Block;
use claim_file::record::no_claim;
use load::LoadedClaim;

// The claim due: the x reached, the size of the load, and the claim's number.
#[derive(Clone, Copy)]
struct DueClaim {
    x: u32,
    size: u32,
    number: u32,
    ghost due: { Due x size number },
}

impl DueClaim {
    // The claim due and the x reached.
    fn step(self) -> LoadedClaim
        ensures { result ≡ record { claim = load_claim self.x self.number; x = drawn 5 self.x } }
    {
        load::load_claim(self.x, self.size, self.number).unwrap()
    }

    // How many claims the block has that starts with the claim due.
    fn count(self) -> u8
        ensures { result ≡ count_from self.size self.number }
    {
        (self.size - self.number).min(14) as u8 + 1
    }

    // The claims of the block that starts with the claim due, and the x reached.
    fn block(self) -> LoadedBlock
        ensures { BlockFrom self.x self.size self.number result }
    {
        let count = self.count();
        let mut claims = [no_claim(); 15];
        let mut reached = self.x;
        for (place, claim) in claims[..usize::from(count)].iter_mut().enumerate() {
            let due = DueClaim {
                x: reached,
                size: self.size,
                number: self.number + place as u32,
            };
            let loaded = due.step();
            *claim = loaded.claim;
            reached = loaded.x;
        }
        let block = Block { count, claims };
        LoadedBlock { block, x: reached }
    }

    // Stores the block with a number that starts with the claim due, and answers the x reached.
    fn put_block(self, number: u32, bytes: &mut [u8; 512]) -> u32
        requires { (1 ≤ number) × (number ≤ 65535) }
        ensures value { result ≡ seed_at self.x (count_from self.size self.number) }
        ensures bytes_after { bytes.new ≡ bytes_of_block number (load_from self.x self.number (count_from self.size self.number)) }
    {
        let made = self.block();
        let _ = claim_file::blocks::write(number, made.block, bytes);
        made.x
    }
}

// The only writer: writes the block with a number of the file asked for, and says whether it could.
fn write_block(rt: &impl Print, asked: Asked, number: u32, bytes: &[u8; 512]) -> bool
    requires { bytes.now ≡ block_asked asked number }
{
    rt.write_all(bytes).is_ok()
}

// Writes the blocks of claims, up to a write that fails.
fn write_claims(rt: &impl Print, asked: Asked)
    requires { LoadAsked asked }
{
    let mut bytes = [0u8; 512];
    let mut x = asked.seed;
    // Kept: the blocks written so far give both the block's number and that of its first claim.
    for written in 0..asked.size.div_ceil(15) {
        let number = written + 1;
        let due = DueClaim {
            x,
            size: asked.size,
            number: 15 * written + 1,
        };
        x = due.put_block(number, &mut bytes);
        if !write_block(rt, asked, number, &bytes) {
            return;
        }
    }
}

// Writes the claim file, up to a write that fails.
pub(crate) fn write_load(rt: &impl Print, asked: Asked)
    requires { LoadAsked asked }
{
    let mut bytes = [0u8; 512];
    let _ = claim_file::blocks::write_window(asked.first, asked.last, &mut bytes);
    if write_block(rt, asked, 0, &bytes) {
        write_claims(rt, asked);
    }
}
