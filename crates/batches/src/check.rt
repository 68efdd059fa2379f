// The check of a batch.
ghost use Rattle.std.specs.Prelude.{◌≡◌, ◌≤◌, length};
ghost use Rattle.batches.specs.Batch.{total, batch_fault};

use subsumption::refusal::Refusal;

pub const TABLES: usize = 8;

const SHARE: u32 = 1000000;

// The sum of the lengths.
fn sum_of(lengths: &[u16]) -> usize
    requires { length lengths.now ≤ 8 }
    ensures { result ≡ total lengths.now (length lengths.now) }
{
    lengths.iter().map(|n| *n as usize).sum()
}

// Check 20, given how many numbers the question tables have together.
pub fn check_batch(lengths: &[u16], shares: &[u32], size: usize) -> Result<(), Refusal>
    ensures { result ≡ batch_fault lengths.now shares.now size }
{
    let count = lengths.len();
    if count > TABLES {
        return Err(Refusal::BadBatch(TABLES));
    }
    if shares.len() != count {
        return Err(Refusal::BadBatch(TABLES));
    }
    if sum_of(lengths) != size {
        return Err(Refusal::BadBatch(TABLES));
    }
    for (k, share) in shares.iter().enumerate() {
        if *share > SHARE {
            return Err(Refusal::BadBatch(k));
        }
    }
    Ok(())
}
