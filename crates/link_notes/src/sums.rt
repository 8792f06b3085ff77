// A sum of 64 bits for a block: of its bytes and of the list that it stands for, each with its length.
ghost use Rattle.std.specs.Prelude.{◌≡◌, ◌<◌};
ghost use Rattle.link_notes.specs.Sums.{stepped, sum_from, length_and_bytes, joined, sum_of, block_of};

// The largest prime of 32 bits, and two numbers of 31.
const PRIME: u64 = 4_294_967_291;

const FIRST: u64 = 1_812_433_253;

const SECOND: u64 = 1_103_515_245;

// How many numbers 32 bits can say.
const WORD: usize = 4_294_967_296;

// What was read so far as a polynomial over the remainders by the prime, at two places.
#[derive(Clone, Copy)]
pub struct Sum {
    pub first: u32,
    pub second: u32,
}

impl Sum {
    // One number more. It counts from 1, so that zeros count too.
    fn step(self, x: u32) -> Sum
        ensures { result ≡ stepped self x }
    {
        Sum {
            first: ((u64::from(self.first) * FIRST + u64::from(x) + 1) % PRIME) as u32,
            second: ((u64::from(self.second) * SECOND + u64::from(x) + 1) % PRIME) as u32,
        }
    }

    // Both in one number, and 1 for 0, which stands for no block.
    fn join(self) -> u64
        ensures { (result ≡ joined self) × (0 < result) }
    {
        let n = u64::from(self.first) * WORD as u64 + u64::from(self.second);
        n.max(1)
    }
}

fn through(s: &[u8], start: Sum) -> Sum
    ensures { result ≡ sum_from s.now start }
{
    s.iter().fold(start, |sum, x| sum.step(u32::from(*x)))
}

// The length, and the bytes.
fn with_length(s: &[u8], start: Sum) -> Sum
    ensures { result ≡ length_and_bytes s.now start }
{
    through(s, start.step((s.len() % WORD) as u32))
}

// The sum of a block and its list, never 0.
#[tactic(auto, unfolding(crate::specs::Sums::sum_of))]
pub fn block_sum(block: &[u8], list: &[u8]) -> u64
    ensures { (result ≡ sum_of block.now list.now) × (0 < result) }
{
    let start = Sum {
        first: 0,
        second: 0,
    };
    let a = with_length(block, start);
    let b = with_length(list, a);
    b.join()
}

// A block by the sum of its bytes and its list, and that of its bytes alone. Both are 0 where there is no block.
#[derive(Clone, Copy)]
pub struct Block {
    pub sum: u64,
    pub bytes: u64,
}

impl Block {
    pub const NONE: Block = Block { sum: 0, bytes: 0 };

    pub fn of(block: &[u8], list: &[u8]) -> Block
        ensures { result ≡ block_of block.now list.now }
    {
        Block {
            sum: block_sum(block, list),
            bytes: block_sum(block, b""),
        }
    }
}
