//! Sets of PIDs.

ghost use Rattle.std.specs.Prelude.{◌≡◌, ◌≢◌, ℕ, ◌<◌, false, length};
ghost use Rattle.sd_receive.specs.PidSet.{has_bit, has_pid};

use crate::buffer::tracked::PIDS;

// The bits of a word.
const BITS: usize = 64;

const WORDS: usize = PIDS / BITS;

/// A set of PIDs, a bit for each.
#[derive(Drop)]
pub struct PidSet {
    words: [u64; WORDS],
}

impl PidSet {
    /// No PID.
    pub fn none() -> PidSet
        ensures { (pid : ℕ) → pid < PIDS → has_pid result pid ≡ false }
    {
        PidSet { words: [0; WORDS] }
    }

    /// Whether the PID is one of them.
    pub fn has(&self, pid: u16) -> bool
        requires { pid < PIDS }
        ensures { result ≡ has_pid self.now pid }
    {
        is_set(&self.words, usize::from(pid))
    }

    /// Puts the PID among them, or takes it out.
    pub fn set(&mut self, pid: u16, is_in: bool)
        requires { pid < PIDS }
        ensures own { has_pid self.new pid ≡ is_in }
        ensures others { (other : ℕ) → other < PIDS → other ≢ pid → has_pid self.new other ≡ has_pid self.old other }
    {
        set_bit(&mut self.words, usize::from(pid), is_in);
    }
}

// Whether the bit at an index is 1.
#[tactic(auto, using(std::proofs::lemmas::Nat::Bits::shr_and_one), unfolding(crate::specs::PidSet::has_bit))]
fn is_set(words: &[u64], index: usize) -> bool
    requires long { length words.now ≡ WORDS }
    requires index { index < PIDS }
    ensures { result ≡ has_bit words.now index }
{
    words[index / BITS] >> (index % BITS) & 1 == 1
}

// Makes the bit at an index 1 or 0.
fn set_bit(words: &mut [u64], index: usize, is_one: bool)
    requires long { length words.old ≡ WORDS }
    requires index { index < PIDS }
    ensures own { has_bit words.new index ≡ is_one }
    ensures others { (other : ℕ) → other ≢ index → has_bit words.new other ≡ has_bit words.old other }
{
    let bit = 1u64 << (index % BITS);
    if is_one {
        words[index / BITS] |= bit;
    } else {
        words[index / BITS] &= !bit;
    }
}
