ghost use Rattle.std.specs.Prelude.{◌≡◌, ◌++◌, string_bytes, IfOk, OnOk};
ghost use Rattle.sd_ports_memory.specs.Failing.{after_call, next_fails, no_failures, numbers_of, told_calls};
ghost use Rattle.sd_ports_memory.specs.Failing.{with_failing_call, with_failing_port};

use circular_buffer::HeapCircularBuffer;
use sd_base::NoMemory;
use sd_ports::is_listed;
use std::alloc::Global;
use std::marker::Model;

/// How many calls of each kind are kept.
const MOST: usize = 16;

/// A call of ports of this name, by its number.
#[derive(Drop)]
pub struct PortCall {
    name: String,
    number: u32,
}

/// The calls of a depot in memory and of its ports that are to fail: the newest 16 of each.
#[derive(Drop)]
pub struct Failing {
    calls: HeapCircularBuffer<u32>,
    ports: HeapCircularBuffer<PortCall>,
    numbered: u64,
}

impl Model for Failing {
    ghost use Rattle.std.specs.Prelude.{◌≡◌};
    ghost use Rattle.sd_ports_memory.specs.Failing.{Failures, failures_code, told_calls};

    ghost Value = { Failures };

    ghost coded = { failures_code };

    ghost view = { λ f. record {
      calls = f.calls.items;
      ports = told_calls f.ports.items;
      numbered = f.numbered;
    } };

    ghost invariant = { λ f. (f.calls.capacity ≡ 16) × (f.ports.capacity ≡ 16) };
}

impl Failing {
    /// No call is to fail.
    pub fn new(alloc: Global) -> Result<Failing, NoMemory>
        ensures { IfOk result (λ f. f ≡ no_failures) }
    {
        let Ok(calls) = HeapCircularBuffer::with_capacity(alloc, MOST) else {
            return Err(NoMemory);
        };
        match HeapCircularBuffer::with_capacity(alloc, MOST) {
            Ok(ports) => Ok(Failing {
                calls,
                ports,
                numbered: 0,
            }),
            Err(_) => Err(NoMemory),
        }
    }

    /// The depot's call of this number is to fail.
    pub fn add_call(&mut self, number: u32)
        ensures { self.new ≡ with_failing_call self.old number }
    {
        self.calls.push_back(number);
    }

    /// On ports of this name the call of this number is to fail.
    #[tactic(auto, using(crate::proofs::Failings::told_newest))]
    pub fn add_port(&mut self, name: String, number: u32)
        ensures { self.new ≡ with_failing_port self.old (string_bytes name) number }
    {
        self.ports.push_back(PortCall { name, number });
    }

    /// Numbers one more call of the depot, and says whether it fails.
    #[tactic(auto, using(crate::proofs::Failings::listed_halves))]
    pub fn next(&mut self) -> bool
        ensures fails { result ≡ next_fails self.old }
        ensures after { self.new ≡ after_call self.old }
    {
        let number = self.numbered;
        self.numbered = number.saturating_add(1);
        let (front, back) = self.calls.as_slices();
        is_listed(front, number) || is_listed(back, number)
    }

    /// The numbers of the calls that fail on ports of this name.
    #[tactic(auto, using(crate::proofs::Failings::numbers_halves))]
    pub fn numbers_of(&self, alloc: Global, name: &str) -> Result<Vec<u32>, NoMemory>
        ensures { IfOk result (λ numbers. numbers.items ≡ numbers_of name.now self.now.ports) }
    {
        let (front, back) = self.ports.as_slices();
        let mut numbers = Vec::new(alloc);
        push_numbers(&mut numbers, front, name)?;
        push_numbers(&mut numbers, back, name)?;
        Ok(numbers)
    }
}

/// Puts the numbers of the calls of ports of this name after the others.
#[tactic(auto, using(crate::proofs::Failings::numbers_kept, crate::proofs::Failings::numbers_grown))]
fn push_numbers(numbers: &mut Vec<u32>, calls: &[PortCall], name: &str) -> Result<(), NoMemory>
    ensures { OnOk result (numbers.new.items ≡ numbers.old.items ++ numbers_of name.now (told_calls calls.now)) }
{
    for call in calls {
        if call.name.as_str() == name {
            let Ok(()) = numbers.push(call.number) else {
                return Err(NoMemory);
            };
        }
    }
    Ok(())
}
