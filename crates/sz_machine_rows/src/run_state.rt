//! The state of a run, which lines change.
ghost use Rattle.std.specs.Prelude.{◌≡◌, ◌≤◌, ◌+◌, ◌-◌, ◌^◌, true, false, IfOk};
ghost use Rattle.sz_machine_rows.specs.Acting.{Paid, Does, results, if_paid, if_passed};

use crate::emitted::Emitted;
use sz_machine_cells::{Calls, Cell, Operands};
use sz_value::NoMemory;

/// The state of a run: its operands, its open calls, the emits so far, and the ticks that are left.
pub struct RunState<'a> {
    pub operands: Operands<'a>,
    pub calls: Calls<'a>,
    pub emits: Emitted,
    pub left: u64,
}

impl<'a> Drop for RunState<'a> {
    fn drop(self) {
        let RunState {
            operands: _,
            calls: _,
            emits: _,
            left: _,
        } = self;
    }
}

/// Where a run goes: on after the line, to a place, to its end, or to a fault of this kind.
#[derive(Clone, Copy)]
pub enum Onward {
    On,
    To(usize),
    End,
    Fault(u8),
}

/// An undefined value was used.
pub const UNDEFINED_USED: u8 = 1;
/// A store led outside of the value.
pub const STORE_OUTSIDE: u8 = 2;
/// A call was made while as many as possible were open.
pub const CALLS_TOO_DEEP: u8 = 3;
/// More ticks were needed than were left.
pub const BUDGET_PASSED: u8 = 4;

impl<'a> RunState<'a> {
    /// Takes so many ticks, if they are left.
    #[inline(always)]
    pub fn pay(&mut self, ticks: u64) -> bool
        ensures value { Paid ticks self.old result self.new }
        ensures room { result ≡ true → self.new.left + ticks ≤ 2 ^ 64 - 1 }
        ensures left { result ≡ false → self.new ≡ self.old }
    {
        if ticks > self.left {
            return false;
        }
        self.left -= ticks;
        true
    }

    /// Takes the weight of a result, and leaves the result on the operands, if so many ticks are left.
    #[inline(always)]
    pub fn finish(&mut self, made: Cell<'a>, weight: u64) -> Result<bool, NoMemory>
        ensures value { IfOk result (λ paid. Does (results weight made.entry) self.old (if_paid paid) self.new) }
    {
        if !self.pay(weight) {
            return Ok(false);
        }
        self.operands.push(made)?;
        Ok(true)
    }
}

/// Where a run goes after a line: on, where its ticks were left, and else to the fault. A function that isn't put in line answers the truth value
/// alone, so its caller needs no memory for the answer.
#[inline(always)]
pub fn if_paid(paid: bool) -> Onward
    ensures value { result ≡ if_paid paid }
{
    if paid {
        Onward::On
    } else {
        Onward::Fault(BUDGET_PASSED)
    }
}

/// Where a run goes after an undefined value was used: to `next` where that was passed over, and else to the fault.
#[inline(always)]
pub fn if_passed(passed: bool, next: Onward) -> Onward
    ensures value { result ≡ if_passed passed next }
{
    if passed {
        next
    } else {
        Onward::Fault(UNDEFINED_USED)
    }
}

/// The answer of a row that stands out of line, taken apart and made anew: so the loop's own answer never has a place in memory.
#[inline(always)]
pub fn rebuilt(answer: Result<Onward, NoMemory>) -> Result<Onward, NoMemory>
    ensures value { result ≡ answer }
{
    match answer {
        Ok(Onward::On) => Ok(Onward::On),
        Ok(Onward::To(to)) => Ok(Onward::To(to)),
        Ok(Onward::End) => Ok(Onward::End),
        Ok(Onward::Fault(kind)) => Ok(Onward::Fault(kind)),
        Err(error) => Err(error),
    }
}
