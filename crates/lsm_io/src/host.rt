//! The clock of the system, and names of sessions made from it.
ghost use Rattle.std.specs.Prelude.{◌≡◌, ◌<◌, ◌%◌, ◌^◌, ℕ, List, Option, None, length};
ghost use Rattle.std.specs.Duration.{as_nanos};
ghost use Rattle.lsm_io.specs.Causes.{HasCause};
ghost use Rattle.lsm_io.specs.Session.{IsSession, character_of, digits, session_name};

use crate::counts::{fault, raise};
use crate::{Clock, Failed, Sessions};
use std::marker::Model;
use std::rt;
use std::time::Duration;

/// The system's clock. Contracts see its count of faults.
#[derive(Drop)]
pub struct HostClock<R> {
    rt: R,
    faults: u64,
}

impl<R> Model for HostClock<R> {
    ghost use Rattle.std.specs.Prelude.{ℕ};

    ghost Value = { ℕ };

    ghost view = { λ s. s.faults };
}

impl<R: rt::Clock> HostClock<R> {
    /// The clock of this runtime.
    pub fn new(rt: R) -> Self
        ensures { result ≡ 0 }
    {
        HostClock { rt, faults: 0 }
    }
}

impl<R: rt::Clock> Clock for HostClock<R> {
    ghost left = { λ s. None };

    ghost faults = { λ s. s };

    fn now(&mut self) -> Result<u64, Failed> {
        match self.rt.since_1970() {
            Ok(time) => Ok(time.as_secs()),
            Err(_) => Err(fault(&mut self.faults)),
        }
    }
}

// The character for a digit to base 36: the digits and then the letters.
fn character(digit: u8) -> u8
    requires { digit < 36 }
    ensures { result ≡ character_of digit }
{
    if digit < 10 {
        b'0' + digit
    } else {
        b'A' + (digit - 10)
    }
}

// Writes a number to base 36 in as many digits as there is room for, the lowest first.
#[tactic(auto, unfolding(crate::specs::Session::digits))]
fn write_digits(number: u64, into: &mut [u8])
    ensures { into.new ≡ digits (length into.old) number }
{
    let mut rest = number;
    for place in into.iter_mut() {
        *place = character((rest % 36) as u8);
        rest /= 36;
    }
}

// The name for a moment, in nanoseconds, and a number.
#[tactic(auto, using(crate::proofs::Digits::digits_are_spelled))]
fn name_of(moment: u64, number: u64) -> [u8; 20]
    ensures exact { result ≡ session_name moment number }
    ensures spelled { IsSession result }
{
    let mut name = [0; 20];
    let (front, back) = name.split_at_mut(13);
    write_digits(moment, front);
    write_digits(number, back);
    name
}

// Nanoseconds since the start of 1970, which start again at 0 after some 584 years.
fn nanoseconds(time: &Duration) -> u64
    ensures { result ≡ as_nanos time.now % 2 ^ 64 }
{
    let seconds = time.as_secs().wrapping_mul(1_000_000_000);
    seconds.wrapping_add(u64::from(time.subsec_nanos()))
}

/// Names made of the system's clock and a count of the names given. That the names of two runs differ is a premise: no
/// two may read the clock at the same nanosecond. Names of one moment and fewer than 36^7 numbers differ. Contracts see
/// its count of faults.
#[derive(Drop)]
pub struct HostSessions<R> {
    rt: R,
    given: u64,
    faults: u64,
}

impl<R> Model for HostSessions<R> {
    ghost use Rattle.std.specs.Prelude.{ℕ};

    ghost Value = { ℕ };

    ghost view = { λ s. s.faults };
}

impl<R: rt::Clock> HostSessions<R> {
    /// Names from the clock of this runtime.
    pub fn new(rt: R) -> Self
        ensures { result ≡ 0 }
    {
        HostSessions {
            rt,
            given: 0,
            faults: 0,
        }
    }
}

impl<R: rt::Clock> Sessions for HostSessions<R> {
    ghost left = { λ s. None };

    ghost faults = { λ s. s };

    fn next(&mut self) -> Result<[u8; 20], Failed> {
        match self.rt.since_1970() {
            Ok(time) => {
                raise(&mut self.given);
                Ok(name_of(nanoseconds(&time), self.given))
            }
            Err(_) => Err(fault(&mut self.faults)),
        }
    }
}
