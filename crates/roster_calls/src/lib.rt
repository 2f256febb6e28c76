// The roster's calls, exported for the tests and the bench alone, which call them from outside. An answer's number is returned, and the
// value that comes with it is put in a place of its own, since C has none of Rattle's enums. No premise is put on the caller.
#![tactic(auto)]

ghost use Rattle.roster_calls.specs.Numbers.{ReadNumbers, WriteNumbers, LookUpNumbers};

use lines::MOST;
use roster::{FaultyLine, WriteError};
use serials::Serials;

#[unsafe(no_mangle)]
pub extern "C" fn roster_read(text: &[u8], ends: &mut [usize; MOST], value: &mut usize) -> u8
    ensures { ReadNumbers text.now ends.old result value.new ends.new }
{
    match roster::read(text, ends) {
        Ok(slots) => {
            *value = slots;
            0
        }
        Err(FaultyLine { fault, line }) => {
            *value = line;
            u8::from(fault)
        }
    }
}

#[unsafe(no_mangle)]
pub extern "C" fn roster_write(
    chars: &[u8],
    ends: &[usize],
    out: &mut [u8],
    value: &mut usize,
) -> u8
    ensures { WriteNumbers chars.now ends.now out.old result value.new out.new }
{
    match roster::write(&Serials { chars, ends }, out) {
        Ok(length) => {
            *value = length;
            0
        }
        Err(WriteError::Faulty(FaultyLine { fault, line })) => {
            *value = line;
            u8::from(fault)
        }
        Err(WriteError::NoRoom) => {
            *value = 0;
            35
        }
    }
}

// Where no slot has the serial, the place of the slot stays.
#[unsafe(no_mangle)]
pub extern "C" fn roster_look_up(
    chars: &[u8],
    ends: &[usize],
    asked: &[u8],
    slot: &mut usize,
) -> bool
    ensures { LookUpNumbers chars.now ends.now asked.now slot.old result slot.new }
{
    match (Serials { chars, ends }).find(asked) {
        Some(k) => {
            *slot = k;
            true
        }
        None => false,
    }
}
