// Answers on standard output which slot of the roster on standard input has the serial that is the one argument.
#![tactic(auto)]

use roster_answer::ANSWER;
use roster_buffers::{ASKED, Filled, HELD};
use std::env::{Env, FillError};
use std::io::{Print, Read};

fn main(rt: HostRuntime) {
    let Some(asked) = argument(&rt) else {
        let _ = eprintln!(rt; "usage: roster_find SERIAL <ROSTER");
        return;
    };
    let mut held = Filled {
        bytes: [0u8; HELD],
        count: 0,
    };
    if !read_roster(&mut rt.stdin(), &mut held) {
        let _ = eprintln!(rt; "roster_find: the roster could not be read");
        return;
    }
    let mut output = [0u8; ANSWER];
    let size = roster_buffers::answer_held(&held, &asked, &mut output);
    if rt.write_all(&output[..size]).is_err() {
        // The exit status is 0 all the same, so that a line says it.
        let _ = eprintln!(rt; "roster_find: the answer could not be written whole");
    }
}

// The first bytes of the one argument: all that there is room for, where it has more. With no argument, or with several, there are none.
fn argument<E: Env>(rt: &E) -> Option<Filled<ASKED>> {
    let mut bytes = [0u8; ASKED];
    let count = match rt.arg(1, &mut bytes) {
        Ok(length) => length,
        Err(FillError::TooLong) => ASKED,
        Err(FillError::NotPresent) => return None,
    };
    let mut next = [0u8; 1];
    match rt.arg(2, &mut next) {
        Err(FillError::NotPresent) => Some(Filled { bytes, count }),
        _ => None,
    }
}

// Takes in the input to its end, or until no byte that comes later could be taken in, and answers whether it could be read. A proved loop
// has to end, and nothing says that an input does, so it takes a number of turns that no run uses up.
fn read_roster<R: Read>(input: &mut R, held: &mut Filled<HELD>) -> bool {
    for _ in 0..u64::MAX {
        let mut chunk = [0u8; 4096];
        let Ok(got) = input.read(&mut chunk) else {
            return false;
        };
        if got == 0 {
            return true;
        }
        roster_buffers::take_in(held, &chunk[..got]);
        if held.count == HELD {
            return true;
        }
    }
    false
}
