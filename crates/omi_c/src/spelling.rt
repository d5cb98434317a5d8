//! How replies are spelled in the answers that C gets.

ghost use Rattle.std.specs.Prelude.{◌≡◌};
ghost use Rattle.omi_c.specs.Answers.{found_of, number_of, state_of, frames_of};

use crate::answers::{Found, Number, OK, Object, State, TaskFrames};
use crate::causes::Cause;
use omi_asktask::Frames;
use omi_handle::Held;

impl Found {
    /// The object that was found.
    pub fn of(reply: Result<Held, Cause>) -> Found
        ensures { result ≡ found_of reply }
    {
        match reply {
            Ok(held) => Found {
                code: OK,
                place: 0,
                object: Object {
                    addr: held.addr,
                    life: held.life,
                },
            },
            Err(cause) => {
                let refusal = cause.refusal();
                Found {
                    code: refusal.code,
                    place: refusal.place,
                    object: Object { addr: 0, life: 0 },
                }
            }
        }
    }
}

impl Number {
    /// The number that was read, or the first of several.
    pub fn of(reply: Result<u64, Cause>) -> Number
        ensures { result ≡ number_of reply }
    {
        match reply {
            Ok(number) => Number {
                code: OK,
                place: 0,
                number,
            },
            Err(cause) => {
                let refusal = cause.refusal();
                Number {
                    code: refusal.code,
                    place: refusal.place,
                    number: cause.first(),
                }
            }
        }
    }
}

impl State {
    /// The state that was read.
    pub fn of(reply: Result<(u32, u64), Cause>) -> State
        ensures { result ≡ state_of reply }
    {
        match reply {
            Ok((state, wait)) => State {
                code: OK,
                place: 0,
                state,
                wait,
            },
            Err(cause) => {
                let refusal = cause.refusal();
                State {
                    code: refusal.code,
                    place: refusal.place,
                    state: 0,
                    wait: 0,
                }
            }
        }
    }
}

impl TaskFrames {
    /// The frames that were read.
    pub fn of(reply: Result<Frames, Cause>) -> TaskFrames
        ensures { result ≡ frames_of reply }
    {
        match reply {
            Ok(f) => TaskFrames {
                code: OK,
                place: 0,
                exit: f.exit,
                enter: f.enter,
                exit_flag: f.exit_flag,
                enter_flag: f.enter_flag,
            },
            Err(cause) => {
                let refusal = cause.refusal();
                TaskFrames {
                    code: refusal.code,
                    place: refusal.place,
                    exit: 0,
                    enter: 0,
                    exit_flag: 0,
                    enter_flag: 0,
                }
            }
        }
    }
}
