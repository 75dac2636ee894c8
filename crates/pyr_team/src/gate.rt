// The gate at which workers wait.
use std::sync::{Condvar, Mutex, Wait};

// What the gate says.
#[derive(Clone, Copy, PartialEq, Eq)]
enum Sign {
    Wait,
    Go,
    Home,
}

/// A sign that workers wait for. It takes no memory.
#[derive(Drop)]
pub struct Gate {
    sign: Mutex<Sign>,
    changed: Condvar,
}

impl Gate {
    /// A gate at which all wait.
    pub fn new() -> Gate {
        Gate {
            sign: Mutex::new(Sign::Wait),
            changed: Condvar::new(),
        }
    }

    /// Waits until it is decided, and tells whether to go on.
    pub fn passes<R: Wait>(&self, rt: &R) -> bool {
        let sign = self
            .changed
            .wait_while(rt, self.sign.lock(rt), |sign| *sign == Sign::Wait);
        *sign == Sign::Go
    }

    /// Lets the workers run where all of them stand here, and sends them home otherwise.
    pub fn decide<R: Wait>(&self, rt: &R, all_stand_here: bool) {
        *self.sign.lock(rt) = if all_stand_here { Sign::Go } else { Sign::Home };
        self.changed.notify_all();
    }
}
