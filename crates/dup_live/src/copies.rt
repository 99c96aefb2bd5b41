// How the two copies take what is published.
use crate::shown::{Shown, State};
use left_right::Absorb;
use std::alloc::AllocError;

impl Absorb<Shown> for Shown {
    type State = State;

    ghost state = { λ s. s };

    ghost applied = { λ before next. next };

    fn absorb_first(&mut self, operation: &Shown, _other: &Shown) -> Result<(), AllocError> {
        match operation.again() {
            Ok(next) => {
                *self = next;
                Ok(())
            }
            Err(_) => Err(AllocError),
        }
    }
}
