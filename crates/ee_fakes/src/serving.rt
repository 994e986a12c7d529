//! What serves a script, and keeps one value.
use ee_interface::script::{Answer, Command, Serve};
use std::alloc::AllocError;

/// Serves with the value that was written last, at any address.
#[derive(Clone, Copy, Drop)]
pub struct LastValue(pub u32);

impl Serve for LastValue {
    ghost serves = { λ _ _ _ _. Unit {0} };

    fn serve(&mut self, command: Command) -> Result<Answer, AllocError> {
        let Command::Write { value, .. } = command else {
            return Ok(Answer::Value(self.0));
        };
        self.0 = value;
        Ok(Answer::Moved)
    }
}
