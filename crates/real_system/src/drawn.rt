//! Bytes that the system draws.

use std::random::RandomSource;
use systems::Draw;

/// Draws the random bytes of the system, which it gives to be kept secret (`getentropy`).
#[derive(Drop)]
pub struct SystemDraw<'r, R> {
    rt: &'r R,
}

impl<'r, R: RandomSource> SystemDraw<'r, R> {
    /// What draws from now on.
    pub(crate) fn begin(rt: &'r R) -> SystemDraw<'r, R> {
        SystemDraw { rt }
    }
}

impl<R: RandomSource> Draw for SystemDraw<'_, R> {
    ghost draws = { λ draw bytes. Unit {0} };

    fn draw(&self) -> Option<[u8; 32]> {
        let mut drawn = [0; 32];
        match self.rt.fill_bytes(&mut drawn) {
            Ok(()) => Some(drawn),
            Err(_) => None,
        }
    }
}
