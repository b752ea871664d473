//! Bytes that nobody can foretell.

ghost use Rattle.std.specs.Prelude.{◌≡◌, ℕ, List, IfSome};

/// What draws bytes that nobody can foretell.
pub trait Draw {
    /// These bytes may be drawn.
    ghost draws: { Self → List ℕ → Type 0 };

    /// 32 bytes, drawn anew. No contract can say that nobody foretells them, or that they do not come again.
    /// `None`: none are drawn.
    fn draw(&self) -> Option<[u8; 32]>
        ensures { IfSome result (λ drawn. draws self.now drawn) };
}

/// Draws zeros, as a system in memory does: everybody foretells them, and they come again each time.
#[derive(Clone, Copy)]
pub struct ZeroDraw;

impl Draw for ZeroDraw {
    ghost use Rattle.std.specs.Prelude.{replicate};

    ghost draws = { λ draw bytes. bytes ≡ replicate 32 0 };

    fn draw(&self) -> Option<[u8; 32]> {
        Some([0; 32])
    }
}
