//! The ids that were told of, for contracts. Nothing of it is there when a program runs.
ghost use Rattle.std.specs.Prelude.{◌≡◌, List, [], ◌∷◌, ◌++◌};
ghost use Rattle.std.specs.Borrow.{ftrue};

use std::marker::{Model, PhantomData};

/// What was told of so far, the earliest first. Only contracts read it: it takes no memory.
#[derive(Drop)]
pub struct Told<A> {
    of: PhantomData<A>,
    pub ghost items: { List A },
}

impl<A> Model for Told<A> {
    ghost also_owns = { λ _. ftrue };
}

// It owns nothing.
unsafe impl<A: Send> Send for Told<A> {}

impl<A> Told<A> {
    /// Returns an account of nothing.
    pub fn new() -> Told<A>
        ensures { result.items ≡ [] }
    {
        Told { of: PhantomData }
    }

    /// Returns the account with one more at its end.
    pub fn and(&self, next: &A) -> Told<A>
        ensures { result.items ≡ self.now.items ++ next.now ∷ [] }
    {
        Told { of: PhantomData }
    }
}
