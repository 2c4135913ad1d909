// A list whose room is taken at the start.
ghost use Rattle.std.specs.Prelude.{◌≡◌, ◌<◌, ◌≤◌, List, [], ◌∷◌, ◌++◌, length, vec_capacity, IfOk, true, false};

use std::alloc::{AllocError, Global};
use std::marker::Model;

/// A list of at most `N` items. Its room is taken when it is made, and nothing else here takes memory.
#[derive(Drop)]
pub struct BoundedVec<T, const N: usize> {
    vec: Vec<T>,
}

impl<T, const N: usize> Model for BoundedVec<T, N> {
    ghost Value = { List T };

    ghost view = { λ v. v.vec.items };

    ghost invariant = { λ v. N ≤ vec_capacity v.vec };
}

impl<T: Drop, const N: usize> BoundedVec<T, N> {
    /// An empty list with room for `N` items.
    pub fn new(alloc: Global) -> Result<BoundedVec<T, N>, AllocError>
        ensures { IfOk result (λ v. v ≡ []) }
    {
        let vec = Vec::with_capacity(alloc, N)?;
        Ok(BoundedVec { vec })
    }

    /// Puts an item behind the others.
    pub fn push(&mut self, item: T)
        requires { length self.old < N }
        ensures { self.new ≡ self.old ++ item ∷ [] }
    {
        if self.vec.push(item).is_err() {
            unreachable!();
        }
    }

    /// Puts an item behind the others where there is room, and answers whether there was.
    pub fn try_push(&mut self, item: T) -> bool
        ensures room { length self.old < N → (result ≡ true) × (self.new ≡ self.old ++ item ∷ []) }
        ensures full { N ≤ length self.old → (result ≡ false) × (self.new ≡ self.old) }
    {
        if self.vec.len() >= N {
            return false;
        }
        self.push(item);
        true
    }

    /// The items.
    pub fn as_slice(&self) -> &[T]
        ensures { result.now ≡ self.now }
    {
        self.vec.as_slice()
    }

    /// The items, as a list that may grow.
    pub fn into_vec(self) -> Vec<T>
        ensures { result.items ≡ self }
    {
        self.vec
    }
}
