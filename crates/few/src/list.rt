// The list itself.
ghost use Rattle.std.specs.Prelude.{◌≡◌, ◌+◌, ◌<◌, ◌≤◌, length, [], ◌∷◌, ◌++◌, MatchResult, ⊤};
ghost use Rattle.std.specs.List.{slice_get};

use std::alloc::AllocError;

// An array with a count, for memory without a heap: the first `count` of its places are taken. The toolchain's `ArrayVec` is
// not `Copy`, as a table is, and its `clone` may fail.
#[derive(Copy)]
pub struct Few<T, const N: usize> {
    places: [T; N],
    count: usize,
    ghost size: { length places ≡ N },
    ghost within: { count ≤ N },
}

// By hand, since `Clone` cannot be derived over ghost fields.
impl<T: Copy, const N: usize> Clone for Few<T, N> {
    ghost is_clone = { λ few copy. copy ≡ few };

    ghost is_infallible = { λ _. ⊤ };

    fn clone(&self) -> Result<Few<T, N>, AllocError> {
        Ok(*self)
    }
}

impl<T: Copy, const N: usize> Few<T, N> {
    ghost use Rattle.few.specs.Elements.{elements};

    // An empty list; `blank` stands in the places that are not taken.
    pub fn new(blank: T) -> Few<T, N>
        ensures empty { elements result ≡ [] }
    {
        Few {
            places: [blank; N],
            count: 0,
        }
    }

    pub fn len(&self) -> usize
        ensures value { result ≡ length (elements self.now) }
        ensures few { result ≤ N }
    {
        self.as_slice().len()
    }

    pub fn as_slice(&self) -> &[T]
        ensures value { result.now ≡ elements self.now }
        ensures few { length result.now ≤ N }
    {
        &self.places[..self.count]
    }

    // Element number `i`, if there is one.
    pub fn get(&self, i: usize) -> Option<T>
        ensures value { result ≡ slice_get (elements self.now) i }
    {
        self.as_slice().get(i).copied()
    }

    // Adds an element behind the others; it comes back, and nothing is done, if every place is taken.
    pub fn push(&mut self, element: T) -> Result<(), T>
        ensures pushes { MatchResult result
            (λ _. (length (elements self.old) < N) × (elements self.new ≡ elements self.old ++ element ∷ []))
            (λ back. (back ≡ element) × (length (elements self.old) ≡ N) × (self.new ≡ self.old)) }
    {
        if self.count == N {
            return Err(element);
        }
        self.places[self.count] = element;
        self.count += 1;
        Ok(())
    }
}
