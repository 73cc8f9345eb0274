// For the crates above: callers keep within the capacity. No call allocates.
ghost use Rattle.std.specs.Prelude.{⊤, ◌≡◌, ◌<◌, ◌≤◌, [], ◌∷◌, ◌++◌, length, take, reverse};

use std::alloc::AllocError;

// At most N elements, which stand in the first `count` of the places.
#[derive(Copy)]
pub struct Few<T, const N: usize> {
    places: [T; N],
    count: usize,
    ghost few: { count ≤ N },
}

impl<T: Copy, const N: usize> Clone for Few<T, N> {
    ghost is_clone = { λ few copy. copy ≡ few };

    ghost is_infallible = { λ _. ⊤ };

    fn clone(&self) -> Result<Self, AllocError> {
        Ok(*self)
    }
}

impl<T: Copy, const N: usize> Few<T, N> {
    ghost use Rattle.lists.specs.Lists.{listed};

    // A list without elements, whose places hold a blank.
    pub fn empty(blank: T) -> Self
        ensures { listed result ≡ [] }
    {
        Few::front([blank; N], 0)
    }

    // The first elements of an array, so many.
    pub fn front(places: [T; N], count: usize) -> Self
        requires { count ≤ N }
        ensures { listed result ≡ take count places }
    {
        Few { places, count }
    }

    // The elements of a slice.
    pub fn of(blank: T, elements: &[T]) -> Self
        requires { length elements.now ≤ N }
        ensures { listed result ≡ elements.now }
    {
        let mut places = [blank; N];
        places[..elements.len()].copy_from_slice(elements);
        Few::front(places, elements.len())
    }

    // The elements.
    pub fn as_slice(&self) -> &[T]
        ensures value { result.now ≡ listed self.now }
        ensures fits { length result.now ≤ N }
    {
        &self.places[..self.count]
    }

    // One element more, as the last.
    pub fn push(&mut self, element: T)
        requires { length (listed self.old) < N }
        ensures { listed self.new ≡ listed self.old ++ element ∷ [] }
    {
        self.places[self.count] = element;
        self.count += 1;
    }

    // One element more, as the first; the last of N goes.
    pub fn push_front(&mut self, element: T)
        requires { 0 < N }
        ensures { listed self.new ≡ take N (element ∷ listed self.old) }
    {
        self.places.rotate_right(1);
        self.places[0] = element;
        if self.count < N {
            self.count += 1;
        }
    }

    // The elements the other way round.
    pub fn reverse(&mut self)
        ensures { listed self.new ≡ reverse (listed self.old) }
    {
        self.places[..self.count].reverse();
    }
}

#[cfg(test)]
mod tests {
    use super::*;

    // What is pushed to the front stands first, and the last of three goes.
    #[test]
    fn the_last_goes(rt: HostRuntime) {
        let mut few: Few<u32, 3> = Few::empty(0);
        few.push(2);
        few.push(3);
        few.push_front(1);
        assert_eq!(rt; few.as_slice(), [1, 2, 3].as_slice());
        few.push_front(0);
        assert_eq!(rt; few.as_slice(), [0, 1, 2].as_slice());
        few.reverse();
        assert_eq!(rt; few.as_slice(), [2, 1, 0].as_slice());
    }

    // A copy stays as it was.
    #[test]
    fn a_copy_stays(rt: HostRuntime) {
        let mut few: Few<u32, 3> = Few::of(0, &[7]);
        let copy = few;
        few.push(8);
        assert_eq!(rt; copy.as_slice(), [7].as_slice());
        assert_eq!(rt; few.as_slice(), [7, 8].as_slice());
    }
}
