// Short lists.

ghost use Rattle.std.specs.Prelude.{◌≡◌, [], ◌∷◌, ◌++◌, ◌<◌, List, length, slice_get};
ghost use Rattle.std.specs.Prelude.{slice_index_or, OnOk, OnErr, OnSome};
ghost use Rattle.std.specs.Cmp.Lexicographic.{pointwise, lists_per, lists_equiv};
ghost use Rattle.std.specs.Option.{option_copied};

use smallvec::SmallVec;
use std::alloc::{AllocError, Global};
use std::default::MadeWith;
use std::marker::Model;
use std::ops::Index;

/// A list of which N elements lie in the value itself, and which has memory of its own where they
/// are more. Contracts see it as the list of its elements.
#[derive(Debug, Drop)]
pub struct Few<T, const N: usize> {
    items: SmallVec<T, N>,
}

impl<T, const N: usize> Model for Few<T, N> {
    ghost use Rattle.std.specs.Prelude.{List};
    ghost use Rattle.std.specs.Coded.{coded_list};

    ghost Value = { List T };

    ghost coded = { coded_list T.code };

    ghost view = { λ few. few.items.items };
}

impl<T, const N: usize> Few<T, N> {
    #[inline]
    pub fn as_slice(&self) -> &[T]
        ensures { result.now ≡ self.now }
    {
        self.items.as_slice()
    }

    #[inline]
    pub fn len(&self) -> usize
        ensures { result ≡ length self.now }
    {
        self.items.as_slice().len()
    }

    /// The element at a place, or None past the end.
    pub fn get(&self, at: usize) -> Option<&T>
        ensures value { option_copied result ≡ slice_get self.now at }
        ensures within { OnSome result (at < length self.now) }
    {
        self.items.as_slice().get(at)
    }
}

impl<T: MadeWith<Global> + Drop, const N: usize> Few<T, N> {
    /// The empty list, which takes no memory.
    #[inline]
    pub fn new(alloc: Global) -> Few<T, N>
        ensures { result ≡ [] }
    {
        Few {
            items: SmallVec::new(alloc),
        }
    }

    /// Adds an element at the end.
    ///
    /// # Errors
    ///
    /// Where there is no memory for it; the list then stays as it was.
    #[inline]
    pub fn push(&mut self, item: T) -> Result<(), AllocError>
        ensures ok { OnOk result (self.new ≡ self.old ++ item ∷ []) }
        ensures err { OnErr result (self.new ≡ self.old) }
    {
        self.items.push(item)?;
        Ok(())
    }
}

impl<T, const N: usize> Index<usize> for Few<T, N> {
    type Output = T;

    ghost use Rattle.std.specs.Prelude.{◌≡◌, ◌<◌, length, slice_index_or};

    ghost can_index = { λ few at. at < length few };

    #[inline]
    fn index(&self, at: usize) -> &T
        requires { at < length self.now }
        ensures { result.now ≡ slice_index_or self.now at result.now }
    {
        &self.items.as_slice()[at]
    }
}

impl<T: PartialEq, const N: usize> PartialEq for Few<T, N> {
    ghost eq = { pointwise T.eq };

    ghost laws = { lists_per T.laws };

    fn eq(&self, other: &Few<T, N>) -> bool {
        self.items == other.items
    }
}

impl<T: Eq, const N: usize> Eq for Few<T, N> {
    ghost laws = { lists_equiv T.Eq.laws };
}
