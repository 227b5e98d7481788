//! Vectors under numbers of one kind.

ghost use Rattle.std.specs.Prelude.{◌≡◌, ◌↔◌, ◌-◌, ◌<◌, ◌^◌, [], ◌∷◌, ◌++◌, length, slice_get, vec_len, IfOk, OnErr, IsErrOf};
ghost use Rattle.std.specs.Option.{option_copied};

use crate::Id;
use std::alloc::Global;
use std::marker::{Model, PhantomData};
use thiserror::Error;

/// Why an element isn't added.
#[derive(Clone, Copy, Debug, PartialEq, Eq, Error)]
pub enum PushError {
    /// There are as many elements as numbers, 4,294,967,295.
    #[error("too many elements")]
    Full,
    #[error("out of memory")]
    Memory,
}

/// A vector whose places are numbers of one kind. Contracts see it as the list of its elements.
#[derive(Debug, Drop)]
pub struct TypedVec<I: Id, T> {
    items: Vec<T>,
    kind: PhantomData<I>,
}

impl<I: Id, T> Model for TypedVec<I, T> {
    ghost use Rattle.std.specs.Prelude.{List, ◌<◌, ◌^◌, length};
    ghost use Rattle.std.specs.Coded.{coded_list};

    ghost Value = { List T };

    ghost coded = { coded_list T.code };

    ghost view = { λ v. v.items.items };

    ghost invariant = { λ v. length v.items.items < 2 ^ 32 };
}

impl<I: Id, T> TypedVec<I, T> {
    ghost use Rattle.std.specs.Prelude.{slice_set};
    ghost use Rattle.std.specs.Option.{option_copied_mut};
    ghost use Rattle.std.specs.Borrow.{LendsIf, sem};
    ghost use Rattle.rr_ids.specs.contracts.typed.TypedVec.{the_row};

    /// An empty vector, which takes no memory yet.
    pub fn new(alloc: Global) -> TypedVec<I, T>
        ensures { result ≡ [] }
    {
        TypedVec {
            items: Vec::new(alloc),
            kind: PhantomData,
        }
    }

    /// The vector of these elements, numbered in order; takes no memory.
    pub fn from_vec(items: Vec<T>) -> TypedVec<I, T>
        requires { vec_len items < 2 ^ 32 }
        ensures { result ≡ items.items }
    {
        TypedVec {
            items,
            kind: PhantomData,
        }
    }

    /// Gives the elements back as a vector; takes no memory.
    pub fn into_vec(self) -> Vec<T>
        ensures { result.items ≡ self }
    {
        let TypedVec { items, kind: _ } = self;
        items
    }

    /// How many elements there are.
    pub fn len(&self) -> u32
        ensures { result ≡ length self.now }
    {
        self.items.len() as u32
    }

    /// The element of this number; `None` exactly where the number isn't below the length.
    pub fn get(&self, i: I) -> Option<&T>
        ensures { option_copied result ≡ slice_get self.now (I.number i) }
    {
        self.items.get(i.to_u32() as usize)
    }

    /// The element of this number, to be written; `None` exactly where the number isn't below the length. Only
    /// that element changes.
    pub fn get_mut(&mut self, i: I) -> Option<&mut T>
        ensures* writes_back { sem 𝓛 (LendsIf (the_row I.row T.row I.Id) T.row self.entry result
            (slice_set self.old (I.number i)) self.old) }
        ensures value { option_copied_mut result ≡ slice_get self.old (I.number i) }
    {
        self.items.get_mut(i.to_u32() as usize)
    }

    /// The elements in order.
    pub fn as_slice(&self) -> &[T]
        ensures { result.now ≡ self.now }
    {
        self.items.as_slice()
    }
}

impl<I: Id, T: Drop> TypedVec<I, T> {
    /// Adds an element at the end, and gives its number. `Full` exactly where the length is 4,294,967,295. An
    /// `Err` changes nothing.
    pub fn push(&mut self, item: T) -> Result<I, PushError>
        ensures ok { IfOk result
            (λ i. (self.new ≡ self.old ++ item ∷ []) × (i ≡ I.id_of (length self.old))) }
        ensures full { IsErrOf result PushError.Full ↔ (length self.old ≡ 2 ^ 32 - 1) }
        ensures err { OnErr result (self.new ≡ self.old) }
    {
        let n = self.items.len();
        if n == 4_294_967_295 {
            return Err(PushError::Full);
        }
        match self.items.push(item) {
            Ok(()) => Ok(I::from_u32(n as u32)),
            Err(_) => Err(PushError::Memory),
        }
    }
}
