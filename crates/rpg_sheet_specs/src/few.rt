//! Lists of at most two items.

ghost use Rattle.std.specs.Prelude.{◌≡◌, ◌≤◌, ◌<◌, [], ◌∷◌, ◌++◌, length};
ghost use Rattle.std.specs.Option.{option_to_list};

use std::marker::Model;

/// At most two items of a card: constants, or definitions of names.
#[derive(Drop)]
pub struct Few<T> {
    /// Items after the first `length` are meaningless.
    items: [T; 2],
    length: usize,
}

impl<T> Model for Few<T> {
    ghost use Rattle.std.specs.Prelude.{List, take, ◌≤◌};

    ghost Value = { List T };

    ghost view = { λ f. take f.length f.items };

    ghost invariant = { λ f. f.length ≤ 2 };
}

impl<T: Default + Drop> Few<T> {
    pub fn new() -> Self
        ensures { result ≡ [] }
    {
        Few {
            items: [T::default(), T::default()],
            length: 0,
        }
    }

    /// Returns a list of the item, if there is one.
    pub fn of(item: Option<T>) -> Self
        ensures { result ≡ option_to_list item }
    {
        let mut few = Few::new();
        if let Some(item) = item {
            few.push(item);
        }
        few
    }

    pub fn push(&mut self, item: T)
        requires { length self.old < 2 }
        ensures { self.new ≡ self.old ++ item ∷ [] }
    {
        self.items[self.length] = item;
        self.length += 1;
    }

    pub fn len(&self) -> usize
        ensures value { result ≡ length self.now }
        ensures fits { result ≤ 2 }
    {
        self.as_slice().len()
    }

    pub fn as_slice(&self) -> &[T]
        ensures value { result.now ≡ self.now }
        ensures fits { length result.now ≤ 2 }
    {
        &self.items[..self.length]
    }
}
