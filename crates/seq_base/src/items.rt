//! A list over a `Vec`. Contracts see it as the list that it holds, so two values with the same items are equal in
//! contracts, whatever their capacity.
ghost use Rattle.std.specs.Prelude.{◌≡◌, List};

use std::marker::Model;

/// Items in an order.
pub struct Items<X: Drop> {
    items: Vec<X>,
}

impl<X: Drop> Drop for Items<X> {
    fn drop(self) {
        let Items { items: _ } = self;
    }
}

impl<X: Drop> Model for Items<X> {
    ghost Value = { List X };

    ghost view = { λ list. list.items.items };
}

impl<X: Drop> Items<X> {
    pub fn of(items: Vec<X>) -> Items<X>
        ensures { result ≡ items.items }
    {
        Items { items }
    }

    pub fn as_slice(&self) -> &[X]
        ensures { result.now ≡ self.now }
    {
        self.items.as_slice()
    }

    pub fn into_vec(self) -> Vec<X>
        ensures { result.items ≡ self }
    {
        let Items { items } = self;
        items
    }
}

impl<X: Drop + PartialEq> PartialEq for Items<X> {
    ghost use Rattle.std.specs.Cmp.Lexicographic.{pointwise, lists_per};

    ghost eq = { λ a b. pointwise X.eq a b };

    ghost laws = { lists_per X.laws };

    fn eq(&self, other: &Items<X>) -> bool {
        self.as_slice() == other.as_slice()
    }
}

impl<X: Drop + Eq> Eq for Items<X> {
    ghost use Rattle.std.specs.Cmp.Lexicographic.{lists_equiv};

    ghost laws = { lists_equiv X.Eq.laws };
}
