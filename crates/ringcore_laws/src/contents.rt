//! What a ring contains: items, and the buffers they carry.

ghost use Rattle.std.specs.Prelude.{◌≡◌, ℕ, List};

use std::marker::Model;

/// Buffer numbers, in order. Contracts see their list, and not its capacity.
#[derive(Drop, Debug)]
pub struct Numbers {
    numbers: Vec<u64>,
}

impl Model for Numbers {
    ghost Value = { List ℕ };

    ghost view = { λ n. n.numbers.items };
}

impl Numbers {
    /// The numbers of this list. Takes no memory.
    pub fn of(numbers: Vec<u64>) -> Numbers
        ensures { result ≡ numbers.items }
    {
        Numbers { numbers }
    }

    /// The numbers, in order.
    pub fn as_slice(&self) -> &[u64]
        ensures { result.now ≡ self.now }
    {
        &self.numbers
    }
}

/// What is at one position of a ring.
#[derive(Drop, Debug)]
pub enum Item {
    /// A number, without buffers.
    Word(u64),
    /// Buffers, 1 to 64 of them.
    Buffers(Numbers),
}

/// Items, in order. Contracts see their list, and not its capacity.
#[derive(Drop, Debug)]
pub struct Items {
    items: Vec<Item>,
}

impl Model for Items {
    ghost use Rattle.std.specs.Prelude.{List};
    ghost use Rattle.ringcore_laws.specs.declared.contents.Item.{Item};

    ghost Value = { List Item };

    ghost view = { λ n. n.items.items };
}

impl Items {
    /// The items of this list. Takes no memory.
    pub fn of(items: Vec<Item>) -> Items
        ensures { result ≡ items.items }
    {
        Items { items }
    }

    /// The items, in order.
    pub fn as_slice(&self) -> &[Item]
        ensures { result.now ≡ self.now }
    {
        &self.items
    }

    /// The list of the items.
    pub fn into_vec(self) -> Vec<Item>
        ensures { result.items ≡ self }
    {
        let Items { items } = self;
        items
    }
}
