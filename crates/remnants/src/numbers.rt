use std::marker::Model;

/// A set of numbers.
#[derive(Drop)]
pub struct Numbers {
    sorted: Vec<usize>,
}

impl Model for Numbers {
    ghost use Rattle.std.specs.Prelude.{List, ℕ};
    ghost use Rattle.std.specs.List.Sorted.{IsNonDecreasing};

    ghost Value = { List ℕ };

    ghost view = { λ numbers. numbers.sorted.items };

    ghost invariant = { λ numbers. IsNonDecreasing numbers.sorted.items };
}

impl Numbers {
    ghost use Rattle.std.specs.Prelude.{ℕ, ◌↔◌, Contains, IsTrue};

    /// The numbers of the list.
    pub fn of(numbers: Vec<usize>) -> Numbers
        ensures { (number : ℕ) → Contains result number ↔ Contains numbers.items number }
    {
        let mut sorted = numbers;
        sorted.sort_unstable();
        Numbers { sorted }
    }

    /// Whether the number is one of them.
    pub fn has(&self, number: usize) -> bool
        ensures { IsTrue result ↔ Contains self.now number }
    {
        self.sorted.binary_search(&number).is_ok()
    }
}
