use super::numbers::Numbers;
use super::parts::Mark;
use lists::NoMemory;
use std::alloc::Global;
use std::marker::Model;

/// Marks in the order of their terminals, and those of one terminal in the order of their leaders, each once.
#[derive(Drop)]
pub struct Marks {
    sorted: Vec<Mark>,
}

impl Model for Marks {
    ghost use Rattle.std.specs.Prelude.{List};
    ghost use Rattle.std.specs.List.{AllPairs};
    ghost use Rattle.remnants.specs.declared.parts.Mark.{Mark as AnyMark};
    ghost use Rattle.remnants.specs.inside.Marking.{IsBefore};

    ghost Value = { List AnyMark };

    ghost view = { λ marks. marks.sorted.items };

    ghost invariant = { λ marks. AllPairs IsBefore marks.sorted.items };
}

impl Marks {
    ghost use Rattle.std.specs.Prelude.{ℕ, [], ◌≡◌, ◌↔◌, Contains, IfOk, IsTrue};
    ghost use Rattle.remnants.specs.declared.parts.Mark.{Mark as AnyMark};
    ghost use Rattle.remnants.specs.inside.Marking.{IsMarked};

    /// No marks.
    pub fn none(alloc: Global) -> Marks
        ensures { result ≡ [] }
    {
        Marks {
            sorted: Vec::new(alloc),
        }
    }

    /// The marks of the list.
    pub fn of(marks: Vec<Mark>) -> Marks
        ensures { (mark : AnyMark) → Contains result mark ↔ Contains marks.items mark }
    {
        let mut sorted = marks;
        sorted.sort_unstable_by_key(|mark| (mark.terminal, mark.leader));
        sorted.dedup();
        Marks { sorted }
    }

    /// All of them.
    pub fn as_slice(&self) -> &[Mark]
        ensures { result.now ≡ self.now }
    {
        self.sorted.as_slice()
    }

    /// Those of the terminal.
    pub fn of_terminal(&self, terminal: usize) -> &[Mark]
        ensures { (mark : AnyMark) → Contains result.now mark ↔ (Contains self.now mark × (mark.terminal ≡ terminal)) }
    {
        let all = self.sorted.as_slice();
        let from = all.partition_point(|mark| mark.terminal < terminal);
        let behind = &all[from..];
        let count = behind.partition_point(|mark| mark.terminal <= terminal);
        &behind[..count]
    }

    /// Whether the terminal has a mark at the leader.
    pub fn has(&self, terminal: usize, leader: usize) -> bool
        ensures { IsTrue result ↔ IsMarked self.now terminal leader }
    {
        let key = (terminal, leader);
        self.sorted
            .binary_search_by_key(&key, |mark| (mark.terminal, mark.leader))
            .is_ok()
    }

    /// Those of the terminals that are not in the set.
    pub fn without(&self, alloc: Global, gone: &Numbers) -> Result<Marks, NoMemory>
        ensures { IfOk result (λ stay. (mark : AnyMark) →
            Contains stay mark ↔ (Contains self.now mark × (Contains gone.now mark.terminal → ⊥))) }
    {
        let mut stay = Vec::with_capacity(alloc, self.sorted.len())?;
        for mark in &self.sorted {
            if !gone.has(mark.terminal) {
                stay.push(*mark)?;
            }
        }
        Ok(Marks { sorted: stay })
    }
}
