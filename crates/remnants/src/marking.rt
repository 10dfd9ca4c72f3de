ghost use Rattle.std.specs.Prelude.{ℕ, ◌≢◌, ◌↔◌, Contains, IsTrue, MatchBool};
ghost use Rattle.remnants.specs.inside.Marking.{AreUnmarked, IsMarked, ShareLeader};

use super::marks::Marks;

/// Whether two of the terminals have no mark at the same leader.
pub fn are_unmarked(terminals: &[usize], marks: &Marks) -> bool
    ensures { IsTrue result ↔ AreUnmarked terminals.now marks.now }
{
    if have_one_leader(terminals, marks) {
        return false;
    }
    for one in terminals {
        if lacks_other(terminals, marks, *one) {
            return true;
        }
    }
    false
}

/// Whether one leader is seen to have a mark of each terminal, which is the common case. It can only be a leader of the
/// terminal with the fewest marks.
pub fn have_one_leader(terminals: &[usize], marks: &Marks) -> bool
    ensures { IsTrue result → AreUnmarked terminals.now marks.now → ⊥ }
{
    let Some(fewest) = least_marked(terminals, marks) else {
        return false;
    };
    let own = marks.of_terminal(fewest);
    for mark in own {
        if are_at(terminals, marks, mark.leader) {
            return true;
        }
    }
    false
}

/// The terminal with the fewest marks, if there are terminals.
fn least_marked(terminals: &[usize], marks: &Marks) -> Option<usize> {
    let mut least = None;
    let mut fewest = usize::MAX;
    for terminal in terminals {
        let count = marks.of_terminal(*terminal).len();
        if count < fewest {
            fewest = count;
            least = Some(*terminal);
        }
    }
    least
}

/// Whether each of the terminals has a mark at the leader.
fn are_at(terminals: &[usize], marks: &Marks, leader: usize) -> bool
    ensures { IsTrue result → (terminal : ℕ) → Contains terminals.now terminal → IsMarked marks.now terminal leader }
{
    for terminal in terminals {
        if !marks.has(*terminal, leader) {
            return false;
        }
    }
    true
}

/// Whether one of the terminals is not this one, and shares no leader with it.
fn lacks_other(terminals: &[usize], marks: &Marks, one: usize) -> bool
    ensures { MatchBool result
        ((other : ℕ) × Contains terminals.now other × (one ≢ other) × (ShareLeader marks.now one other → ⊥))
        ((other : ℕ) → Contains terminals.now other → one ≢ other → ShareLeader marks.now one other) }
{
    for other in terminals {
        if *other != one && !share_leader(marks, one, *other) {
            return true;
        }
    }
    false
}

/// Whether both terminals have a mark at one leader.
fn share_leader(marks: &Marks, one: usize, other: usize) -> bool
    ensures { IsTrue result ↔ ShareLeader marks.now one other }
{
    let own = marks.of_terminal(one);
    for mark in own {
        if marks.has(other, mark.leader) {
            return true;
        }
    }
    false
}
