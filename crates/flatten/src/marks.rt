ghost use Rattle.std.specs.Prelude.{ℕ, ◌⊎◌, ◌≡◌, ◌↔◌, ◌<◌, Contains, IfOk, IfSome, Some, length};
ghost use Rattle.library_model.specs.Names.{names_of};
ghost use Rattle.flatten.specs.Structures.{all_targets};
ghost use Rattle.flatten.specs.inside.Marks.{IsMarked, target_in, targets_among};

use library_model::{Element, NameIndex, Structure};
use lists::NoMemory;
use std::alloc::Global;

/// The number of the structure that the element refers to, if it is a reference to one.
fn target_of(element: &Element, index: &NameIndex<'_>) -> Option<u32>
    ensures value { result ≡ target_in index.now element.now }
    ensures within { IfSome result (λ one. one < length index.now) }
{
    match element {
        Element::Shape(_) => None,
        Element::Reference(reference) => index.find(reference.target.as_slice()),
    }
}

/// Marks what has this number, if there is one.
fn mark(marks: &mut [bool], target: Option<u32>)
    requires { IfSome target (λ one. one < length marks.old) }
    ensures kept { (one : ℕ) → IsMarked marks.old one → IsMarked marks.new one }
    ensures marked { (one : ℕ) → target ≡ Some one → IsMarked marks.new one }
    ensures only { (one : ℕ) → IsMarked marks.new one → IsMarked marks.old one ⊎ (target ≡ Some one) }
{
    if let Some(one) = target {
        marks[one as usize] = true;
    }
}

/// Marks the structures to which references among the elements lead.
fn mark_targets(marks: &mut [bool], elements: &[Element], index: &NameIndex<'_>)
    requires { length index.now ≡ length marks.old }
    ensures kept { (one : ℕ) → IsMarked marks.old one → IsMarked marks.new one }
    ensures marked { (one : ℕ) → Contains (targets_among index.now elements.now) one → IsMarked marks.new one }
    ensures only { (one : ℕ) → IsMarked marks.new one → IsMarked marks.old one ⊎ Contains (targets_among index.now elements.now) one }
{
    for element in elements {
        mark(marks, target_of(element, index));
    }
}

/// Marks each structure to which a reference leads.
pub fn marks_of(
    alloc: Global,
    structures: &[Structure],
    index: &NameIndex<'_>,
) -> Result<Vec<bool>, NoMemory>
    requires { index.now ≡ names_of structures.now }
    ensures long { IfOk result (λ marks. length marks.items ≡ length structures.now) }
    ensures marked { IfOk result (λ marks. (one : ℕ) → IsMarked marks.items one ↔ Contains (all_targets structures.now) one) }
{
    let mut marks = vec![in alloc; false; structures.len()]?;
    for structure in structures {
        mark_targets(&mut marks, structure.elements.as_slice(), index);
    }
    Ok(marks)
}
