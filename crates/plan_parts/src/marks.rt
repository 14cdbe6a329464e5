//! Which types are used: those that are marked to begin with, and the parts of those that are used.

ghost use Rattle.std.specs.{List.AllByRecursion, Borrow.Bor};
ghost use Rattle.std.specs.Prelude.{◌≡◌, ◌↔◌, ◌<◌, ◌+◌, ◌||◌, ℕ, length, map, true, List};
ghost use Rattle.wit_model.specs.Uses.{has};
ghost use Rattle.plan_parts.specs.Marks.{is_marked, parts_of, PartsFall, IsUsed};

/// Marks the types among the parts.
pub fn mark_parts(marks: &mut [bool], parts: &[usize])
    requires { AllByRecursion (λ k. k < 14 + length marks.old) parts.now }
    ensures { (n : ℕ) → is_marked marks.new n ≡ (is_marked marks.old n || has parts.now (14 + n)) }
{
    for part in parts {
        if *part >= 14 {
            marks[*part - 14] = true;
        }
    }
}

/// Marks the parts of the types that are marked, and the parts of those, where each type of a table stands behind its parts (Binary.md, "Type
/// Definitions"). Takes time linear in the parts of all types, and no memory.
pub fn close(marks: &mut [bool], parts: &[&[usize]])
    requires many { length parts.now ≡ length marks.old }
    requires fall { PartsFall (parts_of parts.now) }
    ensures { (n : ℕ) → (is_marked marks.new n ≡ true) ↔ IsUsed (parts_of parts.now) marks.old n }
{
    for passed in 0..parts.len() {
        let number = parts.len() - 1 - passed;
        if marks[number] {
            mark_parts(marks, parts[number]);
        }
    }
}
