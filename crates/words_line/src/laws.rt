//! What the definitions come to: each law is the contract of a function that does nothing.

ghost use Rattle.std.specs.Prelude.{◌≡◌, ◌∷◌, List, Some};
ghost use Rattle.clap.specs.Words.{Text};
ghost use Rattle.words_line.specs.declared.table.Kind.{Kind};
ghost use Rattle.words_line.specs.Commands.{AreReordered, command_of, plan_of, plan_read, row_of};

/// Clap takes a line exactly where it is read word by word, each argument at most once and all that has to be there, and
/// the plan is that of the uses read: all words have the plan, or the fault, that they have without clap.
pub fn words_are_read()
    ensures { (words : List Text) → plan_of words ≡ plan_read words }
{}

/// Two orders of the same uses make one plan.
pub fn uses_in_any_order()
    ensures { (word : Text) (kind : Kind) (words others : List Text) → command_of word ≡ Some kind → AreReordered (row_of kind) (word ∷ words) (word ∷ others) → plan_of (word ∷ words) ≡ plan_of (word ∷ others) }
{}
