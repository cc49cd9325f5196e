//! Laws of lines, of their items and of skipping. Each law is the contract of a function that does nothing when it
//! runs; a function whose proof needs the law calls it.

ghost use Rattle.std.specs.Prelude.{◌≡◌, ◌≢◌, ◌≤◌, ◌⊎◌, [], ◌∷◌, ◌++◌, ◌+◌, ◌<◌, ℕ, List, length, map, Option};
ghost use Rattle.std.specs.Option.{option_to_list};
ghost use Rattle.cmd_lines.specs.declared.phase.Phase.{Phase};
ghost use Rattle.cmd_lines.specs.declared.skip.Skipped.{Skipped};
ghost use Rattle.cmd_lines.specs.Skips.{AreWhole, line_count, raised, raised_refusal, IsUpTo, IsSkipped, Skips};
ghost use Rattle.cmd_types.specs.Bytes.{Lacks};
ghost use Rattle.cmd_types.specs.Spelling.{Timed, IsWellFormed, Spells, canonical};
ghost use Rattle.cmd_lines.specs.declared.fault.LineFault.{LineFault};
ghost use Rattle.cmd_lines.specs.declared.fault.LineFault.TheVariants.{Torn, Memory};
ghost use Rattle.cmd_lines.specs.declared.item.Item.{Item};
ghost use Rattle.cmd_lines.specs.declared.item.Item.TheVariants as item;
ghost use Rattle.cmd_lines.specs.FirstFault.{IsFirstFault};
ghost use Rattle.cmd_types.specs.TextLines.{split_lines};
ghost use Rattle.cmd_lines.specs.Laws.{ReadingLaws};
ghost use Rattle.cmd_lines.specs.Items.{item_of, line_items, torn_items, known, items_so_far, items, items_cut, commands, refusals};
ghost use Rattle.cmd_lines.specs.Reader.{Waiting, Stands, Passing};
ghost use Rattle.cmd_lines.specs.Steps.{IsWhole};

use cmd_types::definitions_agree;

/// Law: the canonical line of a well-formed command with its time spells this command and this time and nothing else.
pub fn canonical_spells_one()
    ensures spells { (t : Timed) → IsWellFormed t → Spells (canonical t) t }
    ensures one { (t u : Timed) → IsWellFormed t → Spells (canonical t) u → t ≡ u }
{
    definitions_agree();
}

/// Law: the canonical line is no longer than any line that spells the same command.
pub fn canonical_is_no_longer()
    ensures { (line : List ℕ) (t : Timed) → Spells line t → length (canonical t) ≤ length line }
{
    definitions_agree();
}

/// Law: the item of a line is the command that the line spells, or else the first test that the line fails.
pub fn item_is_exact()
    ensures { (n : ℕ) (line : List ℕ) → IsWhole line →
        ((t : Timed) × Spells line t × (item_of n line ≡ item.Command t))
        ⊎ ((f : LineFault) × IsFirstFault line f × (item_of n line ≡ item.Refused n f)) }
{
    definitions_agree();
}

/// Law: a line has one first fault at most, and a line with a first fault spells no command.
pub fn first_fault_is_one()
    ensures one { (line : List ℕ) (f g : LineFault) → IsFirstFault line f → IsFirstFault line g → f ≡ g }
    ensures nothing_spelled { (line : List ℕ) (f : LineFault) (t : Timed) → IsFirstFault line f → Spells line t → ⊥ }
{
    definitions_agree();
}

/// Law: the first fault of a line is neither `Torn` nor `Memory`.
pub fn faults_are_of_lines()
    ensures { (line : List ℕ) (f : LineFault) → IsFirstFault line f → (f ≢ Memory) × (f ≢ Torn) }
{}

/// Law: the ending of a text matters only for the line after its last line feed. The number of that line is one more
/// than the number of lines before it.
pub fn items_by_ending()
    ensures so_far { (text last : List ℕ) → Lacks 10 last → items_so_far (text ++ 10 ∷ last) ≡ items text }
    ensures ended { (text last : List ℕ) → Lacks 10 last → items (text ++ 10 ∷ last) ≡ items text ++ line_items (1 + length (split_lines text)) last }
    ensures cut { (text last : List ℕ) → Lacks 10 last → items_cut (text ++ 10 ∷ last) ≡ items text ++ torn_items (1 + length (split_lines text)) last }
    ensures one_line { (last : List ℕ) → Lacks 10 last → (items_so_far last ≡ []) × (items last ≡ line_items 1 last) × (items_cut last ≡ torn_items 1 last) }
{
    definitions_agree();
}

/// Law: at any time the items that a reader has returned are a prefix of the items of the bytes fed.
pub fn given_come_first()
    ensures { (w : Waiting) (f : List ℕ) (g : List Item) → Stands w f g → (more : List Item) × (known w.phase f ≡ g ++ more) }
{}

/// Law: the commands of two joined lists of items are the commands of the first list and then of the second list; so
/// are the refusals.
pub fn parts_of_items()
    ensures commands { (xs ys : List Item) → commands (xs ++ ys) ≡ commands xs ++ commands ys }
    ensures refusals { (xs ys : List Item) → refusals (xs ++ ys) ≡ refusals xs ++ refusals ys }
{}

/// Law: the canonical line of a well-formed command has one item, the command. So this item follows the items of the
/// whole lines before it, however the text ends.
pub fn a_canonical_line_is_one_item()
    ensures { (p : Phase) (front : List ℕ) (t : Timed) → AreWhole front → IsWellFormed t → known p (front ++ (canonical t ++ 10 ∷ [])) ≡ known p front ++ item.Command t ∷ [] }
{
    definitions_agree();
}

/// Laws of lines and of the parts of lines: where a line is cut, that the canonical line spells its command, and that a
/// line spells one command at most. A function whose proof needs these laws calls this function (profile).
pub fn lines_agree()
    ensures { ReadingLaws }
{
    definitions_agree();
}

/// Law: where a text follows whole lines, the items are those of these lines, and then those of the text. The line
/// numbers of the text's refused lines are raised by the number of lines before; a command has no line number.
pub fn items_of_lines()
    ensures items { (p : Phase) (front text : List ℕ) → AreWhole front → known p (front ++ text) ≡ items front ++ map (raised (line_count front)) (known p text) }
    ensures whole { (p : Phase) (front : List ℕ) → AreWhole front → known p front ≡ items front }
    ensures commands { (p : Phase) (front text : List ℕ) → AreWhole front → commands (known p (front ++ text)) ≡ commands (known p front) ++ commands (known p text) }
    ensures refusals { (p : Phase) (front text : List ℕ) → AreWhole front → refusals (known p (front ++ text)) ≡ refusals (known p front) ++ map (raised_refusal (line_count front)) (refusals (known p text)) }
{
    definitions_agree();
}

/// Law: a text that grows keeps the items of its whole lines, however it ends.
pub fn text_that_grows()
    ensures { (p : Phase) (text more : List ℕ) → (later : List Item) × (known p (text ++ more) ≡ items_so_far text ++ later) }
{
    definitions_agree();
}

/// Law: the text up to and including the line of the n-th command consists of whole lines, which spell n commands. The
/// last of these commands is `last`, which is `None` where n is 0.
pub fn skipped_are_first()
    ensures whole { (n : ℕ) (front : List ℕ) (last : Option Timed) → IsUpTo n front last → AreWhole front }
    ensures count { (n : ℕ) (front : List ℕ) (last : Option Timed) → IsUpTo n front last → length (commands (items front)) ≡ n }
    ensures last { (n : ℕ) (front : List ℕ) (last : Option Timed) → IsUpTo n front last → (firsts : List Timed) × (commands (items front) ≡ firsts ++ option_to_list last) }
{
    definitions_agree();
}

/// Law: at most one prefix of a text ends with the line of the text's n-th command.
pub fn skipped_are_one()
    ensures { (n : ℕ) (text : List ℕ) (s s' : Skipped) → IsSkipped text n s → IsSkipped text n s' → s ≡ s' }
{
    definitions_agree();
}

/// Law: until skipping is done, the bytes fed to a `Skipping` of n commands spell fewer than n commands.
pub fn skipping_has_fewer()
    ensures { (s : Passing) (n : ℕ) (f : List ℕ) → Skips s n f → length (commands (items_so_far f)) < n }
{
    definitions_agree();
}
