//! The mode `explain`: explains the text in the program's arguments or in its input, and prints the explained text. It
//! runs no feed and opens no file.
ghost use Rattle.std.specs.Prelude.{◌≡◌, ℕ, List, ◌++◌, ◌∷◌, IfOk, IfErr, IfSome, map};
ghost use Rattle.std.specs.Io.KnownBytes.{Appends, Keeps};
ghost use Rattle.std.specs.List.{flat_map};
ghost use Rattle.cmd_answer.specs.declared.stop.FilesStop.TheVariants.{Other};
ghost use Rattle.cmd_answer.specs.declared.stop.Stop.TheVariants.{Output};
ghost use Rattle.cmd_answer.specs.Stops.{OverOutput};
ghost use Rattle.cmd_answer.specs.Written.{AppendsPart};
ghost use Rattle.cmd_explain.specs.Asked.{or_line, asked_text, Explains, StopsExplain};

use crate::explaining::explain;
use cmd_answer::{Stop, put, read_all};
use cmd_options::MOST_READS;
use cmd_types::Memory;
use std::alloc::Global;
use std::io::{Read, Write};

/// The text of `first` and `others` joined by blanks; a line feed alone where that text is empty. Fails if memory runs
/// out.
fn spaced(alloc: Global, first: &str, others: &[&str]) -> Result<Vec<u8>, Memory>
    ensures { IfOk result (λ text. text.items ≡ or_line (first.now ++ flat_map (λ w. 32 ∷ w.now) others.now)) }
{
    let mut text = Vec::from_slice(alloc, first.as_bytes())?;
    for word in others {
        text.push(b' ')?;
        text.extend_from_slice(word.as_bytes())?;
    }
    if text.is_empty() {
        text.push(b'\n')?;
    }
    Ok(text)
}

/// The text to be explained: `words` joined by blanks, or the whole input where there are no words. Fails with
/// [`Stop::Input`] or [`Stop::Memory`].
fn read_asked<I: Read>(alloc: Global, words: &[&str], input: &mut I) -> Result<Vec<u8>, Stop>
    ensures text { IfOk result (λ text. IfSome (asked_text (map (λ w. w.now) words.now) (I.remaining input.old)) (λ asked. text.items ≡ asked)) }
    ensures stops { IfErr result (λ stop. StopsExplain (map (λ w. w.now) words.now) (Other stop)) }
{
    match words {
        [] => Ok(read_all(alloc, input, MOST_READS)?),
        [first, others @ ..] => Ok(spaced(alloc, first, others)?),
    }
}

/// Explains a text, and appends the explained text to the output: each line, and after each known line its meaning
/// (profile). The text is `words` joined by blanks, or the whole input where there are no words. A single empty word is
/// an empty line, which is not known. Returns the exit status: for an input 0; for words 0 where each line of them is
/// known, else 1.
///
/// # Errors
/// [`Stop::Input`] where the input could not be read to its end; [`Stop::Memory`]; or [`Stop::Output`]. After
/// [`Stop::Output`] the output has a prefix of the explained text; after any other stop it is unchanged.
///
/// ```
/// let mut input = b"".as_slice();
/// let mut output = Vec::new(alloc);
/// let words = ["gateway:", "inventory", "line", "2:", "7"];
/// let Ok(status) = serve_explain(alloc, &words, &mut input, &mut output) else {
///     return Err(Fail::new("there is memory"));
/// };
/// assert_eq!(rt; status, 0);
/// assert_eq!(rt;
///     output.as_slice(),
///     b"gateway: inventory line 2: 7\n    line 2 names a contact that no line before it defines\n".as_slice()
/// );
/// ```
pub fn serve_explain<I: Read, O: Write>(
    alloc: Global,
    words: &[&str],
    input: &mut I,
    output: &mut O,
) -> Result<u8, Stop>
    ensures explains { IfOk result (λ status. IfSome (asked_text (map (λ w. w.now) words.now) (I.remaining input.old)) (λ asked.
        (text : List ℕ) × Explains (map (λ w. w.now) words.now) asked text status × Appends (O.contents output.old) (O.contents output.new) text)) }
    ensures stops { IfErr result (λ stop. OverOutput (StopsExplain (map (λ w. w.now) words.now)) (Other stop)) }
    ensures nothing { IfErr result (λ stop. (stop ≡ Output → ⊥) → Keeps (O.contents output.old) (O.contents output.new)) }
    ensures part { IfErr result (λ stop. stop ≡ Output → IfSome (asked_text (map (λ w. w.now) words.now) (I.remaining input.old)) (λ asked.
        (text : List ℕ) × ((status : ℕ) × Explains (map (λ w. w.now) words.now) asked text status) × AppendsPart (O.contents output.old) (O.contents output.new) text)) }
{
    let text = read_asked(alloc, words, input)?;
    let (explained, is_known) = explain(alloc, &text)?;
    let status = if words.is_empty() || is_known { 0 } else { 1 };
    put((explained, status), output)
}
