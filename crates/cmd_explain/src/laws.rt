//! Laws of the explanation of lines: which lines are known, and that no line is lost. Each law is the contract of a
//! function that does nothing.
ghost use Rattle.cmd_explain.specs.Laws.{FindsAll, KnowsAll, LosesNothing};

use cmd_types::definitions_agree;

/// Every cause, fault and reason is found by the number that the program prints for it, all that can withhold a notice
/// by its word, and every kind of line by its form (profile). So the lines for the program's end, a run, a feed, a
/// refused line and a rejected command are known. So are the lines of a run that follows feeds, on its start, on its
/// feeds and on a new inventory. Their meaning is that of the event for which they were printed. The line of a status on
/// the moments of an object is known too, with what withholds the notice of its problem.
pub fn every_line_is_known()
    ensures found { FindsAll }
    ensures known { KnowsAll }
{
    // For the proof alone, at no cost when it runs: a canonical line is read as its command.
    definitions_agree();
}

/// An explained text without its meanings has exactly the lines of the text, in their order (profile).
pub fn explaining_loses_nothing()
    ensures { LosesNothing }
{
    // For the proof alone, at no cost when it runs: a canonical line is read as its command.
    definitions_agree();
}
