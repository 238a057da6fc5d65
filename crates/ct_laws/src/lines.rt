// The line model on two lines of words that are all 0.
ghost use Rattle.ct_laws.specs.Lines.{StoresToOneLineAppearInOrder, StoresToTwoLinesAppearInAnyOrder, AFenceKeepsWhatWasFlushed, AFlushAloneKeepsNothing};

/// Word 0 becomes 1, then word 1 becomes 2: they are (0, 0), (1, 0) or (1, 2), and never (0, 2).
pub fn one_line()
    ensures { StoresToOneLineAppearInOrder }
{}

/// Word 0 becomes 1, then word 8 becomes 2: each of the four pairs may be left.
pub fn two_lines()
    ensures { StoresToTwoLinesAppearInAnyOrder }
{}

/// Word 0 becomes 1, its line is flushed, it becomes 3, and a fence is made: it is 1 or 3, and never 0.
pub fn a_fence()
    ensures { AFenceKeepsWhatWasFlushed }
{}

/// Word 0 becomes 1, and its line is flushed with no fence after it: it is 0 or 1.
pub fn a_flush_alone()
    ensures { AFlushAloneKeepsNothing }
{}
