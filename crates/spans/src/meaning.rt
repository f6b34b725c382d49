// What the tests of windows say of all moments.
ghost use Rattle.semantics.specs.Times.{itself, whole};
ghost use Rattle.spans.specs.Meaning.{WindowsCount, GuardsCount, WindowsMean};
ghost use Rattle.spans.specs.Taking.{MeetExactly, TakesAsCut, CutAsPrinted};
ghost use Rattle.spans.specs.Holding.{HoldsExactly};
ghost use Rattle.spans.specs.Examples.{WindowsWork};

// The moments of a cut window are the written one's that count, and those of a cut guard the
// written one's up to and with the bound.
pub fn cuts_count()
    ensures windows { WindowsCount }
    ensures guards { GuardsCount }
{}

// Of windows in seconds and of guards in ticks: one is said to hold no time exactly if no moment
// lies in it, and two to share a moment exactly if one lies in both.
pub fn windows_mean()
    ensures windows { WindowsMean itself }
    ensures guards { WindowsMean whole }
{}

// Two hearings are said to share a word exactly if there are a port, a value and a moment that
// both take; and cut as they are here, edges and transitions take what they take in a tree.
pub fn hearings_meet()
    ensures windows { MeetExactly itself }
    ensures guards { MeetExactly whole }
    ensures taking { TakesAsCut }
    ensures printed { CutAsPrinted }
{}

// Cut windows and guards hold a time, and two edges of a phase share a word, exactly if there is a
// moment as lawful trees ask for one.
pub fn cuts_hold()
    ensures { HoldsExactly }
{}

// Windows that are worked out.
pub fn windows_work()
    ensures { WindowsWork }
{}
