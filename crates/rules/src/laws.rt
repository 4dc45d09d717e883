//! The laws of rules, each as a function's contract.
ghost use Rattle.rules.specs.Laws.{ExpansionPasses, ReadingSpells};

// The term of a rule passes the groups that the rule passes.
pub fn expansion_stands()
    ensures { ExpansionPasses }
{}

// The reading of a text is a rule where the text is let in as that rule, and nowhere else.
pub fn reading_stands()
    ensures { ReadingSpells }
{}
