//! The theorems: each function's contract is one, and its statement stands in specs/.
ghost use Rattle.families.specs.Groups.{Numbering};
ghost use Rattle.families.specs.Masks.{Masks};
ghost use Rattle.families.specs.Kinds.{PassingListed, GroupsFalling, ListedSmallest, ListedOnce};
ghost use Rattle.families.specs.Canonical.{Canonical, OneTree, TreeFamily};
ghost use Rattle.families.specs.Answered.{Answered, AnsweredOnce, FoundedAnyhow, MembersAmong, UptoKept, TurnSmallest, TurnTwice};
ghost use Rattle.families.specs.Replacing.{Cuts, Replacing, ProperPasses, ProperKept};
ghost use Rattle.families.specs.Leads.{SightRight, ScriptLeads};
ghost use Rattle.families.specs.Workings.{Unfolding, BuiltGood, AskedGood, PutsGood, OpenRise, WorkingsPart};
ghost use Rattle.families.specs.Verdicts.{MeetingPassing, MeetingCoterie, MeetingVerdict, ClashListed, NondominatedVerdict, WitnessListed, FirstWitness};
ghost use Rattle.families.specs.Worked.{Worked};

/// A group and its number give each other back.
pub fn numbering_stands()
    ensures { Numbering }
{}

/// Containing and meeting of groups are mask operations.
pub fn masks_stand()
    ensures { Masks }
{}

/// A set passes exactly when it contains a listed group.
pub fn passing_listed_stands()
    ensures { PassingListed }
{}

/// The list of a tree's groups is strictly falling.
pub fn groups_falling_stands()
    ensures { GroupsFalling }
{}

/// It lists exactly the smallest passing groups.
pub fn listed_smallest_stands()
    ensures { ListedSmallest }
{}

/// It is the only falling list of these.
pub fn listed_once_stands()
    ensures { ListedOnce }
{}

/// Good trees that pass the same groups are equal.
pub fn canonical_stands()
    ensures { Canonical }
{}

/// Every family has exactly one good tree.
pub fn one_tree_stands()
    ensures { OneTree }
{}

/// Every good tree is that of a family.
pub fn tree_family_stands()
    ensures { TreeFamily }
{}

/// Each question is answered as it means.
pub fn answered_stands()
    ensures { Answered }
{}

/// Nothing else is an answer.
pub fn answered_once_stands()
    ensures { AnsweredOnce }
{}

/// The outcome does not depend on how the recursion is founded.
pub fn founded_anyhow_stands()
    ensures { FoundedAnyhow }
{}

/// The members of an answer are among the operands'.
pub fn members_among_stands()
    ensures { MembersAmong }
{}

/// A bound on the members is kept.
pub fn upto_kept_stands()
    ensures { UptoKept }
{}

/// Turn lists exactly the smallest stopping groups.
pub fn turn_smallest_stands()
    ensures { TurnSmallest }
{}

/// Turning twice gives the family back.
pub fn turn_twice_stands()
    ensures { TurnTwice }
{}

/// What off and on pass.
pub fn cuts_stand()
    ensures { Cuts }
{}

/// What passes where a member is replaced by a family.
pub fn replacing_stands()
    ensures { Replacing }
{}

/// A family is neither none nor always exactly when something passes, and not the empty set.
pub fn proper_passes_stands()
    ensures { ProperPasses }
{}

/// Either, both, turn and replacing keep that.
pub fn proper_kept_stands()
    ensures { ProperKept }
{}

/// What is seen of a question is its answer.
pub fn sight_right_stands()
    ensures { SightRight }
{}

/// What an opened question asks is good, with larger members.
pub fn script_leads_stands()
    ensures { ScriptLeads }
{}

/// An outcome unfolds into those of the questions asked.
pub fn unfolding_stands()
    ensures { Unfolding }
{}

/// Every node built is a good tree.
pub fn built_good_stands()
    ensures { BuiltGood }
{}

/// Every question opened is good.
pub fn asked_good_stands()
    ensures { AskedGood }
{}

/// What an open question asks has only larger members.
pub fn puts_good_stands()
    ensures { PutsGood }
{}

/// At most 48 questions are open together.
pub fn open_rise_stands()
    ensures { OpenRise }
{}

/// The workings of what an open question asks are among its own.
pub fn workings_part_stands()
    ensures { WorkingsPart }
{}

/// Groups of a family meet exactly when passing groups do.
pub fn meeting_passing_stands()
    ensures { MeetingPassing }
{}

/// They meet exactly when they are a coterie.
pub fn meeting_coterie_stands()
    ensures { MeetingCoterie }
{}

/// All groups meet exactly when less(F, turn F) is none.
pub fn meeting_verdict_stands()
    ensures { MeetingVerdict }
{}

/// less(F, turn F) lists the groups that share no member with some other.
pub fn clash_listed_stands()
    ensures { ClashListed }
{}

/// A coterie is nondominated exactly when less(turn F, F) is none.
pub fn nondominated_verdict_stands()
    ensures { NondominatedVerdict }
{}

/// less(turn F, F) lists the smallest stopping groups that contain no passing group.
pub fn witness_listed_stands()
    ensures { WitnessListed }
{}

/// If it is not none, its first group is the largest of these.
pub fn first_witness_stands()
    ensures { FirstWitness }
{}

/// Small families, worked out.
pub fn worked_stands()
    ensures { Worked }
{}
