//! The worked machine, case by case, and two page faults that lose a page: both computed by the checker from the rules of the
//! whole machine, with five queues, a TLB over the walker and a page data set.
#![tactic(auto)]

ghost use Rattle.cases.specs.Cases.{Cases};
ghost use Rattle.cases.specs.Governed.{Governed};
ghost use Rattle.cases.specs.LosingFaults.{LosingFaults};

pub mod table;

/// The nine cases hold of the rules: each is computed from IPL on, and its figures are those of `table::nine_cases`.
pub fn cases_stand()
    ensures { Cases }
{}

/// The change bit trusted from a queue's name, and an emptied page's pair left in the translator: each is refuted by a
/// list of calls that the flat machine answers otherwise.
pub fn losing_faults_are_refuted()
    ensures { LosingFaults }
{}

/// The worked machine meets what the laws assume: both hold of every run from its IPL.
pub fn laws_apply()
    ensures { Governed }
{}
