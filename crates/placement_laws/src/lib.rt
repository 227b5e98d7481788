//! Laws of the sites to which a slice may move, of what speaks against a move, and of candidates. Each is the contract of a
//! function with an empty body.
#![tactic(auto)]

ghost use Rattle.placement_laws.specs.Statements.{CandidateIsListed, CandidateIsTested, MoveIsDecided, NeverBoth, OneListOfSites, OneMoveFault, SomeEqualSites};

/// The sites of equal shape are one list in candidate order.
pub fn equal_sites_are_listed()
    ensures some { SomeEqualSites }
    ensures one { OneListOfSites }
{}

/// Nothing speaks against a move, or one thing does first.
pub fn move_is_decided()
    ensures decided { MoveIsDecided }
    ensures never_both { NeverBoth }
    ensures one { OneMoveFault }
{}

/// A candidate is a site of equal shape against which nothing speaks and whose layout passes the tests.
pub fn candidates_are_tested_sites()
    ensures tested { CandidateIsTested }
    ensures listed { CandidateIsListed }
{}
