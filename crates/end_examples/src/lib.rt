//! Small runs of a router that end by a pad, by no site, and after a move, each the contract of a function with an empty
//! body.
#![tactic(auto)]

ghost use Rattle.attempts.specs.Attempts.{AttemptBlocked, AttemptComplete, EndPad, EndSite, Ended, IsAnswer, Moved, NoRoute, Routed};
ghost use Rattle.end_examples.specs.Ends.{full_cut, full_design, job_of, pad_cut, pad_design, routed, slice_design, step};
ghost use Rattle.std.specs.Prelude.{[], ◌∷◌};

/// Where one flip joins the only way to a pad to another copy, its connection is blocked at the first place, and the attempts
/// end by that pad.
pub fn blocked_at_a_pad()
    ensures { IsAnswer (job_of pad_design) (Ended (AttemptBlocked 4 6 ∷ []) (NoRoute EndPad 4 6 pad_cut)) }
{}

/// Where it joins the way to a slice, and another slice stands at the only other site, they end for want of a site.
pub fn blocked_without_a_site()
    ensures { IsAnswer (job_of full_design) (Ended (AttemptBlocked 4 0 ∷ []) (NoRoute EndSite 4 0 full_cut)) }
{}

/// Where that site is empty the slice moves there, and the second attempt is complete.
pub fn blocked_slice_moves()
    ensures { IsAnswer (job_of slice_design) (Ended (AttemptBlocked 4 0 ∷ Moved step.move ∷ AttemptComplete ∷ []) (Routed routed 1)) }
{}
