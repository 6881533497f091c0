//! Laws of limits, costs, cuts and assignments, as calls. The contract of each call is the law; the call does nothing.

ghost use Rattle.std.specs.Prelude.{◌≡◌, ◌↔◌, length};
ghost use Rattle.lit_base.specs.Limits.{LimitsLaw};
ghost use Rattle.lit_base.specs.Literals.{lengths};
ghost use Rattle.lit_base.specs.Costs.{AreSmall, CostTheSame, MeetQuadrangle, run_cost, true_run_cost};
ghost use Rattle.lit_base.specs.Cuts.{IncreasesTo, IsCut, NoCutBelow, cut_price};
ghost use Rattle.lit_base.specs.Assignments.{IsAssignment, NoAssignmentBelow, assign_price, assignment_of};
ghost use Rattle.lit_base.specs.Potentials.{BoundsBelow, potential};

use crate::lit_list::LitList;

/// The law of the limits: by which numbers lists are refused.
pub fn limits_law()
    ensures { LimitsLaw }
{}

/// The law of run costs. Since the literals stand by length, the cost of a run by its first literal equals its cost by
/// its shortest. Costs stay small, and meet the quadrangle inequality, which allows planning runs by divide and
/// conquer.
pub fn run_cost_law(list: &LitList)
    ensures shortest { CostTheSame (run_cost (lengths list.now)) (true_run_cost (lengths list.now)) (length list.now.texts) }
    ensures small { AreSmall (run_cost (lengths list.now)) (length list.now.texts) }
    ensures quadrangle { MeetQuadrangle (run_cost (lengths list.now)) (length list.now.texts) }
{
    let _count = list.len();
}

/// The law that says in other words what a cut is.
pub fn cut_law(most: usize, count: usize, ends: &[u16])
    ensures { IsCut most count ends.now ↔ IncreasesTo most count ends.now }
{}

/// The law that a cut, its runs numbered in order, is an assignment of the same price.
pub fn assignment_law(list: &LitList, most: usize, ends: &[u16])
    requires { IsCut most (length list.now.texts) ends.now }
    ensures assignment { IsAssignment most (length list.now.texts) (assignment_of ends.now) }
    ensures price { assign_price most (lengths list.now) (assignment_of ends.now) ≡ cut_price (run_cost (lengths list.now)) 0 ends.now }
{
    let _count = list.len();
}

/// The law on which certificates stand, for potentials with two bounds: none is above the cost of one run to the end,
/// nor above the cost of one run and the potential after it. Then no assignment costs less than the potential of all
/// literals, and so no cut does.
pub fn potentials_law(list: &LitList, most: usize, potentials: &[u64])
    requires { BoundsBelow (run_cost (lengths list.now)) (potential potentials.now (length list.now.texts)) most (length list.now.texts) }
    ensures assignments { NoAssignmentBelow most list.now (potential potentials.now (length list.now.texts) most 0) }
    ensures cuts { NoCutBelow most list.now (potential potentials.now (length list.now.texts) most 0) }
{
    let _count = list.len();
}
