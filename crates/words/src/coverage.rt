// Coverage: sweeps of pushes and folds over all levels of a node's positions.

ghost use Rattle.words.specs.Coverage.{UnderMembers, WhollyCovered, ParentCovered, Kept};

use crate::ladder::{
    fold_children, fold_l1, fold_l2, fold_l3, fold_l4, push_l0, push_l1, push_l2, push_l3, push_l4,
};

// What the members of a node cover: the positions and the child slots strictly below a member.
#[derive(Clone, Copy)]
pub struct MemberCoverage {
    pub covered: u32,
    pub children_under_member: u32,
}

// The positions and the child slots strictly below a member.
pub fn member_coverage(data_bitmap: u32) -> MemberCoverage
    ensures { UnderMembers data_bitmap result.covered result.children_under_member }
{
    let mut covered: u32 = 0;
    covered |= push_l0(data_bitmap | covered);
    covered |= push_l1(data_bitmap | covered);
    covered |= push_l2(data_bitmap | covered);
    covered |= push_l3(data_bitmap | covered);
    let children_under_member = push_l4(data_bitmap | covered);
    MemberCoverage {
        covered,
        children_under_member,
    }
}

// The positions that the members and the covered child slots cover wholly: two covered halves make a covered whole.
pub fn fold_coverage(data_bitmap: u32, child_coverage: u32) -> u32
    ensures { WhollyCovered data_bitmap child_coverage result }
{
    let mut coverage = data_bitmap | fold_children(child_coverage);
    coverage |= fold_l4(coverage);
    coverage |= fold_l3(coverage);
    coverage |= fold_l2(coverage);
    coverage |= fold_l1(coverage);
    coverage
}

// The positions whose parent is covered.
pub fn parent_coverage(coverage: u32) -> u32
    ensures { ParentCovered coverage result }
{
    push_l0(coverage) | push_l1(coverage) | push_l2(coverage) | push_l3(coverage)
}

// The maximal covered positions: covered, with no covered parent, and below no member.
pub fn keep_of(coverage: u32, parent: u32, covered: u32) -> u32
    ensures { Kept coverage parent covered result }
{
    coverage & !parent & !covered
}
