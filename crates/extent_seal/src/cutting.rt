//! How the replicas of the nodes that answered are cut to the smallest length among them.
ghost use Rattle.std.specs.Prelude.{if◌then◌else◌, ◌≡◌, length, take, min, IfSome};
ghost use Rattle.std.specs.Option.{is_some};
ghost use Rattle.extent_seal.specs.Smallest.{IsAnswered, IsSmallest};

use extent_node::Replica;

/// The replicas of the nodes that answered, each cut to `len` blocks.
#[derive(Drop)]
pub(crate) struct Kept {
    pub zero: Option<Replica>,
    pub one: Option<Replica>,
    pub two: Option<Replica>,
    pub len: usize,
}

// The smaller length, if the other node answered.
fn smaller(len: usize, answered: bool, other: usize) -> usize
    ensures { result ≡ (if answered then min len other else len) }
{
    if answered { len.min(other) } else { len }
}

// The smallest length of the replicas of the nodes that answered. Some node did.
fn smallest(zero: bool, one: bool, two: bool, of_zero: usize, of_one: usize, of_two: usize) -> usize
    requires { IsAnswered zero one two }
    ensures { IsSmallest zero one two of_zero of_one of_two result }
{
    if zero {
        smaller(smaller(of_zero, one, of_one), two, of_two)
    } else if one {
        smaller(of_one, two, of_two)
    } else {
        of_two
    }
}

// The first `len` blocks of the replica of a node that answered. The replica of another node is discarded.
fn cut_if(replica: Replica, answered: bool, len: usize) -> Option<Replica>
    ensures kept { is_some result ≡ answered }
    ensures cut { IfSome result (λ r. r.blocks ≡ take len replica.blocks) }
{
    if !answered {
        return None;
    }
    let mut replica = replica;
    replica.cut(len);
    Some(replica)
}

/// Cuts the replicas of the nodes that answered to the smallest length among them, and discards the others. Takes no memory.
pub(crate) fn cut(zero: Replica, one: Replica, two: Replica, answers: (bool, bool, bool)) -> Kept
    requires { IsAnswered answers.0 answers.1 answers.2 }
    ensures smallest { IsSmallest answers.0 answers.1 answers.2 (length zero.blocks) (length one.blocks) (length two.blocks) result.len }
    ensures kept_zero { is_some result.zero ≡ answers.0 }
    ensures kept_one { is_some result.one ≡ answers.1 }
    ensures kept_two { is_some result.two ≡ answers.2 }
    ensures cut_zero { IfSome result.zero (λ r. r.blocks ≡ take result.len zero.blocks) }
    ensures cut_one { IfSome result.one (λ r. r.blocks ≡ take result.len one.blocks) }
    ensures cut_two { IfSome result.two (λ r. r.blocks ≡ take result.len two.blocks) }
{
    let len = smallest(
        answers.0,
        answers.1,
        answers.2,
        zero.len(),
        one.len(),
        two.len(),
    );
    let zero = cut_if(zero, answers.0, len);
    let one = cut_if(one, answers.1, len);
    let two = cut_if(two, answers.2, len);
    Kept {
        zero,
        one,
        two,
        len,
    }
}
