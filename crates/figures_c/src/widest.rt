// The diameter and the pivot-diameter, for C.
ghost use Rattle.figures.specs.Promises.{ask, DiameterPromise, PivotDiameterPromise};
ghost use Rattle.figures_c.specs.Reply.{answer_reply, Replied};

use crate::reply::Reply;
use figures::Ask;

#[tactic(auto, unfolding(crate::specs::Reply::Replied))]
#[unsafe(no_mangle)]
pub extern "C" fn figures_diameter(
    list: &[u32],
    n: u32,
    asker: u32,
    a: u32,
    w: u32,
    scratch: &mut [u32],
    reply: &mut [u32; 5],
)
    ensures { Replied answer_reply (λ x. DiameterPromise (ask list.now n asker a w) scratch.old x scratch.new) reply.new }
{
    let ask = Ask {
        list,
        n,
        asker,
        a,
        w,
    };
    *reply = ask.diameter(scratch).reply();
}

#[tactic(auto, unfolding(crate::specs::Reply::Replied))]
#[unsafe(no_mangle)]
pub extern "C" fn figures_pivot_diameter(
    list: &[u32],
    n: u32,
    asker: u32,
    a: u32,
    w: u32,
    pivots: &[u32],
    scratch: &mut [u32],
    reply: &mut [u32; 5],
)
    ensures { Replied answer_reply (λ x. PivotDiameterPromise (ask list.now n asker a w) pivots.now scratch.old x scratch.new) reply.new }
{
    let ask = Ask {
        list,
        n,
        asker,
        a,
        w,
    };
    *reply = ask.pivot_diameter(pivots, scratch).reply();
}
